//! The elements of an argument, one after another, where they are.

ghost use Rattle.std.specs.Prelude.{◌≡◌, length, IfOk};
ghost use Rattle.bq_base.specs.Gives.{Gives};
ghost use Rattle.bq_value.specs.declared.error.EvalErr.TheVariants.{Bad};
ghost use Rattle.bq_builtin_machine.specs.Iteration.{IsNext, elements_in};

use bq_base::EvalFault;
use bq_builtin_machine::{Elements, next_key, next_value};
use bq_value::{Body, Dict, EvalErr, Node, Store, Value};
use std::alloc::AllocError;
use std::marker::Model;

/// The elements of an iterable that are still to come, where they are. Contracts see their list.
#[derive(Drop)]
pub(crate) struct Column<'a> {
    left: ColumnSource<'a>,
}

#[derive(Drop)]
enum ColumnSource<'a> {
    /// These values, from this place on.
    Values(&'a [Value], usize),
    /// The keys of a dict, from this place on.
    Keys(&'a Dict, usize),
    Integers(Elements),
}

impl<'a> Model for Column<'a> {
    ghost use Rattle.std.specs.Prelude.{List};
    ghost use Rattle.std.specs.Coded.{coded_list};
    ghost use Rattle.bq_value.specs.Datum.{Datum};
    ghost use Rattle.bq_value.specs.Codes.{coded_datum};

    ghost Value = { List Datum };

    ghost coded = { coded_list coded_datum };

    ghost use Rattle.bq_builtin.specs.ColumnOf.{column_left};

    ghost view = { λ c. column_left c.left };
}

impl<'a> Column<'a> {
    /// Returns the elements of an iterable (F40).
    #[tactic(auto, using(bq_value_datum::specs::Datum::list_of_data_of))]
    pub(crate) fn of(store: &'a Store, value: &'a Value) -> Result<Column<'a>, EvalErr>
        ensures { Gives (λ xs. xs) Bad result (elements_in store.now value.now) }
    {
        let left = match &value.node {
            Node::Tuple(items) => ColumnSource::Values(items, 0),
            Node::Range(range) => ColumnSource::Integers(Elements::of_range(*range)),
            Node::Cell(cell) => match store.content(*cell) {
                None => return Err(EvalErr::Bad(EvalFault::WrongType)),
                Some(content) => match content.body() {
                    Body::List(values) => ColumnSource::Values(values, 0),
                    Body::Dict(dict) => ColumnSource::Keys(dict, 0),
                    Body::Rule(_) => return Err(EvalErr::Bad(EvalFault::WrongType)),
                },
            },
            _ => return Err(EvalErr::Bad(EvalFault::WrongType)),
        };
        Ok(Column { left })
    }

    /// Returns how many are to come.
    pub(crate) fn len(&self) -> usize
        ensures { result ≡ length self.now }
    {
        match &self.left {
            ColumnSource::Values(values, at) => values.len().saturating_sub(*at),
            ColumnSource::Keys(dict, at) => dict.len().saturating_sub(*at),
            ColumnSource::Integers(integers) => integers.len(),
        }
    }

    /// Takes the next one. Fails where 2^63 owners of it are alive.
    pub(crate) fn next(&mut self) -> Result<Option<Value>, AllocError>
        ensures { IfOk result (λ next. IsNext next self.old self.new) }
    {
        match &mut self.left {
            ColumnSource::Values(values, at) => next_value(values, at),
            ColumnSource::Keys(dict, at) => next_key(dict, at),
            ColumnSource::Integers(integers) => Ok(integers.next()),
        }
    }
}
