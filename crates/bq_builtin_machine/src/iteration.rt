//! The elements of iterables (Starlark, "Iteration protocol").

ghost use Rattle.std.specs.Prelude.{◌≡◌, length, IfOk, map};
ghost use Rattle.bq_base.specs.Gives.{Gives};
ghost use Rattle.bq_value.specs.Datum.{int};
ghost use Rattle.bq_value.specs.declared.error.EvalErr.TheVariants.{Bad};
ghost use Rattle.bq_value.specs.Pairs.{keys};
ghost use Rattle.bq_builtin_machine.specs.Action.{Does};
ghost use Rattle.bq_builtin_machine.specs.Iteration.{range_integers, content_elements, elements, IsNext};

use crate::machine::Machine;
use crate::range_walk::RangeWalk;
use bq_base::EvalFault;
use bq_value::{Body, Content, Dict, EvalErr, Node, Range, Value, copies};
use std::alloc::{AllocError, Global};
use std::marker::Model;

/// The elements of an iterable that are still to come. Contracts see their list.
#[derive(Drop)]
pub struct Elements {
    left: Left,
}

#[derive(Drop)]
enum Left {
    /// In reverse: the last one comes next.
    Values(Vec<Value>),
    Range(RangeWalk),
}

impl Model for Elements {
    ghost use Rattle.std.specs.Prelude.{List};
    ghost use Rattle.std.specs.Coded.{coded_list};
    ghost use Rattle.bq_value.specs.Datum.{Datum};
    ghost use Rattle.bq_value.specs.Codes.{coded_datum};

    ghost Value = { List Datum };

    ghost coded = { coded_list coded_datum };

    ghost use Rattle.bq_builtin_machine.specs.ElementsOf.{elements_left};

    ghost view = { λ e. elements_left e.left };
}

impl Elements {
    /// Makes elements of these values, in order.
    #[tactic(auto, using(crate::proofs::Reversed::reversed_twice))]
    pub fn of(mut values: Vec<Value>) -> Elements
        ensures { result ≡ values.items }
    {
        values.reverse();
        Elements {
            left: Left::Values(values),
        }
    }

    /// Makes the elements of a range.
    pub fn of_range(range: Range) -> Elements
        ensures { result ≡ map int (range_integers range.start range.stop range.step) }
    {
        Elements {
            left: Left::Range(RangeWalk::over(range)),
        }
    }

    /// Returns how many are to come.
    #[tactic(auto, using(crate::proofs::Reversed::reversed_length, crate::proofs::Reversed::mapped_length))]
    pub fn len(&self) -> usize
        ensures { result ≡ length self.now }
    {
        match &self.left {
            Left::Values(values) => values.len(),
            Left::Range(integers) => integers.len(),
        }
    }

    /// Takes the next one.
    #[tactic(auto, using(crate::proofs::Reversed::popped))]
    pub fn next(&mut self) -> Option<Value>
        ensures { IsNext result self.old self.new }
    {
        match &mut self.left {
            Left::Values(values) => values.pop(),
            Left::Range(integers) => match integers.next() {
                Some(n) => Some(Value::int(n)),
                None => None,
            },
        }
    }
}

impl Machine {
    /// Returns the elements that an iterable has now.
    #[tactic(auto, using(bq_value_datum::specs::Datum::list_of_data_of), unfolding(crate::specs::Iteration::elements))]
    pub fn elements(&self, alloc: Global, value: &Value) -> Result<Elements, EvalErr>
        ensures { Does (λ xs. xs) result self.now (elements value.now self.now) }
    {
        match &value.node {
            Node::Tuple(items) => Ok(Elements::of(copies(alloc, items)?)),
            Node::Range(range) => Ok(Elements::of_range(*range)),
            Node::Cell(cell) => match self.store.content(*cell) {
                Some(content) => Ok(Elements::of(content_elements(alloc, content)?)),
                None => Err(EvalErr::Bad(EvalFault::WrongType)),
            },
            _ => Err(EvalErr::Bad(EvalFault::WrongType)),
        }
    }
}

/// Shares the keys of a dict.
pub fn keys_of(alloc: Global, dict: &Dict) -> Result<Vec<Value>, AllocError>
    ensures { IfOk result (λ xs. xs.items ≡ keys dict.now) }
{
    let mut shares = Vec::with_capacity(alloc, dict.len())?;
    for i in 0..dict.len() {
        let (key, _) = dict.pair(i);
        shares.push(key.value().share()?)?;
    }
    Ok(shares)
}

/// Shares the values of a dict.
pub fn values_of(alloc: Global, dict: &Dict) -> Result<Vec<Value>, AllocError>
    ensures { IfOk result (λ xs. xs.items ≡ map (λ p. p.1) dict.now) }
{
    let mut shares = Vec::with_capacity(alloc, dict.len())?;
    for i in 0..dict.len() {
        let (_, value) = dict.pair(i);
        shares.push(value.share()?)?;
    }
    Ok(shares)
}

pub(crate) fn content_elements(alloc: Global, content: &Content) -> Result<Vec<Value>, EvalErr>
    ensures { Gives (λ xs. xs.items) Bad result (content_elements (Some content.now)) }
{
    match content.body() {
        Body::List(items) => Ok(copies(alloc, items)?),
        Body::Dict(dict) => Ok(keys_of(alloc, dict)?),
        Body::Rule(_) => Err(EvalErr::Bad(EvalFault::WrongType)),
    }
}
