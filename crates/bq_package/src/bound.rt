//! The arguments that the parameters of a build function take, by their types.

ghost use Rattle.std.specs.Prelude.{◌≡◌};
ghost use Rattle.bq_base.specs.Gives.{Gives};
ghost use Rattle.bq_value.specs.declared.error.EvalErr.TheVariants.{Bad};
ghost use Rattle.bq_package_values.specs.Parameters.{argument};
ghost use Rattle.bq_package.specs.Bound.{text_of, texts_of};

use bq_base::{Bytes, EvalFault};
use bq_package_values::{argument, text_in, texts_in};
use bq_value::{EvalErr, Store, Value};
use sqlite_items::Items;
use std::alloc::Global;

/// Returns a string, or F73.
pub fn text_of(values: &[Option<Value>], index: usize) -> Result<Bytes, EvalErr>
    ensures { Gives (λ text. text) Bad result (text_of (argument values.now index)) }
{
    match argument(values, index) {
        None => Err(EvalErr::Bad(EvalFault::AttributeType)),
        Some(value) => text_in(value, EvalFault::AttributeType),
    }
}

/// Returns a list or a tuple of strings, or F73; no strings if the argument is left out.
pub fn texts_of(
    alloc: Global,
    store: &Store,
    values: &[Option<Value>],
    index: usize,
) -> Result<Items<Bytes>, EvalErr>
    ensures { Gives (λ texts. texts) Bad result (texts_of store.now (argument values.now index)) }
{
    match argument(values, index) {
        None => Ok(Items::new(alloc)),
        Some(value) => texts_in(alloc, store, value, EvalFault::AttributeType),
    }
}
