//! Slices of strings, tuples and lists (Starlark, "Slice expressions").

ghost use Rattle.std.specs.Prelude.{◌≡◌, ◌≢◌, IfOk, pos};
ghost use Rattle.bq_base.specs.Gives.{Gives};
ghost use Rattle.bq_value.specs.declared.error.EvalErr.TheVariants.{Bad};
ghost use Rattle.bq_builtin_operators.specs.Slicing.{bound_of, bounds_of, sliced};

use crate::sequence::{slice_bytes, slice_values};
use bq_base::{Bytes, EvalFault};
use bq_value::{EvalErr, Node, Value};
use std::alloc::Global;

/// Returns a slice of a string.
#[tactic(auto, unfolding(crate::specs::Slicing::sliced))]
pub(crate) fn sliced_bytes(
    alloc: Global,
    text: &[u8],
    start: &Value,
    stop: &Value,
    step: &Value,
) -> Result<Bytes, EvalErr>
    ensures { Gives (λ taken. taken) Bad result (sliced text.now start.now stop.now step.now) }
{
    let (start, stop, step) = bounds_of(start, stop, step)?;
    let taken = slice_bytes(alloc, text, start, stop, step)?;
    Ok(Bytes::from_vec(alloc, taken)?)
}

/// Returns a slice of a tuple or a list.
#[tactic(auto, unfolding(crate::specs::Slicing::sliced))]
pub(crate) fn sliced_values(
    alloc: Global,
    values: &[Value],
    start: &Value,
    stop: &Value,
    step: &Value,
) -> Result<Vec<Value>, EvalErr>
    ensures { Gives (λ taken. taken.items) Bad result (sliced values.now start.now stop.now step.now) }
{
    let (start, stop, step) = bounds_of(start, stop, step)?;
    Ok(slice_values(alloc, values, start, stop, step)?)
}

/// Returns the start, the stop and the step: F40 if one is neither an integer nor `None`, then F57 for a step of 0.
#[tactic(auto, unfolding(crate::specs::Slicing::bounds_of))]
fn bounds_of(
    start: &Value,
    stop: &Value,
    step: &Value,
) -> Result<(Option<i64>, Option<i64>, i64), EvalFault>
    ensures bounds { result ≡ bounds_of start.now stop.now step.now }
    ensures step { IfOk result (λ bounds. bounds.2 ≢ pos 0) }
{
    let start = bound_of(start)?;
    let stop = bound_of(stop)?;
    let step = bound_of(step)?.unwrap_or(1);
    if step == 0 {
        return Err(EvalFault::BadValue);
    }
    Ok((start, stop, step))
}

/// Returns a bound, if it isn't left out.
fn bound_of(value: &Value) -> Result<Option<i64>, EvalFault>
    ensures { result ≡ bound_of value.now }
{
    match &value.node {
        Node::NoneValue => Ok(None),
        Node::Int(n) => Ok(Some(*n)),
        _ => Err(EvalFault::WrongType),
    }
}
