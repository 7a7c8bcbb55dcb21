//! Lists, tuples and strings that are joined, repeated and sliced (Starlark, "String concatenation", "String
//! repetition", "Slice expressions"). The length of a result is known before memory is asked for (F54).

ghost use Rattle.std.specs.Prelude.{◌≡◌, ◌≢◌, ◌++◌, OnOk, IfOk, cond, ◌==◌, pos};
ghost use Rattle.bq_base.specs.Gives.{Gives};
ghost use Rattle.bq_value.specs.declared.error.EvalErr.TheVariants.{Bad};
ghost use Rattle.bq_builtin_strings.specs.Slice.{taken_by, slice_of};
ghost use Rattle.bq_builtin_strings.specs.Length.{times_of};
ghost use Rattle.bq_builtin_operators.specs.Sequence.{joined, copies, repeated, AreWithin};

use bq_base::Bytes;
use bq_builtin_strings::{element, joined_len, repeated_len, slice_places};
use bq_value::{EvalErr, Range, Value};
use std::alloc::{AllocError, Global};

/// Returns `xs + ys` of lists or tuples.
#[tactic(auto, unfolding(crate::specs::Sequence::joined))]
pub(crate) fn join_values(alloc: Global, xs: &[Value], ys: &[Value]) -> Result<Vec<Value>, EvalErr>
    ensures { Gives (λ values. values.items) Bad result (joined xs.now ys.now) }
{
    let len = joined_len(xs.len(), ys.len())?;
    let mut values = Vec::with_capacity(alloc, len)?;
    push_shares(&mut values, xs)?;
    push_shares(&mut values, ys)?;
    Ok(values)
}

/// Appends shares of these values.
pub(crate) fn push_shares(values: &mut Vec<Value>, more: &[Value]) -> Result<(), AllocError>
    ensures { OnOk result (values.new.items ≡ values.old.items ++ more.now) }
{
    for value in more {
        values.push(value.share()?)?;
    }
    Ok(())
}

/// Returns `xs * times` of strings.
#[tactic(auto, using(crate::proofs::Sequences::repeated_is))]
pub(crate) fn repeat_bytes(alloc: Global, xs: &[u8], times: i64) -> Result<Bytes, EvalErr>
    ensures { Gives (λ text. text) Bad result (repeated xs.now times) }
{
    let len = repeated_len(xs.len(), times)?;
    let mut text = Vec::with_capacity(alloc, len)?;
    push_copies(&mut text, xs, times)?;
    Ok(Bytes::from_vec(alloc, text)?)
}

/// Returns `xs * times` of lists or tuples.
#[tactic(auto, using(crate::proofs::Sequences::repeated_is))]
pub(crate) fn repeat_values(alloc: Global, xs: &[Value], times: i64) -> Result<Vec<Value>, EvalErr>
    ensures { Gives (λ values. values.items) Bad result (repeated xs.now times) }
{
    let len = repeated_len(xs.len(), times)?;
    let mut values = Vec::with_capacity(alloc, len)?;
    push_values(&mut values, xs, times)?;
    Ok(values)
}

/// Appends `xs`, `times` times.
fn push_copies(text: &mut Vec<u8>, xs: &[u8], times: i64) -> Result<(), AllocError>
    ensures { OnOk result (text.new.items ≡ text.old.items ++ copies xs.now (times_of times)) }
{
    for _turn in 0..turns(xs.len(), times) {
        text.extend_from_slice(xs)?;
    }
    Ok(())
}

/// Appends shares of `xs`, `times` times.
fn push_values(values: &mut Vec<Value>, xs: &[Value], times: i64) -> Result<(), AllocError>
    ensures { OnOk result (values.new.items ≡ values.old.items ++ copies xs.now (times_of times)) }
{
    for _turn in 0..turns(xs.len(), times) {
        push_shares(values, xs)?;
    }
    Ok(())
}

/// Returns how many turns it takes to repeat `len` elements: none if there is nothing to repeat.
fn turns(len: usize, times: i64) -> usize
    ensures { result ≡ cond (len == 0) 0 (times_of times) }
{
    if len == 0 || times < 0 {
        return 0;
    }
    times as usize
}

/// Returns the elements of `text[start:stop:step]`, where the step isn't 0.
pub(crate) fn slice_bytes(
    alloc: Global,
    text: &[u8],
    start: Option<i64>,
    stop: Option<i64>,
    step: i64,
) -> Result<Vec<u8>, AllocError>
    requires { step ≢ pos 0 }
    ensures { IfOk result (λ taken. taken.items ≡ slice_of text.now start stop step) }
{
    take_bytes(alloc, text, slice_places(text.len(), start, stop, step))
}

/// Returns the elements of `values[start:stop:step]`, where the step isn't 0.
pub(crate) fn slice_values(
    alloc: Global,
    values: &[Value],
    start: Option<i64>,
    stop: Option<i64>,
    step: i64,
) -> Result<Vec<Value>, AllocError>
    requires { step ≢ pos 0 }
    ensures { IfOk result (λ taken. taken.items ≡ slice_of values.now start stop step) }
{
    take_values(alloc, values, slice_places(values.len(), start, stop, step))
}

/// Returns the bytes at these places.
fn take_bytes(alloc: Global, text: &[u8], places: Range) -> Result<Vec<u8>, AllocError>
    requires { AreWithin text.now places.start places.stop places.step }
    ensures { IfOk result (λ taken. taken.items ≡ taken_by text.now places.start places.stop places.step) }
{
    let count = places.count();
    let mut taken = Vec::with_capacity(alloc, count as usize)?;
    for number in 0..count {
        let at = element(places, number) as usize;
        taken.push(text[at])?;
    }
    Ok(taken)
}

/// Returns the values at these places.
fn take_values(alloc: Global, values: &[Value], places: Range) -> Result<Vec<Value>, AllocError>
    requires { AreWithin values.now places.start places.stop places.step }
    ensures { IfOk result (λ taken. taken.items ≡ taken_by values.now places.start places.stop places.step) }
{
    let count = places.count();
    let mut taken = Vec::with_capacity(alloc, count as usize)?;
    for number in 0..count {
        let at = element(places, number) as usize;
        taken.push(values[at].share()?)?;
    }
    Ok(taken)
}
