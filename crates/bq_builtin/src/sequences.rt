//! `list`, `tuple`, `reversed` and `enumerate` (Starlark, "list", "tuple", "reversed", "enumerate").

ghost use Rattle.std.specs.Prelude.{◌≡◌, ◌≤◌, ◌^◌, ◌+ℤ◌, ◌≤ℤ◌, pos, length, IfOk, OnOk, option_copied};
ghost use Rattle.bq_base.specs.Gives.{Gives};
ghost use Rattle.bq_builtin_strings.specs.Length.{max_len};
ghost use Rattle.bq_value.specs.declared.error.EvalErr.TheVariants.{Bad};
ghost use Rattle.bq_builtin.specs.Sequences.{tuple, list, reversed, start_or_zero, numbers_fit, numbered_value, numbered, enumerate};

use crate::arguments::{integer, one_and_named, only_argument, only_argument_if_any};
use crate::elements::{listed, listed_if_any, room_for, values_of};
use bq_base::EvalFault;
use bq_builtin_machine::{Args, Machine};
use bq_builtin_methods::elements_in;
use bq_value::{EvalErr, Value};
use std::alloc::{AllocError, Global};

/// Returns `tuple(x)`.
#[tactic(auto, unfolding(crate::specs::Sequences::tuple))]
pub(crate) fn tuple(alloc: Global, machine: &Machine, args: &Args) -> Result<Value, EvalErr>
    ensures { Gives (λ v. v) Bad result (tuple machine.now.store args.now) }
{
    let value = only_argument_if_any(args)?;
    let items = listed_if_any(alloc, machine, value)?;
    Ok(Value::tuple(alloc, items)?)
}

/// Returns the values of the new list `list(x)`.
#[tactic(auto, unfolding(crate::specs::Sequences::list))]
pub(crate) fn list(alloc: Global, machine: &Machine, args: &Args) -> Result<Vec<Value>, EvalErr>
    ensures { Gives (λ vs. vs.items) Bad result (list machine.now.store args.now) }
{
    listed_if_any(alloc, machine, only_argument_if_any(args)?)
}

/// Returns the values of the new list `reversed(x)`.
#[tactic(auto, unfolding(crate::specs::Sequences::reversed))]
pub(crate) fn reversed(alloc: Global, machine: &Machine, args: &Args) -> Result<Vec<Value>, EvalErr>
    ensures { Gives (λ vs. vs.items) Bad result (reversed machine.now.store args.now) }
{
    let mut values = listed(alloc, machine, only_argument(args)?)?;
    values.reverse();
    Ok(values)
}

fn start_or_zero(value: Option<&Value>) -> Result<i64, EvalErr>
    ensures { Gives (λ i. i) Bad result (start_or_zero (option_copied value.entry)) }
{
    match value {
        None => Ok(0),
        Some(value) => integer(value),
    }
}

/// Checks that the last of `count` numbers from `start` on fits 64 bits (F41).
fn numbers_fit(start: i64, count: usize) -> Result<(), EvalFault>
    ensures says { result ≡ numbers_fit start count }
    ensures below { OnOk result ((start +ℤ pos count) ≤ℤ pos (2 ^ 63)) }
{
    if count == 0 {
        return Ok(());
    }
    if count as u64 - 1 > i64::MAX.abs_diff(start) {
        return Err(EvalFault::Overflow);
    }
    Ok(())
}

/// Returns `(number, value)`.
fn numbered_value(alloc: Global, number: i64, value: &Value) -> Result<Value, AllocError>
    ensures { IfOk result (λ v. v ≡ numbered_value number value.now) }
{
    let mut parts = Vec::with_capacity(alloc, 2)?;
    parts.push(Value::int(number))?;
    parts.push(value.share()?)?;
    Value::tuple(alloc, parts)
}

/// Returns each value with its number.
fn numbered(alloc: Global, start: i64, values: &[Value]) -> Result<Vec<Value>, AllocError>
    requires few { length values.now ≤ max_len }
    requires below { (start +ℤ pos (length values.now)) ≤ℤ pos (2 ^ 63) }
    ensures { IfOk result (λ vs. vs.items ≡ numbered start values.now) }
{
    let mut pairs = Vec::with_capacity(alloc, values.len())?;
    for (i, value) in values.iter().enumerate() {
        pairs.push(numbered_value(alloc, start + i as i64, value)?)?;
    }
    Ok(pairs)
}

/// Returns the values of the new list `enumerate(x, start = 0)`.
#[tactic(auto, unfolding(crate::specs::Sequences::enumerate))]
pub(crate) fn enumerate(
    alloc: Global,
    machine: &Machine,
    args: &Args,
) -> Result<Vec<Value>, EvalErr>
    ensures { Gives (λ vs. vs.items) Bad result (enumerate machine.now.store args.now) }
{
    let (value, start) = one_and_named(b"start", args)?;
    let start = start_or_zero(start)?;
    let elements = elements_in(alloc, machine, value)?;
    numbers_fit(start, elements.len())?;
    room_for(elements.len())?;
    let values = values_of(alloc, elements)?;
    Ok(numbered(alloc, start, &values)?)
}
