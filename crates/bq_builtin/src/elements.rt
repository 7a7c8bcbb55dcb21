//! The elements of arguments.

ghost use Rattle.std.specs.Prelude.{◌≡◌, ◌≤◌, IfOk, OnOk, option_copied};
ghost use Rattle.bq_base.specs.Gives.{Gives};
ghost use Rattle.bq_builtin_strings.specs.Length.{max_len};
ghost use Rattle.bq_value.specs.declared.error.EvalErr.TheVariants.{Bad};
ghost use Rattle.bq_builtin.specs.Elements.{room_for, listed, listed_if_any};

use bq_base::EvalFault;
use bq_builtin_machine::{Elements, Machine};
use bq_builtin_methods::elements_in;
use bq_builtin_strings::MAX_LEN;
use bq_value::{EvalErr, Value};
use std::alloc::{AllocError, Global};

/// Returns all of these as a list.
pub(crate) fn values_of(alloc: Global, mut elements: Elements) -> Result<Vec<Value>, AllocError>
    ensures { IfOk result (λ xs. xs.items ≡ elements) }
{
    let mut values = Vec::with_capacity(alloc, elements.len())?;
    while let Some(value) = elements.next() {
        values.push(value)?;
    }
    Ok(values)
}

/// Checks that a list or tuple may have `count` elements (F54).
#[tactic(auto, using(std::proofs::lemmas::Bool::Decides::nat_tests), unfolding(crate::specs::Elements::room_for))]
pub(crate) fn room_for(count: usize) -> Result<(), EvalFault>
    ensures says { result ≡ room_for count }
    ensures few { OnOk result (count ≤ max_len) }
{
    if count > MAX_LEN {
        return Err(EvalFault::TooLong);
    }
    Ok(())
}

/// Returns the elements of an iterable, if a list may have as many.
#[tactic(auto, unfolding(crate::specs::Elements::listed))]
pub(crate) fn listed(alloc: Global, machine: &Machine, value: &Value) -> Result<Vec<Value>, EvalErr>
    ensures { Gives (λ xs. xs.items) Bad result (listed machine.now.store value.now) }
{
    let elements = elements_in(alloc, machine, value)?;
    room_for(elements.len())?;
    Ok(values_of(alloc, elements)?)
}

/// Returns the elements of an iterable that may be left out.
#[tactic(auto, unfolding(crate::specs::Elements::listed_if_any))]
pub(crate) fn listed_if_any(
    alloc: Global,
    machine: &Machine,
    value: Option<&Value>,
) -> Result<Vec<Value>, EvalErr>
    ensures { Gives (λ xs. xs.items) Bad result (listed_if_any machine.now.store (option_copied value.entry)) }
{
    match value {
        None => Ok(Vec::new(alloc)),
        Some(value) => listed(alloc, machine, value),
    }
}
