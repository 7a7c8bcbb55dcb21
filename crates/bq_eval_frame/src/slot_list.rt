//! Lists of slots.

ghost use Rattle.std.specs.Prelude.{◌≡◌, IfOk, OnOk, option_copied};
ghost use Rattle.bq_eval_spec.specs.Frame.{fill};
ghost use Rattle.bq_eval_frame.specs.Slots.{list_slots};

use bq_value::Value;
use std::alloc::{AllocError, Global};

/// Returns the value in a slot of a list.
#[tactic(auto, unfolding(crate::specs::Slots::list_slots))]
#[inline(always)]
pub fn slot_in(slots: &[Option<Value>], slot: usize) -> Option<&Value>
    ensures { option_copied result ≡ list_slots slots.now slot }
{
    match slots.get(slot) {
        None => None,
        Some(value) => value.as_ref(),
    }
}

/// Shares the values of a list.
pub fn copied(alloc: Global, slots: &[Option<Value>]) -> Result<Vec<Option<Value>>, AllocError>
    ensures { IfOk result (λ all. all.items ≡ slots.now) }
{
    let mut all = Vec::with_capacity(alloc, slots.len())?;
    for slot in slots {
        all.push(share(slot)?)?;
    }
    Ok(all)
}

/// Shares a value, if there is one.
fn share(slot: &Option<Value>) -> Result<Option<Value>, AllocError>
    ensures { IfOk result (λ s. s ≡ slot.now) }
{
    match slot {
        None => Ok(None),
        Some(value) => Ok(Some(value.share()?)),
    }
}

/// Puts a value into a slot of a list, for which it makes room.
#[inline(never)]
#[tactic(auto, using(crate::proofs::Slots::list_filled, crate::proofs::Slots::padded))]
pub fn put(slots: &mut Vec<Option<Value>>, slot: usize, value: Value) -> Result<(), AllocError>
    ensures { OnOk result (list_slots slots.new.items ≡ fill (list_slots slots.old.items) slot value) }
{
    while slots.len() <= slot {
        slots.push(None)?;
    }
    slots[slot] = Some(value);
    Ok(())
}
