//! The values of what a module loads.
ghost use Rattle.std.specs.Prelude.{◌≡◌, ℕ, ◌<◌, length, map, IfOk};
ghost use Rattle.bq_board_plan.specs.Counts.{Has};
ghost use Rattle.bq_load_order.specs.Outcome.{load_values};
ghost use Rattle.bq_load_order.specs.SharedOutcomes.{seen, seen_value, slot, value_in};
ghost use Rattle.bq_load_order.specs.Slots.{found_at, or_failed};

use crate::evaluate::Evaluate;
use crate::shared::{SharedOutcome, share_value};
use std::alloc::{AllocError, Global};
use std::sync::Arc;

/// Returns the values of loaded modules in the order of the loads, or the first load that has none.
pub fn imported<E: Evaluate>(
    alloc: Global,
    found: &[Option<SharedOutcome<E::Value, E::Fault>>],
    loads: &[u32],
) -> Result<Result<Vec<Arc<E::Value, Global>>, u32>, AllocError>
    requires { (l : ℕ) → Has loads.now l → l < length found.now }
    ensures { IfOk result (λ r. seen E.see r ≡ load_values (found_at (map (slot E.see E.see_fault) found.now)) loads.now) }
{
    let mut imports = Vec::new(alloc);
    for l in loads {
        match value_found::<E>(&found[*l as usize])? {
            Some(value) => imports.push(value)?,
            None => return Ok(Err(*l)),
        }
    }
    Ok(Ok(imports))
}

/// Shares the value that was found, if there is one.
fn value_found<E: Evaluate>(
    found: &Option<SharedOutcome<E::Value, E::Fault>>,
) -> Result<Option<Arc<E::Value, Global>>, AllocError>
    ensures { IfOk result (λ v. seen_value E.see v ≡ value_in (or_failed (slot E.see E.see_fault found.now))) }
{
    match found {
        Some(outcome) => share_value::<E>(outcome),
        None => Ok(None),
    }
}
