//! Outcomes whose values and faults are shared.
ghost use Rattle.std.specs.Prelude.{◌≡◌, IfOk};
ghost use Rattle.bq_load_order.specs.SharedOutcomes.{seen_value, shown, value_in};

use crate::evaluate::Evaluate;
use crate::outcome::Outcome;
use std::alloc::{AllocError, Global};
use std::sync::Arc;

/// An outcome that all modules share that load the module.
pub type SharedOutcome<V, F> = Outcome<Arc<V, Global>, Arc<F, Global>>;

/// Shares an outcome.
pub fn share<E: Evaluate>(
    outcome: &SharedOutcome<E::Value, E::Fault>,
) -> Result<SharedOutcome<E::Value, E::Fault>, AllocError>
    ensures { IfOk result (λ o. shown E.see E.see_fault o ≡ shown E.see E.see_fault outcome.now) }
{
    match outcome {
        Outcome::Loaded(value) => Ok(Outcome::Loaded(Arc::try_clone(value)?)),
        Outcome::Faulty(fault) => Ok(Outcome::Faulty(Arc::try_clone(fault)?)),
        Outcome::Cyclic(load) => Ok(Outcome::Cyclic(*load)),
        Outcome::TooDeep(load) => Ok(Outcome::TooDeep(*load)),
        Outcome::LoadFailed(load) => Ok(Outcome::LoadFailed(*load)),
    }
}

/// Shares the value of an outcome, if it has one.
pub fn share_value<E: Evaluate>(
    outcome: &SharedOutcome<E::Value, E::Fault>,
) -> Result<Option<Arc<E::Value, Global>>, AllocError>
    ensures { IfOk result (λ v. seen_value E.see v ≡ value_in (shown E.see E.see_fault outcome.now)) }
{
    match outcome {
        Outcome::Loaded(value) => Ok(Some(Arc::try_clone(value)?)),
        Outcome::Faulty(_) => Ok(None),
        Outcome::Cyclic(_) => Ok(None),
        Outcome::TooDeep(_) => Ok(None),
        Outcome::LoadFailed(_) => Ok(None),
    }
}
