//! The outcome of one module, by what it loads.
ghost use Rattle.std.specs.Prelude.{◌≡◌, IfOk};
ghost use Rattle.bq_load_order.specs.Outcome.{evaluated};
ghost use Rattle.bq_load_order.specs.SharedOutcomes.{seen, shown};

use crate::evaluate::Evaluate;
use crate::outcome::Outcome;
use crate::shared::SharedOutcome;
use crate::watch::Watch;
use std::alloc::{AllocError, Global};
use std::sync::Arc;

/// Returns the outcome of a module that isn't cyclic, by the values of its loads or the first load without one. The
/// module is evaluated only if all have one.
pub fn outcome_by<E: Evaluate, W: Watch>(
    alloc: Global,
    evaluator: &E,
    m: u32,
    imports: Result<Vec<Arc<E::Value, Global>>, u32>,
    watch: &W,
) -> Result<SharedOutcome<E::Value, E::Fault>, AllocError>
    ensures { IfOk result (λ o. shown E.see E.see_fault o ≡ evaluated (E.means evaluator.now m) (seen E.see imports)) }
{
    let imports = match imports {
        Ok(imports) => imports,
        Err(load) => return Ok(Outcome::LoadFailed(load)),
    };
    match evaluator.evaluate(alloc, m, imports.as_slice(), watch)? {
        Ok(value) => Ok(Outcome::Loaded(Arc::new(alloc, value)?)),
        Err(fault) => Ok(Outcome::Faulty(Arc::new(alloc, fault)?)),
    }
}
