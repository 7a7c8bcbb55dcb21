//! What evaluates modules.
ghost use Rattle.std.specs.Prelude.{◌≡◌, ℕ, List, map, Result, IfOk};
ghost use Rattle.bq_load_order.specs.SharedOutcomes.{told};

use crate::watch::Watch;
use std::alloc::{AllocError, Global};
use std::marker::{Send, Sync};
use std::sync::Arc;

/// Evaluates modules, each with the values of what it loads. Threads may share it.
pub trait Evaluate: Sync {
    /// What a module evaluates to, for the modules that load it.
    type Value: Send + Sync + Drop;

    /// Why a module has no value.
    type Fault: Send + Sync + Drop;

    /// What values and faults mean.
    ghost Meaning: { Type 0 };

    ghost Reason: { Type 0 };

    ghost see: { Self.Value → Meaning };

    ghost see_fault: { Self.Fault → Reason };

    /// What a module evaluates to, with the values of its loads in their order.
    ghost means: { Self → ℕ → List Meaning → Result Meaning Reason };

    /// Evaluates module `m`. It notifies the watch right before the module's statements run; if none run, it doesn't.
    fn evaluate<W: Watch>(
        &self,
        alloc: Global,
        m: u32,
        imports: &[Arc<Self::Value, Global>],
        watch: &W,
    ) -> Result<Result<Self::Value, Self::Fault>, AllocError>
        ensures { IfOk result (λ r. told see see_fault r ≡ means self.now m (map (λ a. see a.value) imports.now)) };
}
