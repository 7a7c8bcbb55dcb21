use std::alloc::AllocError;
use thiserror::Error;

/// Why loads make no plan. The first that applies of `TooMany`, `BadIndex`, `Cyclic`; `Memory` if memory runs out.
#[derive(Debug, Drop, Error)]
pub enum PlanErr {
    /// A module is cyclic: loads lead from it to a cycle.
    #[error("P1 Cyclic")]
    Cyclic,
    /// A loaded module isn't one of the plan's.
    #[error("P2 BadIndex")]
    BadIndex,
    /// More modules or more edges than the limits allow.
    #[error("P3 TooMany")]
    TooMany,
    #[error("P4 Memory")]
    Memory,
}

impl From<AllocError> for PlanErr {
    ghost use Rattle.std.specs.Prelude.{◌≡◌};
    ghost use Rattle.bq_board_plan.specs.declared.refusal.PlanErr.TheVariants.{Memory};

    ghost from_gives = { λ _ e. e ≡ Memory };

    fn from(_: AllocError) -> PlanErr {
        PlanErr::Memory
    }
}
