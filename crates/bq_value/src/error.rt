//! Why an evaluation has no answer.

ghost use Rattle.std.specs.Prelude.{◌≡◌};
ghost use Rattle.bq_value.specs.declared.error.EvalErr.TheVariants.{Bad, Memory};

use bq_base::EvalFault;
use std::alloc::{AllocError, AllocFailed};

/// Neither case has a line or a detail: these are known where the fault leaves the evaluation.
#[derive(Clone, Copy, Debug, PartialEq, Eq)]
pub enum EvalErr {
    /// The program is faulty.
    Bad(EvalFault),
    /// Memory was refused, which says nothing about the program.
    Memory,
}

impl From<EvalFault> for EvalErr {
    ghost from_gives = { λ kind e. e ≡ Bad kind };

    fn from(kind: EvalFault) -> Self {
        EvalErr::Bad(kind)
    }
}

impl From<AllocError> for EvalErr {
    ghost from_gives = { λ _ e. e ≡ Memory };

    fn from(_: AllocError) -> Self {
        EvalErr::Memory
    }
}

impl<T: Drop> From<AllocFailed<T>> for EvalErr {
    ghost from_gives = { λ _ e. e ≡ Memory };

    fn from(_: AllocFailed<T>) -> Self {
        EvalErr::Memory
    }
}
