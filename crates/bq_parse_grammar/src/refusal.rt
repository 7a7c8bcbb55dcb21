//! Why there is no tree.

ghost use Rattle.std.specs.Prelude.{◌≡◌};
ghost use Rattle.bq_parse_grammar.specs.declared.refusal.SyntaxErr.TheVariants.{Memory};

use std::alloc::{AllocError, AllocFailed};

/// Why a phrase wasn't read.
#[derive(Debug, Drop)]
pub enum SyntaxErr {
    Memory,
    /// The tokens are no phrase of the grammar.
    Syntax,
    /// A `lambda` stands where an expression may, and from it on nothing more is read.
    Lambda,
}

impl From<AllocError> for SyntaxErr {
    ghost from_gives = { λ _ e. e ≡ Memory };

    fn from(_e: AllocError) -> SyntaxErr {
        SyntaxErr::Memory
    }
}

impl<T: Drop> From<AllocFailed<T>> for SyntaxErr {
    ghost from_gives = { λ _ e. e ≡ Memory };

    fn from(_e: AllocFailed<T>) -> SyntaxErr {
        SyntaxErr::Memory
    }
}
