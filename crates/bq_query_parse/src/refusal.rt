//! Why there is no tree.

ghost use Rattle.std.specs.Prelude.{◌≡◌};
ghost use Rattle.bq_query_parse.specs.declared.refusal.QuerySyntaxErr.TheVariants.{Memory};

use std::alloc::{AllocError, AllocFailed};

/// Why a query wasn't read.
#[derive(Debug, Drop)]
pub enum QuerySyntaxErr {
    Memory,
    /// The tokens are no query.
    Syntax,
}

impl From<AllocError> for QuerySyntaxErr {
    ghost from_gives = { λ _ e. e ≡ Memory };

    fn from(_e: AllocError) -> QuerySyntaxErr {
        QuerySyntaxErr::Memory
    }
}

impl<T: Drop> From<AllocFailed<T>> for QuerySyntaxErr {
    ghost from_gives = { λ _ e. e ≡ Memory };

    fn from(_e: AllocFailed<T>) -> QuerySyntaxErr {
        QuerySyntaxErr::Memory
    }
}
