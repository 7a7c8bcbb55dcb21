//! Why a workspace has no load graph.

use std::alloc::AllocError;
use thiserror::Error;

/// Why a workspace has no load graph.
#[derive(Debug, Drop, Error)]
pub enum LoadErr {
    /// Memory was refused, which says nothing about the workspace.
    #[error("L1 Memory")]
    Memory,
    /// More modules or edges than a load graph may have.
    #[error("L2 TooManyModules")]
    TooManyModules,
    /// The first bad line of the schema.
    #[error("L3 Schema {0}")]
    Schema(u32),
}

impl From<AllocError> for LoadErr {
    ghost use Rattle.std.specs.Prelude.{◌≡◌};
    ghost use Rattle.bq_load_discover.specs.declared.load_err.LoadErr.TheVariants.{Memory};

    ghost from_gives = { λ _ e. e ≡ Memory };

    fn from(_: AllocError) -> LoadErr {
        LoadErr::Memory
    }
}
