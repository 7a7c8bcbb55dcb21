//! What every crate above uses: byte strings that are shared, the faults of files, and the limits of a run. Nothing
//! here knows of tokens.
//!
//! The promise: a [`Bytes`] is its bytes, and so is each share of it. A kind of fault has the number and the name of the
//! table (`specs/Fault.antt`). Limits have the numbers of `specs/Limits.antt`, written there and in `limits.rt` alone.
//! What contracts above mean by "out of memory aside" is `Gives` (`specs/Gives.antt`).
//!
//! In reading order:
//!
//! - `bytes`: the shared byte string of names, texts and details;
//! - `fault`: the table of all faults that users see, and the faults of each stage, which fails with these alone;
//! - `shown`: how these two are shown to people;
//! - `limits`: how large a workspace may be, and how many steps its modules may take.
#![tactic(auto)]

mod bytes;
mod fault;
mod limits;
mod shown;

pub use bytes::Bytes;
pub use fault::{
    EvalFault, Fault, FaultKind, LoadFault, NameFault, SourceErr, StatementFault, TokenFault,
};
pub use limits::Limits;
