//! A workspace that changed, and what is kept of it as it was, come in; what it loads to goes out, and what is kept of it
//! for the next time.
//!
//! The promise: [`load_again`] returns what `bq_load::load_within` returns for the files as they are, as if nothing had
//! been loaded before. A module keeps its outcome if its file is what it was, it has the number that it had, all that it loads
//! keep theirs, and, where it is a BUILD file, no file of its package came or went; the others alone are evaluated. If the
//! path of a BUILD file or of a .bzl file came or went, or the schema is another, all are. While neither is so and modules
//! load what they loaded, the files alone are read whose modules may have other outcomes.
//!
//! In reading order: `kept` (what is kept), `renewal` (the load graph after a change), `outcomes` (the outcomes of all modules), `load`
//! (the loading of a workspace). Which modules are what they were, bq_load_changes says.
#![tactic(auto)]

mod kept;
mod load;
mod outcomes;
mod renewal;

pub use kept::{Kept, PreviousLoad, Reloaded};
pub use load::load_again;
