//! The files of a workspace before a change and after it, and the load graph as it was, come in; which modules are what they
//! were goes out.
//!
//! The promise: [`Change::touched`] returns the packages of which a file came or went, where no file that may be a module did and
//! the schema is what it was, and [`Change::numbers_before`] the numbers that modules had whose file has the text that it had and
//! which, where they are BUILD files, are of no such package (`specs/Same.antt`). Whether their outcomes are what they were is
//! for bq_load_reload to say.
//!
//! In reading order: `paths` (which packages own paths that came or went), `same` (which modules are what they were).
#![tactic(auto)]

mod paths;
mod same;

pub use same::{Change, is_same_label};
