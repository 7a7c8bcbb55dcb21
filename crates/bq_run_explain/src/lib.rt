//! A number that a run prints, as `F47`, comes in; what it means, an example and what to do go out.
//!
//! The promise: [`explain`] has an entry, with the right name, for each fault of a file, each error of a query and each error of a run
//! that can be printed, and for nothing else (`specs/Laws.antt`).
//!
//! The texts are this crate's tables, from which dev/faults makes docs/FAULTS.md; tests/scripts/faults runs their examples.
//!
//! - `explanation`: what is printed for a number, and the look-up in a table of errors;
//! - `faults`: the faults and their texts; `queries`, `runs`: the tables of errors;
//! - `look_up`: the look-up by number;
//! - `laws`: that the tables have the numbers and names of bq_base, bq_query_lex and bq_run_write.
#![tactic(auto)]

mod explanation;
mod faults;
mod laws;
mod look_up;
mod queries;
mod runs;

pub use explanation::{Explanation, NumberMeaning};
pub use laws::{each_error_is_explained, each_fault_is_explained, nothing_else_is_explained};
pub use look_up::explain;
