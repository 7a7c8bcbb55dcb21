//! A resolved file comes in, with the frozen modules that it loads, a value for each clause of its loads, and its host;
//! its module goes out, or why it failed.
//!
//! The promise: what [`load_module`] returns is what the run of the file's statements, with the whole limit of steps,
//! ends in (`module_after`, `specs/Run.antt`). The cells and globals of a .bzl file stay for the modules that load it.
//! Of a BUILD file, which nobody loads, its package stays, and of one that failed nothing but its prints and its fault.
//!
//! In reading order:
//!
//! - `outcome`: a module that was evaluated, and one that failed;
//! - `run`: the run of a file to its module.
#![tactic(auto)]

mod outcome;
mod run;

pub use bq_eval::ResolvedModule;
pub use bq_package::BuildHost;
pub use outcome::{FailedModule, LoadedModule};
pub use run::load_module;
