//! Targets, modules and fault lines of a run come in; a line of JSON for each goes out, as `bq --facts` prints them, after a first line that
//! says how many there are.
//!
//! The promise: the first line and those of a target, of a module and of a fault are the definitions' (`specs/Header.antt`,
//! `specs/TargetLine.antt`, `specs/ModuleLine.antt`, `specs/FaultObject.antt`), and the numbers that [`direct_deps`] returns for a target of the graph are those of `deps(x, 1) - x`
//! ([`direct_deps_are_deps`]).
//!
//! In reading order:
//!
//! - `shared_text`: a text whose long pieces are shared;
//! - `json_text`, `lists`: keys, strings, lists and values in such a text;
//! - `labels`: the labels of numbered targets;
//! - `attributes`: the attributes that a target keeps;
//! - `members`: the parts of objects;
//! - `deps`: what a target depends on directly;
//! - `names`: the labels that a target names;
//! - `header`: the first line;
//! - `target_line`: targets;
//! - `symbols`, `module_line`: modules with their loads;
//! - `fault_object`: faults;
//! - `laws`: what the definitions say together.
#![tactic(auto)]

mod attributes;
mod deps;
mod fault_object;
mod header;
mod json_text;
mod labels;
mod laws;
mod lists;
mod members;
mod module_line;
mod names;
mod shared_text;
mod symbols;
mod target_line;

pub use deps::direct_deps;
pub use fault_object::push_fault;
pub use header::{Counts, Origin, push_header};
pub use labels::labels_at;
pub use laws::{
    direct_deps_are_deps, lines_are_of_objects, names_are_dependencies, paths_of_labels,
};
pub use module_line::push_module;
pub use names::named_labels;
pub use shared_text::SharedText;
pub use target_line::{file_of, push_target};
