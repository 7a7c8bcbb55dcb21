//! What a workspace loads to by names, which is what a run is defined by; the laws that it is what bq_load gives, by slots.
//!
//! In: nothing; the functions do nothing, and their contracts are the laws. The promise: for every workspace, schema,
//! limit and load graph each module has by names the outcome that it has in bq_load: the same globals and cells,
//! prints, fault and package.
//!
//! The definitions say by names what bq_load says by slots: `specs/Parsed.antt` (each module with what its file is),
//! `Imports` (what a file gets of what it loads), `Evaluation` (what a module evaluates to) and `Results` (the recursion
//! along loads). The proofs: each module is read as what its file is (`proofs/Read.antt`), so a file gets the same
//! values by its loads (`proofs/Imports.antt`) and each module evaluates to the same, whatever it loads
//! (`proofs/Modules.antt`). The recursion along loads is one definition over what modules evaluate to, so the
//! outcomes are the same (`proofs/Outcomes.antt`).
#![tactic(auto)]

mod laws;

pub use bq_load::{Loaded, OpenGate, Sources, Workers, load_graph_with, load_with, load_within};
pub use bq_load_discover::{LoadErr, LoadGraph, schema_of};
pub use laws::{evaluated_modules_agree, modules_are_read, outcomes_agree};
