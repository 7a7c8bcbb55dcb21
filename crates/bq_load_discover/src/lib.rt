//! A workspace and its schema come in; its load graph goes out: its modules, the front of each file, and which module
//! loads which.
//!
//! The modules are the BUILD files and all that they load, directly or not (`specs/Modules.antt`). Each is named by its label, so
//! that two spellings of a label are one module. A module's number is its place in the order of the bytes of the labels' full forms.
//!
//! The promise: [`discover`] returns the one load graph of the workspace, or finds that it has more modules or edges
//! than the standard limits allow (`specs/LoadGraph.antt`), and [`discover_within`] and, by several threads,
//! [`discover_by_workers`] the same by the limits that they are given. Each file is read once, and nothing recurs along
//! loads.
//!
//! In reading order:
//!
//! - `load_err`: why there is no load graph;
//! - `schema`: the schema of a workspace;
//! - `modules`: a module with the front of its file;
//! - `exploration`: the modules, found along loads;
//! - `waves`: how several threads find them, which read at once all that was found so far;
//! - `order`: the modules in the order of their labels;
//! - `edges`: which module loads which, by their numbers;
//! - `load_graph`, `discovery`: the load graph, and how it is made of a workspace;
//! - `laws`: what it is, said of the workspace.
#![tactic(auto)]

mod discovery;
mod edges;
mod exploration;
mod laws;
mod load_err;
mod load_graph;
mod modules;
mod order;
mod schema;
mod waves;

pub use discovery::{discover, discover_by_workers, discover_within};
pub use laws::{modules_have_files, one_load_graph, too_many_for_a_load_graph};
pub use load_err::LoadErr;
pub use load_graph::LoadGraph;
pub use modules::Module;
pub use schema::schema_of;
