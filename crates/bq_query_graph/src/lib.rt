//! For numbered targets those that their edges lead to come in; sets of targets go out.
//!
//! A graph's targets are the numbers below a count. A set of targets is a list of marks, one for each target.
//! The promise: each set has exactly the targets that the query reference says, defined by paths (`specs/Paths.antt`).
//! Every function takes time linear in the number of targets and edges.
//!
//! In reading order:
//!
//! - `row_list`: for each target those that its edges lead to, one row after another, as they are made;
//! - `rows`: the same of all targets, and how they are turned around;
//! - `graph`: the rows of the edges, and of all edges turned around;
//! - `sets`: union, intersection, difference, and the members of a set in order;
//! - `search`: what paths reach through the targets that are allowed;
//! - `deps`, `rdeps`, `allpaths`: the operators;
//! - `laws`: what the operators' definitions say together.
#![tactic(auto)]

pub mod allpaths;
pub mod deps;
mod graph;
pub mod laws;
pub mod rdeps;
mod row_list;
mod rows;
mod search;
mod sets;

pub use graph::DependencyGraph;
pub use row_list::RowList;
pub use sets::{difference, intersection, members, union};
