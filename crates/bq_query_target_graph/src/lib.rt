//! The packages of a workspace come in; the graph of their targets goes out, and a fault line for each label that names none.
//!
//! The promise: the targets are those of all packages in the order of their labels, so that a target's number orders it; an edge leads
//! from one to another exactly where the first depends on the second (`specs/Edges.antt`). A label of another package that names no
//! target there is fault F79 (`specs/Dangling.antt`). It takes time n log n in the targets and in the labels that they name.
//! `build_graph` returns for every input; `build_graph_by` has several threads take the targets out of a part of the packages each, and then
//! find the edges along a part of the targets.
//!
//! In reading order:
//!
//! - `order`: the targets of all packages in order;
//! - `numbers`: the number of a label;
//! - `build_files`: the BUILD files of packages;
//! - `dangling`: the line of a label of another package that names no target;
//! - `edges`: which targets depend on which, and which labels name none, found by one thread or by several;
//! - `graph`: the graph, and how it is made of packages.
#![tactic(auto)]

mod build_files;
mod dangling;
mod edges;
mod graph;
mod numbers;
mod order;

pub use dangling::dangling_in_words;
pub use graph::{TargetGraph, build_graph, build_graph_by};
