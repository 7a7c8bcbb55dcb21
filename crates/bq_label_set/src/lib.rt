//! Labels come in; a set of them goes out, in which each has a number: its place in the order in which they were first
//! added.
//!
//! The promise: a set holds exactly the labels that were added, each once (`specs/Labels.antt`). Strangers choose labels,
//! so those whose hashes collide are found in a tree: no choice of labels makes a set slow.
//!
//! In reading order:
//!
//! - `numbering`: the numbers of labels;
//! - `label_set`: sets of labels;
//! - `laws`: what holds of every set.
#![tactic(auto)]

mod label_set;
mod laws;
mod numbering;

pub use label_set::LabelSet;
pub use laws::{
    each_label_once, labels_with_numbers, numbers_stay, the_labels_added, those_that_differ,
};
