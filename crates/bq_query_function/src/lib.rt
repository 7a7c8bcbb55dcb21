//! The functions of queries, and the sets that parts of queries name. A name comes in, and what the arguments of that
//! function must be goes out; the targets of a workspace, in the order of their labels, and a part of a query or a call
//! with the sets of its arguments come in, and the set that it stands for goes out. A set is a list of marks, one for
//! each target.
//!
//! The promise: each set has exactly the targets that the definition of its form names, or the first pattern that names
//! what isn't there is the error (Q5, Q6). Which functions there are, how many arguments each takes and of which kinds,
//! and the set that it stands for, is what its row says (`specs/Functions.antt`). A row names the kind of its set
//! (`specs/Sets.antt`), so that what holds of each kind holds of all functions.
//!
//! Patterns find their targets by binary search: a pattern takes time logarithmic in the number of targets, and linear
//! in those that it names.
//!
//! In reading order:
//!
//! - `order`: the place of a text, or of a label, among the labels of the targets;
//! - `text`: the texts of packages, kinds, labels and attributes;
//! - `missing`: what a pattern names that isn't there (Q5, Q6);
//! - `pattern`, `set`: the targets that patterns name;
//! - `matching`: the members of a set whose text has a match of a pattern;
//! - `related`: the targets to which those of a set are related;
//! - `kind`, `filter`, `attr`, `labels`: functions over the targets of a set;
//! - `laws`: what words name, said of packages;
//! - `functions`: the functions, a row for each, and the set of each;
//! - `signature`: what arguments must be;
//! - `look_up`: functions by their names;
//! - `call`: calls, their arguments read but for the sets;
//! - `sets`: the sets that several functions stand for;
//! - `answer`: the set of a call.
#![tactic(auto)]

mod answer;
pub mod attr;
mod call;
pub mod filter;
mod functions;
pub mod kind;
pub mod labels;
pub mod laws;
mod look_up;
mod matching;
mod missing;
mod order;
mod pattern;
pub mod related;
mod set;
mod sets;
mod signature;
mod text;

pub use answer::{of_one, of_two};
pub use call::Call;
pub use functions::QueryFunction;
pub use look_up::{function_named, is_left_out};
pub use pattern::add_package;
pub use set::{no_target, targets_named};
pub use signature::{QueryArgumentKind, QuerySignature};
pub use text::write_kind;
