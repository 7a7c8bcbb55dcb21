//! A checked query and the targets of a workspace come in; the targets that the query stands for go out, and their
//! text.
//!
//! The promise: [`answer`] returns exactly the targets of the set that the definition of queries says
//! (`specs/Stands.antt`), in the order of their labels, or the first fault of the words in the order of the text: Q5 or
//! Q6 (`specs/Faults.antt`).
//!
//! In reading order:
//!
//! - `bindings`: the sets that lets bind;
//! - `operators`: operators on sets;
//! - `sets`: the sets of queries;
//! - `whole`: whole queries;
//! - `print`: the text of an answer;
//! - `laws`: what the definitions say together.
#![tactic(auto)]

mod bindings;
pub mod laws;
mod operators;
mod print;
mod sets;
mod whole;

pub use print::{OutputForm, print_answer};
pub use whole::answer;
