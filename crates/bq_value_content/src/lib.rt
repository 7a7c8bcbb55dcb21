//! What the cells of a store hold: lists, dicts and rules; and by which names the rules of a module are called. Values and
//! dicts come in, and contents go out.
//!
//! The promise: a rule is called by the name of the first global of its own module that holds it (`specs/Kinds.antt`); and a
//! module is lent no cell but its own to change (`specs/Lending.antt`).
//!
//! In reading order:
//!
//! - `content`: what a cell holds, which walks share;
//! - `kinds`: by which names rules are called;
//! - `made`: the cells that a running module has made.
#![tactic(auto)]

mod content;
mod kinds;
mod made;

pub use bq_value_dict::Dict;
pub use content::{Body, Content, copies};
pub use kinds::{Kinds, kinds_of};
pub use made::Made;
