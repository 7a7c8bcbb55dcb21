//! An operator and its operands come in; the value of `a op= b` goes out, and the machine afterwards.
//!
//! The promise: [`augment`] does exactly what the definition of its name does to the machine, unless memory runs out
//! (`augment` in `specs/InPlace.antt` of bq_builtin_operators): `+=` on a list and `|=` on a dict change it and return it, and
//! all else is the operator.
#![tactic(auto)]

mod augmented;

pub use augmented::augment;
pub use bq_builtin_operators::set_index;
