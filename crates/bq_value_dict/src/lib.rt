//! Dicts: keys and values come in, and pairs in the order in which their keys were inserted go out.
//!
//! The promise: a dict is the list of its pairs, in the order in which the keys were inserted, and no key is there twice
//! (`specs/Pairs.antt`).
//!
//! In reading order:
//!
//! - `few`: the pairs of a dict that has few of them;
//! - `places`: the places of a dict that has many, of which some are empty;
//! - `many`: the pairs of a dict, however many;
//! - `dict`: pairs with distinct keys in the order in which the keys were inserted;
//! - `laws`: what the definitions say together.
#![tactic(auto)]

mod dict;
mod few;
pub mod laws;
mod many;
mod places;

pub use dict::Dict;
