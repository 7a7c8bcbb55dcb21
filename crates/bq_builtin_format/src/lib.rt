//! A format and values come in; the text that the operator `%` or the method `format` makes of them goes out.
//!
//! The promise: `percent` and `format` give exactly the text or the fault of their definitions, and the steps that are left, unless
//! memory runs out.
//!
//! What is malformed is noted in a `Draft` and the walk goes on, so that F59 comes after all that visits to values find
//! (F53, F55), and F54 last.
//!
//! In reading order:
//!
//! - `draft`: what is written, and whether something was malformed;
//! - `operator`: conversions, and the operator `%`;
//! - `piece`: the pieces of a format for the method;
//! - `named`, `argument`: which value a field names;
//! - `method`: the method `format`;
//! - `laws`: what the definitions say together.
#![tactic(auto)]

mod argument;
mod draft;
pub mod laws;
mod method;
mod named;
mod operator;
mod piece;

pub use method::format;
pub use operator::percent;
