//! Texts of values: `str` and `repr`.
//!
//! The promise: each gives exactly the text or the fault of its definition, and the steps that are left, unless memory runs out.
//!
//! A text is written onto a `Page`, which keeps at most `MAX_TEXT` bytes. What is written past that is thrown away and the walk
//! goes on, so that F54 comes after all that the visits find: F53 where no step is left, F55 at the 65th level. A list that holds
//! itself is thus F55, and no text ever takes more memory than the limit.
//!
//! What a caller sees of a `Page`: the bytes written so far, or none once they were more than `MAX_TEXT`.
//!
//! In reading order:
//!
//! - `page`: what is written of a text;
//! - `quoted`: strings in quotes;
//! - `leaf`: values that have no values in them;
//! - `shown`: the walk over a value, and the two calls;
//! - `laws`: what the definitions say together.
#![tactic(auto)]

pub mod laws;
mod leaf;
mod page;
mod quoted;
mod shown;

pub use page::{MAX_TEXT, Page};
pub use shown::{repr, text, write_repr, write_text};
