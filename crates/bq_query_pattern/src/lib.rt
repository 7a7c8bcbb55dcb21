//! The bytes of a pattern come in; whether it is found in a text goes out.
//!
//! The promise: a pattern is read by the grammar of `regex` from exactly its bytes, with the default options for texts
//! of bytes, and it is found in a text exactly if what is read has a match anywhere in it (`specs/Patterns.antt`).
//!
//! In reading order:
//!
//! - `pattern`: a pattern that was compiled once, and is kept as its bytes;
//! - `compiled`: a compiled pattern;
//! - `matcher`: what searches for it.
#![tactic(auto)]

mod compiled;
mod matcher;
mod pattern;

pub use compiled::CompiledPattern;
pub use matcher::PatternMatcher;
pub use pattern::{PatternErr, QueryPattern};
