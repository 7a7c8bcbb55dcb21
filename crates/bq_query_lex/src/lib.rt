//! The bytes of a query come in, and its tokens go out; a word of a query comes in, and the target pattern that it is
//! goes out, or why it is none that can be answered. The errors that users see are here too.
//!
//! The promise: [`lex_query`] returns the tokens that the text is cut into, and Q1 exactly if it can't be cut
//! (`specs/Reading.antt`). [`read_pattern`] returns the label or the package that the word names, and which targets of
//! the package it means; it fails with Q3 exactly if the word doesn't begin as a pattern that can be answered, and with
//! Q8 exactly if it reads as no label (`specs/PatternReading.antt`). A pattern that was read needs no second
//! reading.
//!
//! In reading order:
//!
//! - `query_error`: the errors of queries, with the numbers and names that users see;
//! - `token`: the kinds of tokens;
//! - `lexis`: which bytes are a token at the front of a text;
//! - `lexer`: the tokens of a whole text;
//! - `laws`: what the tokens of a text are, said of the text;
//! - `target_pattern`: which form a word has as a target pattern;
//! - `pattern`: target patterns;
//! - `read`: words to target patterns;
//! - `pattern_laws`: which words with `...` are patterns over packages, and that a word reads as a pattern
//!   exactly if it reads as a label.
#![tactic(auto)]

pub mod laws;
mod lexer;
mod lexis;
mod pattern;
pub mod pattern_laws;
mod query_error;
mod read;
mod target_pattern;
mod token;

pub use lexer::lex_query;
pub use lexis::is_variable_name;
pub use pattern::TargetPattern;
pub use query_error::QueryErr;
pub use read::{read_pattern, read_patterns};
pub use target_pattern::{PatternForm, WordForm, begins_pattern, word_form};
pub use token::{QueryToken, QueryTokenKind};
