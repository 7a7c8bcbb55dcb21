//! The bytes of a BUILD or .bzl file come in; its tokens go out, or its first fault.
//!
//! The promise: [`lex`] returns exactly the tokens that the text reads as, by the relation `Lexes` of
//! `specs/Reading.antt`. A text that reads as no tokens has one fault there, and that one is returned. The readings of a
//! text are exactly those that `specs/Layout.antt` describes by spellings, lines, widths and brackets
//! ([`the_words_give_the_reading`]).
//!
//! In reading order:
//!
//! - `frequent`: the pieces that most texts are made of, known by their first byte;
//! - `place`: how far a text is cut into tokens;
//! - `lexer`: one pass over the bytes, a piece at a time;
//! - `laws`: what every reading of a text is, in words of the text and the tokens;
//! - `reading_laws`: the words give the reading, and only one;
//! - `string_laws`: string literals and their faults, in words of their items;
//! - `table_laws`: keywords, operators, escapes and bytes are those that the specification lists.
#![tactic(auto)]

mod frequent;
mod laws;
mod lexer;
mod place;
mod reading_laws;
mod string_laws;
mod table_laws;

pub use laws::{
    every_text_has_its_reading, faults_are_in_the_text, one_reading, tokens_cut_the_text,
    tokens_lie_within,
};
pub use lexer::lex;
pub use reading_laws::{one_reading_in_words, the_words_give_the_reading};
pub use string_laws::strings_in_words;
pub use table_laws::{
    bytes_of_words_and_numbers, escapes_are_those_of_the_table, faults_have_their_numbers,
    limits_of_the_lexis, marks_have_their_kinds, words_and_marks_read_alone,
    words_have_their_kinds,
};
