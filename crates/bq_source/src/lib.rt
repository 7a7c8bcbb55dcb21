//! The bytes of a BUILD or .bzl file come in; what they begin with goes out: a token, what stands between tokens, or a fault.
//!
//! The promise: [`next_piece`] returns exactly the piece that the text begins with, by `specs/Piece.antt`: how it is spelled, how far it
//! reaches, and over how many lines. `bq_source_lexer` makes the tokens of a file of them.
//!
//! In reading order:
//!
//! - `token`: what a token is;
//! - `lexis`, `operators`: how blanks, words and operators are spelled;
//! - `number`: integer literals, and what they stand for;
//! - `string_literal`: string literals, item by item, and what they stand for;
//! - `piece`: what a text begins with.
#![tactic(auto)]

mod lexis;
mod number;
mod operators;
mod piece;
mod string_literal;
mod token;

pub use lexis::{RunClass, is_letter, is_word, newlines, run_len, word_kind};
pub use number::{
    begins_number, decimal_texts_read_back, each_digit_has_its_place, int_value, number_len,
    values_are_those_of_the_digits,
};
pub use operators::Lexeme;
pub use piece::{Extent, Piece, next_piece};
pub use string_literal::{
    StringLiteral, begins_string, each_literal_has_a_value, literals_are_cut_in_one_way,
    literals_are_cut_into_items, open_literals_have_no_end, quoted_strings_read_back, scan_string,
    string_value, values_are_those_of_the_items,
};
pub use token::{Token, TokenKind};
