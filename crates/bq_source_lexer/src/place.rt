//! How far a text is cut into tokens.

use bq_source::{Token, TokenKind};
use std::marker::Model;

/// The most bytes that a file may have.
pub const MAX_FILE_BYTES: usize = 1_048_576;

/// The start of a logical line.
#[derive(Clone, Copy)]
pub struct Margin {
    /// How many spaces it begins with.
    pub width: usize,
    /// A tab follows them.
    pub tab: bool,
    /// From 1.
    pub line: u32,
}

/// A bracket that is open.
#[derive(Clone, Copy)]
pub struct OpenBracket {
    /// The kind of the bracket that closes it.
    pub closing: TokenKind,
    /// The line that it stands in, from 1.
    pub line: u32,
}

/// A text that is cut into tokens up to a place.
#[derive(Drop)]
pub struct Lexer<'a> {
    pub text: &'a [u8],
    /// How many bytes are cut.
    pub at: usize,
    /// The line of the next byte, from 1.
    pub line: u32,
    /// The margin of the logical line, as long as it has no token.
    pub margin: Option<Margin>,
    /// The innermost one is the last.
    pub open_brackets: Vec<OpenBracket>,
    /// The widths above 0 that are open, the greatest last.
    pub widths: Vec<usize>,
    pub tokens: Vec<Token>,
}

impl<'a> Model for Lexer<'a> {
    ghost use Rattle.std.specs.Prelude.{◌≤◌, ◌+◌, length, drop, reverse};
    ghost use Rattle.bq_source_lexer.specs.Reading.{State, max_file_bytes};

    ghost Value = { State };

    ghost view = { λ l. record {
      at = l.at;
      line = l.line;
      rest = drop l.at l.text.now;
      margin = l.margin;
      open_brackets = reverse l.open_brackets.items;
      widths = reverse l.widths.items;
      tokens = l.tokens.items;
    } };

    ghost invariant = { λ l. (l.at ≤ length l.text.now) × (length l.text.now ≤ max_file_bytes) × (l.line ≤ l.at + 1) };
}
