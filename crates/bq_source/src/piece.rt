//! What a text begins with: the next piece, by the rule of the lexis that it falls under.

ghost use Rattle.std.specs.Prelude.{◌≡◌, ◌<◌, ◌∷◌};
ghost use Rattle.bq_source.specs.Number.{number_len};
ghost use Rattle.bq_source.specs.Piece as spec;

use crate::lexis::{RunClass, comment_len, is_letter, newline_len, newlines, run_len, word_kind};
use crate::number::{begins_number, int_value, number_len};
use crate::operators::{Lexeme, operator};
use crate::string_literal::{begins_pair, begins_string, past_plain, rest_of, scan_string};
use crate::token::TokenKind;
use bq_base::TokenFault;

/// How far a piece reaches.
#[derive(Clone, Copy)]
pub struct Extent {
    /// In bytes.
    pub len: usize,
    /// How many newlines are among them.
    pub lines: usize,
}

#[derive(Clone, Copy)]
pub enum Piece {
    /// Spaces and tabs, a comment, or the joint of two lines: it makes no token.
    Gap(Extent),
    LineEnd(Extent),
    Lexed(Lexeme, Extent),
    /// No piece begins here; the fault is this many lines further on.
    Bad(TokenFault, usize),
}

#[tactic(auto, unfolding(crate::specs::Piece::number))]
fn number(text: &[u8]) -> Piece
    requires { 0 < number_len text.now }
    ensures piece { result ≡ spec.number text.now }
    ensures fits { spec.Fits text.now result }
{
    let len = number_len(text);
    match int_value(&text[..len]) {
        Some(_) => Piece::Lexed(Lexeme::Plain(TokenKind::Int), Extent { len, lines: 0 }),
        None => Piece::Bad(TokenFault::BadInt, 0),
    }
}

/// Returns the piece that begins with a string literal of whatever form.
#[tactic(auto, unfolding(crate::specs::Piece::string))]
fn any_string(text: &[u8]) -> Piece
    ensures piece { result ≡ spec.string text.now }
    ensures fits { spec.Fits text.now result }
{
    let Some(literal) = scan_string(text) else {
        return Piece::Bad(TokenFault::OpenString, 0);
    };
    match literal.bad_escape {
        Some(before) => Piece::Bad(TokenFault::Escape, newlines(&text[..before])),
        None => {
            let extent = Extent {
                len: literal.len,
                lines: newlines(&text[..literal.len]),
            };
            Piece::Lexed(Lexeme::Plain(TokenKind::String), extent)
        }
    }
}

/// Returns the piece that begins with a string literal. Most stand in two double quotes, and each byte in them stands for itself: they need
/// no look at each item.
fn string(text: &[u8]) -> Piece
    ensures piece { result ≡ spec.string text.now }
    ensures fits { spec.Fits text.now result }
{
    let [b'"', after @ ..] = text else {
        return any_string(text);
    };
    if begins_pair(b'"', after) {
        return any_string(text);
    }
    let end = past_plain(b'"', after, 0);
    match rest_of(after, end) {
        [b'"', ..] => {
            let len = end + 2;
            Piece::Lexed(Lexeme::Plain(TokenKind::String), Extent { len, lines: 0 })
        }
        _ => any_string(text),
    }
}

/// Returns what a backslash before these bytes begins.
#[tactic(auto, unfolding(crate::specs::Piece::joined))]
fn joined(behind: &[u8]) -> Piece
    ensures piece { result ≡ spec.joined behind.now }
    ensures fits { spec.Fits (92 ∷ behind.now) result }
{
    let n = newline_len(behind);
    if n == 0 {
        return Piece::Bad(TokenFault::BadByte, 0);
    }
    Piece::Gap(Extent {
        len: n + 1,
        lines: 1,
    })
}

/// Returns what the text begins with.
#[tactic(auto, unfolding(crate::specs::Piece::next_piece, crate::specs::Piece::word, crate::specs::Piece::mark))]
pub fn next_piece(text: &[u8]) -> Piece
    ensures piece { result ≡ spec.next_piece text.now }
    ensures fits { spec.Fits text.now result }
{
    let [first, behind @ ..] = text else {
        return Piece::Bad(TokenFault::BadByte, 0);
    };
    if *first == b' ' || *first == b'\t' {
        let len = run_len(text, RunClass::Blank);
        return Piece::Gap(Extent { len, lines: 0 });
    }
    if begins_string(text) {
        return string(text);
    }
    if is_letter(*first) {
        let len = run_len(text, RunClass::Word);
        return Piece::Lexed(
            Lexeme::Plain(word_kind(&text[..len])),
            Extent { len, lines: 0 },
        );
    }
    if begins_number(text) {
        return number(text);
    }
    if *first == b'#' {
        let len = comment_len(text);
        return Piece::Gap(Extent { len, lines: 0 });
    }
    if *first == b'\\' {
        return joined(behind);
    }
    let len = newline_len(text);
    if len > 0 {
        return Piece::LineEnd(Extent { len, lines: 1 });
    }
    match operator(*first, behind) {
        Some((len, lexeme)) => Piece::Lexed(lexeme, Extent { len, lines: 0 }),
        None => Piece::Bad(TokenFault::BadByte, 0),
    }
}
