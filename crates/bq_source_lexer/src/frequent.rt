//! The pieces that BUILD files are full of: each is known by its first byte, and needs no look at the other rules of the lexis.

ghost use Rattle.std.specs.Prelude.{◌≡◌, ◌≤◌, length, map, not};
ghost use Rattle.std.specs.List.{prefix_len};
ghost use Rattle.std.specs.Simd.Lanes.{mask_l};
ghost use Rattle.bq_source.specs.Piece as spec;
ghost use Rattle.bq_source.specs.StringLiteral as literal;
ghost use Rattle.bq_source.specs.declared.piece.Piece.TheVariants.{Lexed};

use bq_source::{
    Extent, Lexeme, Piece, RunClass, TokenKind, is_letter, next_piece, run_len, word_kind,
};
use std::simd::prelude::*;

/// How many bytes of a literal are looked at at once.
const BLOCK_LEN: usize = 16;

/// Returns whether the byte stands for itself between two double quotes.
fn is_plain(b: u8) -> bool
    ensures { result ≡ literal.is_plain 34 b }
{
    b != b'"' && b != b'\\' && b != b'\n' && b != b'\r'
}

/// Returns a bit for each byte of the block that doesn't stand for itself between two double quotes, the first in the lowest place.
#[inline(always)]
fn others(block: u8x16) -> u64
    ensures { result ≡ mask_l (map (λ b. not (literal.is_plain 34 b)) block) }
{
    (block.simd_eq(u8x16::splat(b'"'))
        | block.simd_eq(u8x16::splat(b'\\'))
        | block.simd_eq(u8x16::splat(b'\n'))
        | block.simd_eq(u8x16::splat(b'\r'))).to_bitmask()
}

/// Returns how many bytes at the front stand for themselves between two double quotes, where fewer are left than a block has.
#[inline(never)]
fn short_plain_len(bytes: &[u8]) -> usize
    ensures run { result ≡ prefix_len (literal.is_plain 34) bytes.now }
    ensures within { result ≤ length bytes.now }
{
    bytes.iter().take_while(|b| is_plain(**b)).count()
}

/// Returns how many bytes at the front stand for themselves between two double quotes.
#[inline(always)]
fn plain_len(bytes: &[u8]) -> usize
    ensures run { result ≡ prefix_len (literal.is_plain 34) bytes.now }
    ensures within { result ≤ length bytes.now }
{
    let mut n = 0;
    while bytes.len() - n >= BLOCK_LEN {
        let found = others(u8x16::from_slice(&bytes[n..]));
        if found != 0 {
            return n + found.trailing_zeros() as usize;
        }
        n += BLOCK_LEN;
    }
    n + short_plain_len(&bytes[n..])
}

/// Returns what a text with a double quote in front begins with. In most literals each byte up to the next quote stands for itself.
#[inline(always)]
fn string(text: &[u8]) -> Piece
    ensures piece { result ≡ spec.next_piece text.now }
    ensures fits { spec.Fits text.now result }
{
    let [b'"', after @ ..] = text else {
        return next_piece(text);
    };
    let len = plain_len(after);
    // Two quotes at once may begin three.
    if len == 0 {
        return next_piece(text);
    }
    match &after[len..] {
        [b'"', ..] => Piece::Lexed(
            Lexeme::Plain(TokenKind::String),
            Extent {
                len: len + 2,
                lines: 0,
            },
        ),
        _ => next_piece(text),
    }
}

/// Returns the piece of an operator or a bracket of one byte.
fn mark(lexeme: Lexeme) -> Piece
    ensures { result ≡ Lexed lexeme (spec.bytes 1) }
{
    Piece::Lexed(lexeme, Extent { len: 1, lines: 0 })
}

/// Returns what the text begins with.
#[inline(always)]
pub fn piece(text: &[u8]) -> Piece
    ensures piece { result ≡ spec.next_piece text.now }
    ensures fits { spec.Fits text.now result }
{
    let [first, behind @ ..] = text else {
        return next_piece(text);
    };
    match *first {
        b' ' => Piece::Gap(Extent {
            len: run_len(text, RunClass::Blank),
            lines: 0,
        }),
        b'\n' => Piece::LineEnd(Extent { len: 1, lines: 1 }),
        b'"' => string(text),
        b',' => mark(Lexeme::Plain(TokenKind::Comma)),
        b'(' => mark(Lexeme::Opens(TokenKind::LeftParen, TokenKind::RightParen)),
        b')' => mark(Lexeme::Closes(TokenKind::RightParen)),
        b'[' => mark(Lexeme::Opens(TokenKind::LeftBracket, TokenKind::RightBracket)),
        b']' => mark(Lexeme::Closes(TokenKind::RightBracket)),
        b'=' => match behind {
            [b'=', ..] => next_piece(text),
            _ => mark(Lexeme::Plain(TokenKind::Assign)),
        },
        // (`r` may begin a string)
        b => {
            if !is_letter(b) || b == b'r' {
                return next_piece(text);
            }
            let len = run_len(text, RunClass::Word);
            let kind = word_kind(&text[..len]);
            Piece::Lexed(Lexeme::Plain(kind), Extent { len, lines: 0 })
        }
    }
}
