//! How blanks, line ends and words are spelled.

ghost use Rattle.std.specs.Prelude.{◌≡◌, ◌≤◌, length, map, not};
ghost use Rattle.std.specs.List.{prefix_len};
ghost use Rattle.std.specs.Simd.Lanes.{mask_l};
ghost use Rattle.bq_source.specs.Lexis.{is_letter, is_word, has, newlines, newline_len, comment_len, word_kind};

use crate::token::TokenKind;
use std::simd::prelude::*;

/// How many bytes of a run are looked at at once.
const BLOCK_LEN: usize = 16;

/// Returns whether a word may begin with the byte.
pub fn is_letter(b: u8) -> bool
    ensures { result ≡ is_letter b }
{
    b.is_ascii_lowercase() || b.is_ascii_uppercase() || b == b'_'
}

/// Returns whether the byte may stand in a word.
pub fn is_word(b: u8) -> bool
    ensures { result ≡ is_word b }
{
    is_letter(b) || b.is_ascii_digit()
}

/// What a run of bytes is made of.
#[derive(Clone, Copy)]
pub enum RunClass {
    Space,
    /// A space or a tab.
    Blank,
    Word,
}

fn has(class: RunClass, b: u8) -> bool
    ensures { result ≡ has class b }
{
    match class {
        RunClass::Space => b == b' ',
        RunClass::Blank => b == b' ' || b == b'\t',
        RunClass::Word => is_word(b),
    }
}

/// Returns a bit for each byte of the block that isn't of the class, the first in the lowest place.
#[inline(always)]
fn others(class: RunClass, block: u8x16) -> u64
    ensures { result ≡ mask_l (map (λ b. not (has class b)) block) }
{
    let spaces = u8x16::splat(b' ');
    match class {
        RunClass::Space => block.simd_ne(spaces).to_bitmask(),
        RunClass::Blank => {
            (block.simd_ne(spaces) & block.simd_ne(u8x16::splat(b'\t'))).to_bitmask()
        }
        RunClass::Word => {
            // The bit that a small letter has and its capital hasn't.
            let letters = (block | u8x16::splat(0x20)) - u8x16::splat(b'a');
            let digits = block - u8x16::splat(b'0');
            (letters.simd_ge(u8x16::splat(26))
                & digits.simd_ge(u8x16::splat(10))
                & block.simd_ne(u8x16::splat(b'_'))).to_bitmask()
        }
    }
}

/// Returns how many bytes at the front are of the class, where fewer are left than a block has.
#[inline(never)]
fn short_run_len(bytes: &[u8], class: RunClass) -> usize
    ensures run { result ≡ prefix_len (has class) bytes.now }
    ensures within { result ≤ length bytes.now }
{
    bytes.iter().take_while(|b| has(class, **b)).count()
}

/// Returns how many bytes at the front are of the class.
#[inline(always)]
pub fn run_len(bytes: &[u8], class: RunClass) -> usize
    ensures run { result ≡ prefix_len (has class) bytes.now }
    ensures within { result ≤ length bytes.now }
{
    let mut n = 0;
    while bytes.len() - n >= BLOCK_LEN {
        let found = others(class, u8x16::from_slice(&bytes[n..]));
        if found != 0 {
            return n + found.trailing_zeros() as usize;
        }
        n += BLOCK_LEN;
    }
    n + short_run_len(&bytes[n..], class)
}

pub fn newlines(bytes: &[u8]) -> usize
    ensures count { result ≡ newlines bytes.now }
    ensures within { result ≤ length bytes.now }
{
    bytes.iter().filter(|b| **b == b'\n').count()
}

/// Returns how many bytes the line end at the front takes, 0 where there is none.
pub fn newline_len(text: &[u8]) -> usize
    ensures len { result ≡ newline_len text.now }
    ensures within { result ≤ length text.now }
{
    match text {
        [b'\n', ..] => 1,
        [b'\r', b'\n', ..] => 2,
        _ => 0,
    }
}

/// Returns how many bytes the comment at the front takes, up to the end of the line.
pub fn comment_len(text: &[u8]) -> usize
    ensures len { result ≡ comment_len text.now }
    ensures within { result ≤ length text.now }
{
    let mut n = 0;
    while n < text.len() && newline_len(&text[n..]) == 0 {
        n += 1;
    }
    n
}

/// The keywords, and after them the reserved words.
const WORDS: [(&[u8], TokenKind); 31] = [
    (b"and", TokenKind::And),
    (b"break", TokenKind::Break),
    (b"continue", TokenKind::Continue),
    (b"def", TokenKind::Def),
    (b"elif", TokenKind::Elif),
    (b"else", TokenKind::Else),
    (b"for", TokenKind::For),
    (b"if", TokenKind::If),
    (b"in", TokenKind::In),
    (b"lambda", TokenKind::Lambda),
    (b"load", TokenKind::Load),
    (b"not", TokenKind::Not),
    (b"or", TokenKind::Or),
    (b"pass", TokenKind::Pass),
    (b"return", TokenKind::Return),
    (b"as", TokenKind::Reserved),
    (b"assert", TokenKind::Reserved),
    (b"class", TokenKind::Reserved),
    (b"del", TokenKind::Reserved),
    (b"except", TokenKind::Reserved),
    (b"finally", TokenKind::Reserved),
    (b"from", TokenKind::Reserved),
    (b"global", TokenKind::Reserved),
    (b"import", TokenKind::Reserved),
    (b"is", TokenKind::Reserved),
    (b"nonlocal", TokenKind::Reserved),
    (b"raise", TokenKind::Reserved),
    (b"try", TokenKind::Reserved),
    (b"while", TokenKind::Reserved),
    (b"with", TokenKind::Reserved),
    (b"yield", TokenKind::Reserved),
];

/// The first bytes of the keywords and reserved words of each length, from 0 on.
const FIRST_BYTES: [&[u8]; 9] = [
    b"", b"", b"aio", b"adfnt", b"eflpw", b"bcrwy", b"aegilr", b"f", b"cn",
];

/// Returns the kind of a word: a keyword, a reserved word or an identifier.
#[tactic(auto, using(crate::proofs::Heads::headless))]
pub fn word_kind(word: &[u8]) -> TokenKind
    ensures { result ≡ word_kind word.now }
{
    let [first, ..] = word else {
        return TokenKind::Identifier;
    };
    // Most identifiers have another first byte or length than each of the words, and need no walk along all.
    match FIRST_BYTES.get(word.len()).copied() {
        Some(bytes) if bytes.contains(first) => {}
        _ => return TokenKind::Identifier,
    }
    let mut table: &[(&[u8], TokenKind)] = &WORDS;
    while let [entry, rest @ ..] = table {
        if word == entry.0 {
            return entry.1;
        }
        table = rest;
    }
    TokenKind::Identifier
}
