//! The pieces of a format (Starlark, "string·format").

ghost use Rattle.std.specs.Prelude.{◌≡◌, ◌≤◌, ◌<◌, [], IfOk, IfSome, Some, None, MatchOption, length};
ghost use Rattle.std.specs.List.{prefix_len};
ghost use Rattle.bq_builtin_format.specs.Piece.{is_brace, is_plain, is_inside, field_of, doubled, piece_written, pieces, literal};

use crate::draft::Draft;
use std::alloc::AllocError;

fn is_brace(byte: u8) -> bool
    ensures { result ≡ is_brace byte }
{
    byte == b'{' || byte == b'}'
}

/// Returns how many bytes that are no braces the text begins with.
fn plain_len(text: &[u8]) -> usize
    ensures len { result ≡ prefix_len is_plain text.now }
    ensures within { result ≤ length text.now }
{
    let mut at = 0;
    while at < text.len() {
        if is_brace(text[at]) {
            return at;
        }
        at += 1;
    }
    at
}

/// Returns how many bytes the text has before its first closing brace.
fn inside_len(text: &[u8]) -> usize
    ensures len { result ≡ prefix_len is_inside text.now }
    ensures within { result ≤ length text.now }
{
    let mut at = 0;
    while at < text.len() {
        if text[at] == b'}' {
            return at;
        }
        at += 1;
    }
    at
}

/// Returns the text of the field that a format begins with, and what is after it.
#[tactic(auto, unfolding(crate::specs::Piece::field_of))]
pub fn field_of(format: &[u8]) -> Option<(&[u8], &[u8])>
    ensures field { MatchOption result (field_of format.now ≡ None) (λ p. field_of format.now ≡ Some (p.0.now, p.1.now)) }
    ensures shorter { IfSome result (λ p. length p.1.now < length format.now) }
{
    let [brace, inside @ ..] = format else {
        return None;
    };
    if *brace != b'{' {
        return None;
    }
    let [first, ..] = inside else {
        return None;
    };
    if *first == b'{' {
        return None;
    }
    let (name, end) = inside.split_at(inside_len(inside));
    let [_, after @ ..] = end else {
        return None;
    };
    Some((name, after))
}

/// Writes what a brace that begins no field stands for, and returns what is after it.
fn write_brace<'f>(brace: u8, after: &'f [u8], draft: &mut Draft) -> Result<&'f [u8], AllocError>
    ensures piece { IfOk result (λ rest. draft.new ≡ piece_written draft.old (doubled brace after.now).0) }
    ensures rest { IfOk result (λ rest. rest.now ≡ (doubled brace after.now).1) }
{
    let [second, rest @ ..] = after else {
        draft.spoil();
        return Ok(after);
    };
    if *second == brace {
        draft.write(&[brace])?;
        return Ok(rest);
    }
    draft.spoil();
    if brace == b'{' {
        return Ok(&after[after.len()..]);
    }
    Ok(after)
}

/// Writes the plain bytes that a format begins with, or what its first brace stands for, and returns what is after
/// that.
fn write_piece<'f>(format: &'f [u8], draft: &mut Draft) -> Result<&'f [u8], AllocError>
    requires some { 0 < length format.now }
    requires no_field { field_of format.now ≡ None }
    ensures literal { IfOk result (λ rest. literal draft.old (pieces format.now) ≡ literal draft.new (pieces rest.now)) }
    ensures shorter { IfOk result (λ rest. length rest.now < length format.now) }
{
    let first = format[0];
    if is_brace(first) {
        return Ok(write_brace(first, &format[1..], draft)?);
    }
    let len = plain_len(format);
    draft.write(&format[..len])?;
    Ok(&format[len..])
}

/// Writes a format up to its first field, and returns the rest.
pub fn write_literal<'f>(format: &'f [u8], draft: &mut Draft) -> Result<&'f [u8], AllocError>
    ensures literal { IfOk result (λ rest. literal draft.old (pieces format.now) ≡ (draft.new, pieces rest.now)) }
    ensures field { IfOk result (λ rest. field_of rest.now ≡ None → rest.now ≡ []) }
    ensures within { IfOk result (λ rest. length rest.now ≤ length format.now) }
{
    let mut rest = format;
    while !rest.is_empty() {
        match field_of(rest) {
            Some(_) => return Ok(rest),
            None => rest = write_piece(rest, draft)?,
        }
    }
    Ok(rest)
}
