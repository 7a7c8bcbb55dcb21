//! Strings.

ghost use Rattle.std.specs.Prelude.{◌≡◌, ◌++◌, ◌<◌, ◌≤◌, false, length, take, drop, slice_index, IfOk, OnOk};
ghost use Rattle.bq_package_values.specs.JsonString.{is_plain, escaped, json_string};

use crate::json_escape::push_escape;
use bstr::decode_utf8;
use std::alloc::AllocError;

/// Returns whether the byte is a character that stands for itself.
fn is_plain(byte: u8) -> bool
    ensures { result ≡ is_plain byte }
{
    matches!(byte, 0x20..=0x21 | 0x23..=0x5B | 0x5D..=0x7F)
}

/// Returns how many bytes at the front are plain.
fn plain_len(bytes: &[u8]) -> usize
    ensures within { result ≤ length bytes.now }
    ensures all { result < length bytes.now → is_plain (slice_index bytes.now result) ≡ false }
    ensures front { escaped bytes.now ≡ take result bytes.now ++ escaped (drop result bytes.now) }
{
    for (i, byte) in bytes.iter().enumerate() {
        if !is_plain(*byte) {
            return i;
        }
    }
    bytes.len()
}

/// Appends a character of several bytes, or the escape of a byte of what is no UTF-8, and returns how many bytes it took.
fn push_further(text: &mut Vec<u8>, bytes: &[u8]) -> Result<usize, AllocError>
    requires some { 0 < length bytes.now }
    requires further { 0x80 ≤ slice_index bytes.now 0 }
    ensures some { IfOk result (λ n. 0 < n) }
    ensures within { IfOk result (λ n. n ≤ length bytes.now) }
    ensures text { IfOk result (λ n. text.new.items ++ escaped (drop n bytes.now) ≡ text.old.items ++ escaped bytes.now) }
{
    match decode_utf8(bytes) {
        (Some(_), n) => {
            text.extend_from_slice(&bytes[..n])?;
            Ok(n)
        }
        (None, _) => {
            push_escape(text, 0xDC00 + bytes[0] as u16)?;
            Ok(1)
        }
    }
}

/// Appends the text of some bytes at the front, and returns how many.
fn push_front(text: &mut Vec<u8>, bytes: &[u8]) -> Result<usize, AllocError>
    requires { 0 < length bytes.now }
    ensures some { IfOk result (λ n. 0 < n) }
    ensures within { IfOk result (λ n. n ≤ length bytes.now) }
    ensures text { IfOk result (λ n. text.new.items ++ escaped (drop n bytes.now) ≡ text.old.items ++ escaped bytes.now) }
{
    let plain = plain_len(bytes);
    if 0 < plain {
        text.extend_from_slice(&bytes[..plain])?;
        return Ok(plain);
    }
    let first = bytes[0];
    if first < 0x80 {
        push_escape(text, first as u16)?;
        return Ok(1);
    }
    push_further(text, bytes)
}

/// Appends the text between the quotes.
fn push_escaped(text: &mut Vec<u8>, bytes: &[u8]) -> Result<(), AllocError>
    ensures { OnOk result (text.new.items ≡ text.old.items ++ escaped bytes.now) }
{
    let mut rest = bytes;
    while !rest.is_empty() {
        let n = push_front(text, rest)?;
        rest = &rest[n..];
    }
    Ok(())
}

/// Appends a string: `"`, the bytes as UTF-8 with their escapes, and `"`. A byte of what is no UTF-8 is written `\udcXX`.
pub fn push_string(text: &mut Vec<u8>, bytes: &[u8]) -> Result<(), AllocError>
    ensures { OnOk result (text.new.items ≡ text.old.items ++ json_string bytes.now) }
{
    text.push(b'"')?;
    push_escaped(text, bytes)?;
    text.push(b'"')?;
    Ok(())
}
