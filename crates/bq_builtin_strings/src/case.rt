//! The classes that the bytes of a text are of, its upper and lower case, and its bytes one by one.

ghost use Rattle.std.specs.Prelude.{◌≡◌, map, IfOk};
ghost use Rattle.std.specs.List.{list_any};
ghost use Rattle.std.specs.Char.{to_ascii_lowercase, to_ascii_uppercase};
ghost use Rattle.bq_builtin_strings.specs.Class.{has};
ghost use Rattle.bq_builtin_strings.specs.Case.{all_are, is_lower, is_upper, elems};

use crate::class::ByteClass;
use bq_base::Bytes;
use std::alloc::{AllocError, Global};

/// Returns whether the text isn't empty and all its bytes are of `class`.
pub fn all_are(text: &[u8], class: ByteClass) -> bool
    ensures { result ≡ all_are class text.now }
{
    for byte in text {
        if !class.has(*byte) {
            return false;
        }
    }
    !text.is_empty()
}

/// Returns whether some byte of the text is of the class.
fn any_is(text: &[u8], class: ByteClass) -> bool
    ensures { result ≡ list_any (has class) text.now }
{
    for byte in text {
        if class.has(*byte) {
            return true;
        }
    }
    false
}

/// Returns whether the text has a lower-case letter and no upper-case one.
pub fn is_lower(text: &[u8]) -> bool
    ensures { result ≡ is_lower text.now }
{
    any_is(text, ByteClass::Lowercase) && !any_is(text, ByteClass::Uppercase)
}

/// Returns whether the text has an upper-case letter and no lower-case one.
pub fn is_upper(text: &[u8]) -> bool
    ensures { result ≡ is_upper text.now }
{
    any_is(text, ByteClass::Uppercase) && !any_is(text, ByteClass::Lowercase)
}

/// Returns the text with each letter in lower case.
pub fn lower(alloc: Global, text: &[u8]) -> Result<Vec<u8>, AllocError>
    ensures { IfOk result (λ made. made.items ≡ map to_ascii_lowercase text.now) }
{
    let mut made = Vec::with_capacity(alloc, text.len())?;
    for byte in text {
        made.push(byte.to_ascii_lowercase())?;
    }
    Ok(made)
}

/// Returns the text with each letter in upper case.
pub fn upper(alloc: Global, text: &[u8]) -> Result<Vec<u8>, AllocError>
    ensures { IfOk result (λ made. made.items ≡ map to_ascii_uppercase text.now) }
{
    let mut made = Vec::with_capacity(alloc, text.len())?;
    for byte in text {
        made.push(byte.to_ascii_uppercase())?;
    }
    Ok(made)
}

/// Returns the bytes of the text, each as a text of its own.
pub fn elems(alloc: Global, text: &[u8]) -> Result<Vec<Bytes>, AllocError>
    ensures { IfOk result (λ parts. parts.items ≡ elems text.now) }
{
    let mut parts = Vec::with_capacity(alloc, text.len())?;
    for byte in text {
        parts.push(Bytes::from_slice(alloc, &[*byte])?)?;
    }
    Ok(parts)
}
