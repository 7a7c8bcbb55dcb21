//! Which value a field of a format names (Starlark, "string·format").

ghost use Rattle.std.specs.Prelude.{◌≡◌, ◌+◌, ◌*◌, ◌^◌, ◌<◌, true, option_copied, slice_get, SomeIff};
ghost use Rattle.std.specs.Char.{digit_value};
ghost use Rattle.std.specs.Str.Parse.{digits_value};
ghost use Rattle.bq_source.specs.Lexis.{is_digit};
ghost use Rattle.bq_builtin_format.specs.Argument.{is_number, is_name, argument, next_after, no_fields, numbering_after, is_mixed};

use crate::named::Named;
use bq_source::{is_letter, is_word};
use bq_value::Value;

/// Whether fields without text have come, and fields with a number.
#[derive(Clone, Copy)]
pub struct Numbering {
    pub is_automatic: bool,
    pub is_numbered: bool,
}

/// Returns whether the text consists of digits, one at least.
fn is_number(text: &[u8]) -> bool
    ensures { result ≡ is_number text.now }
{
    for byte in text {
        if !byte.is_ascii_digit() {
            return false;
        }
    }
    !text.is_empty()
}

/// Returns whether the text is a word that doesn't begin with a digit.
fn is_name(text: &[u8]) -> bool
    ensures { result ≡ is_name text.now }
{
    let [first, others @ ..] = text else {
        return false;
    };
    for byte in others {
        if !is_word(*byte) {
            return false;
        }
    }
    is_letter(*first)
}

/// Returns the number with one more digit, if it fits.
fn with_digit(number: usize, digit: u8) -> Option<usize>
    requires { is_digit digit ≡ true }
    ensures { SomeIff result (number * 10 + digit_value digit < 2 ^ 64) (number * 10 + digit_value digit) }
{
    number.checked_mul(10)?.checked_add((digit - b'0') as usize)
}

/// Returns the value of this number.
fn numbered_value<'v>(values: &'v [Value], digits: &[u8]) -> Option<&'v Value>
    requires { is_number digits.now ≡ true }
    ensures { option_copied result ≡ slice_get values.now (digits_value 10 digits.now) }
{
    // PROOF: a length is below 2^64
    let _ = values.len();
    let mut number = 0;
    for digit in digits {
        number = with_digit(number, *digit)?;
    }
    values.get(number)
}

/// Returns the value that a field of this text names, where `next` are the values from the next one on.
pub fn argument<'v>(
    values: &'v [Value],
    named: &Named<'v>,
    next: &'v [Value],
    text: &[u8],
) -> Option<&'v Value>
    ensures { option_copied result ≡ argument values.now named.now next.now text.now }
{
    if text.is_empty() {
        return next.first();
    }
    if is_number(text) {
        return numbered_value(values, text);
    }
    if is_name(text) {
        return named.value(text);
    }
    None
}

/// Returns the values from the next one on, after a field of this text.
pub fn next_after<'v>(next: &'v [Value], text: &[u8]) -> &'v [Value]
    ensures { result.now ≡ next_after next.now text.now }
{
    if text.is_empty() {
        return &next[next.len().min(1)..];
    }
    next
}

impl Numbering {
    /// Returns the state before any field.
    pub fn none() -> Numbering
        ensures { result ≡ no_fields }
    {
        Numbering {
            is_automatic: false,
            is_numbered: false,
        }
    }

    /// Returns the state after one more field, of this text.
    pub fn and(self, text: &[u8]) -> Numbering
        ensures { result ≡ numbering_after self text.now }
    {
        if text.is_empty() {
            return Numbering {
                is_automatic: true,
                is_numbered: self.is_numbered,
            };
        }
        if is_number(text) {
            return Numbering {
                is_automatic: self.is_automatic,
                is_numbered: true,
            };
        }
        self
    }

    /// Returns whether fields of both kinds have come, which is malformed.
    pub fn is_mixed(self) -> bool
        ensures { result ≡ is_mixed self }
    {
        self.is_automatic && self.is_numbered
    }
}
