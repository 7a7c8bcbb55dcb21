//! Integer literals, by the Starlark specification, "Lexical elements": "Literals".

ghost use Rattle.std.specs.Prelude.{◌≡◌, ◌≤◌, ◌<◌, ◌+◌, ◌*◌, ◌++◌, ◌∷◌, [], ℕ, List, Some, decimal, length, pos, option_map, SomeIff};
ghost use Rattle.std.specs.Char.{digit_value};
ghost use Rattle.std.specs.Str.Parse.{digits_value};
ghost use Rattle.bq_source.specs.Number as spec;
ghost use Rattle.bq_source.specs.Number.{IsInt};

use crate::lexis::is_letter;

/// The largest integer.
const MAX_INT: u64 = 9_223_372_036_854_775_807;

/// Returns whether a number begins here: with a digit, or with a dot before a digit.
pub fn begins_number(text: &[u8]) -> bool
    ensures { result ≡ spec.begins_number text.now }
{
    match text {
        [b'.', after, ..] => after.is_ascii_digit(),
        [first, ..] => first.is_ascii_digit(),
        [] => false,
    }
}

fn is_number_byte(b: u8) -> bool
    ensures { result ≡ spec.is_number_byte b }
{
    is_letter(b) || b.is_ascii_digit() || b == b'.'
}

/// Returns how many bytes a number takes: all that look like a part of one, so that what is no valid number is one fault.
pub fn number_len(text: &[u8]) -> usize
    ensures run { result ≡ spec.number_len text.now }
    ensures within { result ≤ length text.now }
{
    let mut n = 0;
    while n < text.len() && is_number_byte(text[n]) {
        n += 1;
    }
    n
}

/// Returns the value with one more digit, where it is a digit of the base and the value is not too large.
fn with_digit(base: u32, value: u64, digit: u8) -> Option<u64>
    requires low { 2 ≤ base }
    requires high { base ≤ 16 }
    ensures { SomeIff result ((digit_value digit < base) × (value * base + digit_value digit ≤ spec.max_int)) (value * base + digit_value digit) }
{
    let digit = (digit as char).to_digit(base)?;
    let value = value.checked_mul(base as u64)?.checked_add(digit as u64)?;
    if value <= MAX_INT { Some(value) } else { None }
}

/// Returns what digits of a base stand for.
#[tactic(auto, unfolding(crate::specs::Number::numeral_value))]
fn numeral_value(base: u32, digits: &[u8]) -> Option<i64>
    requires low { 2 ≤ base }
    requires high { base ≤ 16 }
    ensures { result ≡ option_map pos (spec.numeral_value base digits.now) }
{
    if digits.is_empty() {
        return None;
    }
    let mut value = 0;
    for digit in digits {
        value = with_digit(base, value, *digit)?;
    }
    Some(value as i64)
}

/// Returns what comes after a leading 0: nothing, or the base and its digits.
fn after_zero(text: &[u8]) -> Option<i64>
    ensures { result ≡ option_map pos (spec.after_zero text.now) }
{
    match text {
        [] => Some(0),
        [b'x' | b'X', digits @ ..] => numeral_value(16, digits),
        [b'o' | b'O', digits @ ..] => numeral_value(8, digits),
        _ => None,
    }
}

/// Returns the value of an integer literal, or `None` where the spelling is not a valid one.
#[tactic(auto, unfolding(crate::specs::Number::int_value, crate::specs::Number::numeral_value))]
pub fn int_value(spelling: &[u8]) -> Option<i64>
    ensures { result ≡ option_map pos (spec.int_value spelling.now) }
{
    match spelling {
        [b'0', after @ ..] => after_zero(after),
        _ => numeral_value(10, spelling),
    }
}

// What the values of numbers are, in words of the text alone. These functions do nothing: their contracts are the laws.

/// A spelling has a value exactly where it is an integer, and the value is the one that it stands for.
pub fn values_are_those_of_the_digits()
    ensures found { (spelling : List ℕ) (n : ℕ) → spec.int_value spelling ≡ Some n → IsInt spelling n × (n ≤ spec.max_int) }
    ensures complete { (spelling : List ℕ) (n : ℕ) → IsInt spelling n → n ≤ spec.max_int → spec.int_value spelling ≡ Some n }
{}

/// What digits stand for: one more digit counts itself, and makes the others count the base times as much.
pub fn each_digit_has_its_place()
    ensures { (base c : ℕ) (digits : List ℕ) → digits_value base (digits ++ c ∷ []) ≡ base * digits_value base digits + digit_value c }
{}

/// The decimal text of a number reads back.
pub fn decimal_texts_read_back()
    ensures { (n : ℕ) → n ≤ spec.max_int → spec.int_value (decimal n) ≡ Some n }
{}
