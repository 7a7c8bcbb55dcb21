//! `int`, `len` and `range` (Starlark, "int", "len", "range").

ghost use Rattle.std.specs.Prelude.{◌≡◌, true, Some, Ok, pos, option_copied};
ghost use Rattle.std.specs.Str.{all_ascii_digits};
ghost use Rattle.std.specs.Str.Parse.{without_leading_sign, signed_digits_value};
ghost use Rattle.bq_base.specs.Gives.{Gives};
ghost use Rattle.bq_builtin_strings.specs.Integer.{fitted, Fitted};
ghost use Rattle.bq_value.specs.declared.error.EvalErr.TheVariants.{Bad};
ghost use Rattle.bq_builtin.specs.Integers.{is_numeral, read_integer, integer_from, int, content_length, length_in, len, step_or_one, range_by, range_from, range};

use crate::arguments::{by_place, integer, one_to_three, only_argument};
use bq_base::EvalFault;
use bq_builtin_machine::{Args, Machine};
use bq_value::{Body, Content, EvalErr, Node, Range, Store, Value};
use std::str;

/// The greatest integer.
const MAX: u64 = 9_223_372_036_854_775_807;

/// Returns whether there are digits, and nothing else.
fn is_numeral(digits: &[u8]) -> bool
    ensures { result ≡ is_numeral digits.now }
{
    if digits.is_empty() {
        return false;
    }
    for digit in digits {
        if !digit.is_ascii_digit() {
            return false;
        }
    }
    true
}

fn without_sign(text: &[u8]) -> &[u8]
    ensures { result.now ≡ without_leading_sign text.now }
{
    match text {
        [b'-', digits @ ..] => digits,
        [b'+', digits @ ..] => digits,
        _ => text,
    }
}

/// Returns the integer of digits after a sign, or without one, if it fits 64 bits.
fn parsed(text: &[u8]) -> Option<i64>
    requires { is_numeral (without_leading_sign text.now) ≡ true }
    ensures { Fitted result (signed_digits_value 10 text.now) }
{
    let Ok(text) = str::from_utf8(text) else {
        return None;
    };
    text.parse::<i64>().ok()
}

/// Returns the integer that a text is.
#[tactic(auto, unfolding(crate::specs::Integers::read_integer))]
fn read_integer(text: &[u8]) -> Result<i64, EvalFault>
    ensures { result ≡ read_integer text.now }
{
    if !is_numeral(without_sign(text)) {
        return Err(EvalFault::BadValue);
    }
    parsed(text).ok_or(EvalFault::Overflow)
}

#[tactic(auto, unfolding(crate::specs::Integers::integer_from))]
fn integer_from(value: &Value) -> Result<i64, EvalFault>
    ensures { result ≡ integer_from value.now }
{
    match &value.node {
        Node::Int(n) => Ok(*n),
        Node::Bool(false) => Ok(0),
        Node::Bool(true) => Ok(1),
        Node::Text(text) => read_integer(text.as_slice()),
        _ => Err(EvalFault::WrongType),
    }
}

/// Returns `int(x)`: an integer itself, a bool as 0 or 1, and what a string reads as.
#[tactic(auto, unfolding(crate::specs::Integers::int))]
pub(crate) fn int(args: &Args) -> Result<Value, EvalErr>
    ensures { Gives (λ v. v) Bad result (int args.now) }
{
    let value = only_argument(args)?;
    Ok(Value::int(integer_from(value)?))
}

fn content_length(content: &Content) -> Result<usize, EvalFault>
    ensures { result ≡ content_length (Some content.now) }
{
    match content.body() {
        Body::List(values) => Ok(values.len()),
        Body::Dict(pairs) => Ok(pairs.len()),
        Body::Rule(_) => Err(EvalFault::WrongType),
    }
}

/// Returns how many bytes or elements there are (F40).
#[tactic(auto, using(bq_value_datum::specs::Datum::list_of_data_of), unfolding(crate::specs::Integers::length_in))]
fn length_in(store: &Store, value: &Value) -> Result<u64, EvalFault>
    ensures { result ≡ length_in store.now value.now }
{
    match &value.node {
        Node::Text(bytes) => Ok(bytes.len() as u64),
        Node::Tuple(items) => Ok(items.len() as u64),
        Node::Range(range) => Ok(range.count()),
        Node::Cell(cell) => match store.content(*cell) {
            Some(content) => Ok(content_length(content)? as u64),
            None => Err(EvalFault::WrongType),
        },
        _ => Err(EvalFault::WrongType),
    }
}

/// Returns a count as an integer, if it fits 64 bits (F41).
fn from_count(count: u64) -> Result<i64, EvalFault>
    ensures { result ≡ fitted (pos count) }
{
    if MAX < count {
        return Err(EvalFault::Overflow);
    }
    Ok(count as i64)
}

/// Returns `len(x)`: how many bytes a string has, and how many elements another value.
#[tactic(auto, unfolding(crate::specs::Integers::len))]
pub(crate) fn len(machine: &Machine, args: &Args) -> Result<Value, EvalErr>
    ensures { Gives (λ v. v) Bad result (len machine.now.store args.now) }
{
    let value = only_argument(args)?;
    let count = length_in(machine.store(), value)?;
    Ok(Value::int(from_count(count)?))
}

fn step_or_one(value: Option<&Value>) -> Result<i64, EvalErr>
    ensures { Gives (λ i. i) Bad result (step_or_one (option_copied value.entry)) }
{
    match value {
        None => Ok(1),
        Some(value) => integer(value),
    }
}

/// Makes the range of these bounds; F57 for a step of 0.
#[tactic(auto, unfolding(crate::specs::Integers::range_by))]
fn range_by(start: i64, stop: i64, step: i64) -> Result<Value, EvalErr>
    ensures { Gives (λ v. v) Bad result (range_by start stop step) }
{
    if step == 0 {
        return Err(EvalErr::Bad(EvalFault::BadValue));
    }
    Ok(Value::range(Range { start, stop, step }))
}

#[tactic(auto, unfolding(crate::specs::Integers::range_from))]
fn range_from(
    first: &Value,
    second: Option<&Value>,
    third: Option<&Value>,
) -> Result<Value, EvalErr>
    ensures { Gives (λ v. v) Bad result (range_from (first.now, (option_copied second.entry, option_copied third.entry))) }
{
    match second {
        None => range_by(0, integer(first)?, 1),
        Some(second) => {
            let start = integer(first)?;
            let stop = integer(second)?;
            let step = step_or_one(third)?;
            range_by(start, stop, step)
        }
    }
}

/// Returns `range(stop)` or `range(start, stop, step)`.
#[tactic(auto, unfolding(crate::specs::Integers::range))]
pub(crate) fn range(args: &Args) -> Result<Value, EvalErr>
    ensures { Gives (λ v. v) Bad result (range args.now) }
{
    let (first, second, third) = one_to_three(by_place(args)?)?;
    range_from(first, second, third)
}
