//! The arguments of a method by their types: F40 for one of another type.

ghost use Rattle.std.specs.Prelude.{◌≡◌, ◌≤◌, length, option_copied, slice_get};
ghost use Rattle.bq_builtin_string_methods.specs.Argument.{Says, text_in, place_in, bytes_in, separator_in, most_in, truth_in, part_of, region};

use bq_base::{Bytes, EvalFault};
use bq_builtin_strings::{SPACES, span};
use bq_value::{Node, Value};

/// Returns the argument at this place, if there is one.
pub fn argument(values: &[Value], index: usize) -> Option<&Value>
    ensures { option_copied result ≡ slice_get values.now index }
{
    values.get(index)
}

/// Returns a string.
pub fn text_in(values: &[Value], index: usize) -> Result<&Bytes, EvalFault>
    ensures { Says (λ text. text.now) result (text_in (slice_get values.now index)) }
{
    match argument(values, index) {
        None => Err(EvalFault::Args),
        Some(value) => match &value.node {
            Node::Text(text) => Ok(text),
            _ => Err(EvalFault::WrongType),
        },
    }
}

/// Returns an integer, or `None` if the argument is left out or `None`.
fn place_in(values: &[Value], index: usize) -> Result<Option<i64>, EvalFault>
    ensures { result ≡ place_in (slice_get values.now index) }
{
    match argument(values, index) {
        None => Ok(None),
        Some(value) => match &value.node {
            Node::NoneValue => Ok(None),
            Node::Int(place) => Ok(Some(*place)),
            _ => Err(EvalFault::WrongType),
        },
    }
}

/// Returns the bytes of a string; those that count as space if the argument is left out or `None`.
pub fn bytes_in(values: &[Value], index: usize) -> Result<&[u8], EvalFault>
    ensures { Says (λ text. text.now) result (bytes_in (slice_get values.now index)) }
{
    match argument(values, index) {
        None => Ok(SPACES),
        Some(value) => match &value.node {
            Node::NoneValue => Ok(SPACES),
            Node::Text(text) => Ok(text.as_slice()),
            _ => Err(EvalFault::WrongType),
        },
    }
}

/// Returns a separator, or `None` if the argument is left out or `None`.
pub fn separator_in(values: &[Value], index: usize) -> Result<Option<&Bytes>, EvalFault>
    ensures { Says option_copied result (separator_in (slice_get values.now index)) }
{
    match argument(values, index) {
        None => Ok(None),
        Some(value) => match &value.node {
            Node::NoneValue => Ok(None),
            Node::Text(text) => Ok(Some(text)),
            _ => Err(EvalFault::WrongType),
        },
    }
}

/// Returns how often something is done at most in a text: if the argument is left out or negative, once more than it
/// has bytes.
pub fn most_in(text: &[u8], values: &[Value], index: usize) -> Result<usize, EvalFault>
    ensures { result ≡ most_in (length text.now) (slice_get values.now index) }
{
    match argument(values, index) {
        None => Ok(text.len() + 1),
        Some(value) => match &value.node {
            Node::Int(most) => {
                if *most < 0 {
                    Ok(text.len() + 1)
                } else {
                    Ok(*most as usize)
                }
            }
            _ => Err(EvalFault::WrongType),
        },
    }
}

/// Returns a truth value, which is false if the argument is left out.
pub fn truth_in(values: &[Value], index: usize) -> Result<bool, EvalFault>
    ensures { result ≡ truth_in (slice_get values.now index) }
{
    match argument(values, index) {
        None => Ok(false),
        Some(value) => match &value.node {
            Node::Bool(so) => Ok(*so),
            _ => Err(EvalFault::WrongType),
        },
    }
}

/// Returns the bytes from one place to another; none if that comes before it.
fn part_of(text: &[u8], from: usize, to: usize) -> &[u8]
    requires from { from ≤ length text.now }
    requires to { to ≤ length text.now }
    ensures { result.now ≡ part_of text.now from to }
{
    if from >= to {
        return &text[..0];
    }
    &text[from..to]
}

/// Returns the region of a text between the places of two arguments, and where it starts.
pub fn region<'t>(
    text: &'t [u8],
    values: &[Value],
    start: usize,
    end: usize,
) -> Result<(usize, &'t [u8]), EvalFault>
    ensures { Says (λ r. (r.0, r.1.now)) result (region text.now (slice_get values.now start) (slice_get values.now end)) }
{
    let first = place_in(values, start)?;
    let last = place_in(values, end)?;
    let (from, to) = span(text.len(), first, last);
    Ok((from, part_of(text, from, to)))
}
