//! The methods that make longer strings (Starlark, "string·replace", "string·join"): F54 before any memory is asked for.

ghost use Rattle.std.specs.Prelude.{◌≡◌, ◌+◌, ◌*◌, ◌≤◌, ◌++◌, ◌∷◌, [], Some, Ok, length, slice_get};
ghost use Rattle.bq_base.specs.Gives.{Gives};
ghost use Rattle.bq_value.specs.declared.error.EvalErr.TheVariants.{Bad};
ghost use Rattle.bq_builtin_machine.specs.Action.{Does};
ghost use Rattle.bq_builtin_machine.specs.Answer.{and_then};
ghost use Rattle.bq_builtin_strings.specs.Length.{within};
ghost use Rattle.bq_builtin_strings.specs.Parts as parts;
ghost use Rattle.bq_builtin_strings.specs.Parts.{joined_on};
ghost use Rattle.bq_builtin_string_methods.specs.Affixes.{texts_of};
ghost use Rattle.bq_builtin_string_methods.specs.Argument.{text_in};
ghost use Rattle.bq_builtin_string_methods.specs.Longer.{fits, replace, join, joined, times, fit_replaced};

use crate::argument::{argument, most_in, text_in};
use bq_base::{Bytes, EvalFault};
use bq_builtin_machine::{Elements, Machine};
use bq_builtin_strings::{cuts, joined_len};
use bq_value::{EvalErr, Node, Value};
use std::alloc::Global;

/// Returns how often `old` is replaced in the text, at most `most` times.
#[tactic(auto, unfolding(crate::specs::Longer::times))]
fn times(text: &[u8], old: &[u8], most: usize) -> usize
    ensures { result ≡ times old.now most text.now }
{
    if old.is_empty() {
        return most.min(text.len() + 1);
    }
    cuts(text, old, most)
}

/// Fails with F54 if a text is too long in which a part of length `old` has been replaced `times` times by one of
/// length `new`.
fn fit_replaced(len: usize, times: usize, old: usize, new: usize) -> Result<(), EvalFault>
    requires { times * old ≤ len }
    ensures { result ≡ fit_replaced len times old new }
{
    match times.checked_mul(new) {
        None => Err(EvalFault::TooLong),
        Some(more) => {
            joined_len(len - times * old, more)?;
            Ok(())
        }
    }
}

/// Returns `s.replace(old, new, count)`.
#[tactic(auto, unfolding(crate::specs::Longer::replace))]
pub fn replace(alloc: Global, text: &[u8], values: &[Value]) -> Result<Bytes, EvalErr>
    ensures { Gives (λ made. made) Bad result (replace text.now values.now) }
{
    let old = text_in(values, 0)?.as_slice();
    let new = text_in(values, 1)?.as_slice();
    let most = most_in(text, values, 2)?;
    fit_replaced(text.len(), times(text, old, most), old.len(), new.len())?;
    Ok(Bytes::from_vec(
        alloc,
        bq_builtin_strings::replace(alloc, text, old, new, most)?,
    )?)
}

/// Returns the length with another separator and part.
#[tactic(auto, using(std::proofs::lemmas::Bool::Decides::nat_tests))]
fn with_part(len: usize, separator: usize, part: usize) -> Result<usize, EvalFault>
    ensures { result ≡ within (len + separator + part) }
{
    joined_len(joined_len(len, separator)?, part)
}

/// Fails with F54 if a first part would be too long with the others, each after a separator.
fn fit_parts(separator: &[u8], first: usize, others: &[Bytes]) -> Result<(), EvalFault>
    ensures { result ≡ fits (first + length (joined_on separator.now others.now)) }
{
    let mut len = first;
    for part in others {
        len = with_part(len, separator.len(), part.len())?;
    }
    joined_len(len, 0)?;
    Ok(())
}

/// Fails with F54 if the strings would be too long, with the separator between each two.
fn fit_joined(separator: &[u8], strings: &[Bytes]) -> Result<(), EvalFault>
    ensures { result ≡ fits (length (parts.join separator.now strings.now)) }
{
    if strings.is_empty() {
        return Ok(());
    }
    fit_parts(separator, strings[0].len(), &strings[1..])
}

/// Returns these strings, with the text between each two.
fn join(alloc: Global, text: &[u8], strings: &[Bytes]) -> Result<Bytes, EvalErr>
    ensures { Gives (λ made. made) Bad result (join text.now strings.now) }
{
    fit_joined(text, strings)?;
    Ok(Bytes::from_vec(alloc, bq_builtin_strings::join(alloc, text, strings)?)?)
}

/// Appends a string; F40 for another value.
fn push_text(strings: &mut Vec<Bytes>, value: &Value) -> Result<(), EvalErr>
    ensures { Gives (λ _. strings.new.items) Bad result (and_then (text_in (Some value.now)) (λ text. Ok (strings.old.items ++ text ∷ []))) }
{
    match &value.node {
        Node::Text(text) => {
            strings.push(text.share()?)?;
            Ok(())
        }
        _ => Err(EvalErr::Bad(EvalFault::WrongType)),
    }
}

/// Returns the strings that these elements are; F40 if one isn't a string.
fn texts_of(alloc: Global, elements: Elements) -> Result<Vec<Bytes>, EvalErr>
    ensures { Gives (λ strings. strings.items) Bad result (texts_of elements) }
{
    let mut elements = elements;
    let mut strings = Vec::new(alloc);
    'elements: while let Some(value) = elements.next() {
        push_text(&mut strings, &value)?;
    }
    Ok(strings)
}

/// Returns `text.join(x)`, of the strings of an iterable.
pub fn joined(
    alloc: Global,
    machine: &mut Machine,
    text: &[u8],
    values: &[Value],
) -> Result<Value, EvalErr>
    ensures { Does (λ v. v) result machine.new (joined text.now (slice_get values.now 0) machine.old) }
{
    let Some(value) = argument(values, 0) else {
        return Err(EvalErr::Bad(EvalFault::Args));
    };
    let elements = machine.elements(alloc, value)?;
    let strings = texts_of(alloc, elements)?;
    Ok(Value::string(join(alloc, text, &strings)?))
}
