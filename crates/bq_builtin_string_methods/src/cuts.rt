//! The methods that cut a string into parts (Starlark, "string·partition", "string·rpartition", "string·split",
//! "string·rsplit", "string·splitlines").

ghost use Rattle.std.specs.Prelude.{◌≡◌, Some, None, MatchOption, IfOk, map};
ghost use Rattle.bq_base.specs.Gives.{Gives};
ghost use Rattle.bq_value.specs.Datum.{string};
ghost use Rattle.bq_value.specs.declared.error.EvalErr.TheVariants.{Bad};
ghost use Rattle.bq_builtin_machine.specs.Action.{Does};
ghost use Rattle.bq_builtin_machine.specs.Cells.{new_list};
ghost use Rattle.bq_builtin_string_methods.specs.Cuts.{three, three_parts, cut_once, partition, split_at, words_of, split_by, split, splitlines};

use crate::argument::{most_in, separator_in, text_in, truth_in};
use bq_base::{Bytes, EvalFault};
use bq_builtin_machine::Machine;
use bq_builtin_strings::{lines, rwords, words};
use bq_value::{EvalErr, Value};
use std::alloc::{AllocError, Global};

/// The side of a string that cutting begins at.
#[derive(Clone, Copy)]
pub enum Side {
    Left,
    Right,
}

/// Makes the tuple of three strings.
fn three(alloc: Global, first: &[u8], second: &[u8], third: &[u8]) -> Result<Value, AllocError>
    ensures { IfOk result (λ v. v ≡ three first.now second.now third.now) }
{
    let mut items = Vec::with_capacity(alloc, 3)?;
    items.push(Value::string(Bytes::from_slice(alloc, first)?))?;
    items.push(Value::string(Bytes::from_slice(alloc, second)?))?;
    items.push(Value::string(Bytes::from_slice(alloc, third)?))?;
    Value::tuple(alloc, items)
}

/// Returns what is before the separator, and what is after it: the first separator or the last.
fn cut_once<'t>(side: Side, separator: &[u8], text: &'t [u8]) -> Option<(&'t [u8], &'t [u8])>
    ensures { MatchOption result (cut_once side separator.now text.now ≡ None) (λ p. cut_once side separator.now text.now ≡ Some (p.0.now, p.1.now)) }
{
    match side {
        Side::Left => bq_builtin_strings::partition(text, separator),
        Side::Right => bq_builtin_strings::rpartition(text, separator),
    }
}

/// Returns `s.partition(sep)`, and from the right `s.rpartition(sep)`.
#[tactic(auto, unfolding(crate::specs::Cuts::partition))]
pub fn partition(alloc: Global, side: Side, text: &[u8], values: &[Value]) -> Result<Value, EvalErr>
    ensures { Gives (λ v. v) Bad result (partition side text.now values.now) }
{
    let separator = text_in(values, 0)?.as_slice();
    if separator.is_empty() {
        return Err(EvalErr::Bad(EvalFault::BadValue));
    }
    Ok(three_parts(alloc, side, separator, text)?)
}

/// Makes the tuple of what is before the separator, the separator, and what is after it. If there is no separator, the
/// text is at the side where cutting begins.
fn three_parts(
    alloc: Global,
    side: Side,
    separator: &[u8],
    text: &[u8],
) -> Result<Value, AllocError>
    ensures { IfOk result (λ v. v ≡ three_parts side separator.now text.now (cut_once side separator.now text.now)) }
{
    if let Some((before, after)) = cut_once(side, separator, text) {
        return three(alloc, before, separator, after);
    }
    match side {
        Side::Left => three(alloc, text, b"", b""),
        Side::Right => three(alloc, b"", b"", text),
    }
}

fn split_at(
    alloc: Global,
    side: Side,
    separator: &[u8],
    most: usize,
    text: &[u8],
) -> Result<Vec<Bytes>, AllocError>
    ensures { IfOk result (λ parts. parts.items ≡ split_at side separator.now most text.now) }
{
    match side {
        Side::Left => bq_builtin_strings::split(alloc, text, separator, most),
        Side::Right => bq_builtin_strings::rsplit(alloc, text, separator, most),
    }
}

fn words_of(alloc: Global, side: Side, most: usize, text: &[u8]) -> Result<Vec<Bytes>, AllocError>
    ensures { IfOk result (λ parts. parts.items ≡ words_of side most text.now) }
{
    match side {
        Side::Left => words(alloc, text, most),
        Side::Right => rwords(alloc, text, most),
    }
}

/// Returns `s.split(sep, maxsplit)`, and from the right `s.rsplit(sep, maxsplit)`.
#[tactic(auto, unfolding(crate::specs::Cuts::split))]
pub fn split(
    alloc: Global,
    side: Side,
    text: &[u8],
    values: &[Value],
) -> Result<Vec<Bytes>, EvalErr>
    ensures { Gives (λ parts. parts.items) Bad result (split side text.now values.now) }
{
    let separator = separator_in(values, 0)?;
    let most = most_in(text, values, 1)?;
    match separator {
        None => Ok(words_of(alloc, side, most, text)?),
        Some(separator) => {
            if separator.is_empty() {
                return Err(EvalErr::Bad(EvalFault::BadValue));
            }
            Ok(split_at(alloc, side, separator.as_slice(), most, text)?)
        }
    }
}

/// Returns `s.splitlines(keepends)`.
#[tactic(auto, unfolding(crate::specs::Cuts::splitlines))]
pub fn splitlines(alloc: Global, text: &[u8], values: &[Value]) -> Result<Vec<Bytes>, EvalErr>
    ensures { Gives (λ parts. parts.items) Bad result (splitlines text.now values.now) }
{
    let keep = truth_in(values, 0)?;
    Ok(lines(alloc, text, keep)?)
}

fn values_of(alloc: Global, strings: &[Bytes]) -> Result<Vec<Value>, AllocError>
    ensures { IfOk result (λ values. values.items ≡ map string strings.now) }
{
    let mut values = Vec::with_capacity(alloc, strings.len())?;
    for text in strings {
        values.push(Value::string(text.share()?))?;
    }
    Ok(values)
}

/// Makes a list of these strings.
pub fn new_strings(
    alloc: Global,
    machine: &mut Machine,
    strings: Vec<Bytes>,
) -> Result<Value, EvalErr>
    ensures { Does (λ v. v) result machine.new (new_list (map string strings.items) machine.old) }
{
    let values = values_of(alloc, &strings)?;
    machine.new_list(values)
}
