//! The operator `%` with a string on its left (Starlark, "String interpolation").

ghost use Rattle.std.specs.Prelude.{◌≡◌, length};
ghost use Rattle.bq_base.specs.Gives.{Gives};
ghost use Rattle.bq_value.specs.declared.error.EvalErr.TheVariants.{Bad};
ghost use Rattle.bq_builtin_format.specs.Percent.{takes_value, next_shown, converted, values_after, ended, filled, text_filled, percent_of};

use crate::draft::Draft;
use bq_base::Bytes;
use bq_builtin_strings::partition;
use bq_value::{EvalErr, Node, Store, Value};
use std::alloc::Global;
use std::slice;

/// Returns whether the conversion of this name takes a value.
fn takes_value(kind: u8) -> bool
    ensures { result ≡ takes_value kind }
{
    kind == b's' || kind == b'r' || kind == b'd'
}

/// Writes the next value, if there is one.
fn show_next(
    store: &Store,
    steps: u64,
    kind: u8,
    values: &[Value],
    draft: &mut Draft,
) -> Result<u64, EvalErr>
    ensures { Gives (λ left. (draft.new, left)) Bad result (next_shown store.now draft.old steps kind values.now) }
{
    let [value, ..] = values else {
        draft.spoil();
        return Ok(steps);
    };
    draft.show(store, steps, kind, value)
}

/// Writes what the conversion that `after` begins with makes of its value.
fn convert(
    store: &Store,
    steps: u64,
    after: &[u8],
    values: &[Value],
    draft: &mut Draft,
) -> Result<u64, EvalErr>
    ensures { Gives (λ left. (draft.new, left)) Bad result (converted store.now draft.old steps after.now values.now) }
{
    let [kind, ..] = after else {
        draft.spoil();
        return Ok(steps);
    };
    if takes_value(*kind) {
        return show_next(store, steps, *kind, values, draft);
    }
    if *kind == b'%' {
        draft.write(b"%")?;
        return Ok(steps);
    }
    draft.spoil();
    Ok(steps)
}

/// Returns the values that are left after the conversion that the first byte of `after` names.
fn values_after<'v>(after: &[u8], values: &'v [Value]) -> &'v [Value]
    ensures { result.now ≡ values_after after.now values.now }
{
    let [kind, ..] = after else {
        return values;
    };
    if takes_value(*kind) {
        return &values[values.len().min(1)..];
    }
    values
}

/// Notes that it is malformed if values are left at the end.
fn end(draft: &mut Draft, values: &[Value])
    ensures { draft.new ≡ ended draft.old values.now }
{
    if !values.is_empty() {
        draft.spoil();
    }
}

/// Writes a format and the values that it takes.
fn write_filled(
    store: &Store,
    steps: u64,
    format: &[u8],
    values: &[Value],
    draft: &mut Draft,
) -> Result<u64, EvalErr>
    ensures { Gives (λ left. (draft.new, left)) Bad result (filled (length format.now) store.now draft.old steps values.now format.now) }
{
    let mut left = steps;
    let mut rest = format;
    let mut next = values;
    while let Some((before, after)) = partition(rest, b"%") {
        draft.write(before)?;
        left = convert(store, left, after, next, draft)?;
        next = values_after(after, next);
        rest = &after[after.len().min(1)..];
    }
    draft.write(rest)?;
    end(draft, next);
    Ok(left)
}

/// Returns the text of a format and the values that it takes.
fn fill(
    alloc: Global,
    store: &Store,
    steps: u64,
    format: &[u8],
    values: &[Value],
) -> Result<(Bytes, u64), EvalErr>
    ensures { Gives (λ answer. answer) Bad result (text_filled store.now steps format.now values.now) }
{
    let mut draft = Draft::new(alloc);
    let left = write_filled(store, steps, format, values, &mut draft)?;
    Ok((draft.finish(alloc)?, left))
}

/// Returns the text `format % right`, and how many of the steps are left. The right side is a tuple of the values, or
/// the one value.
#[tactic(auto, using(bq_value_datum::specs::Datum::list_of_data_of))]
pub fn percent(
    alloc: Global,
    store: &Store,
    steps: u64,
    format: &[u8],
    right: &Value,
) -> Result<(Bytes, u64), EvalErr>
    ensures { Gives (λ answer. answer) Bad result (percent_of store.now steps format.now right.now) }
{
    match &right.node {
        Node::Tuple(values) => fill(alloc, store, steps, format, values),
        _ => fill(alloc, store, steps, format, slice::from_ref(right)),
    }
}
