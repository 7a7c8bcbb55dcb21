//! The method `format` of strings (Starlark, "string·format").

ghost use Rattle.std.specs.Prelude.{◌≡◌, option_copied, Ok};
ghost use Rattle.bq_base.specs.Gives.{Gives};
ghost use Rattle.bq_value.specs.declared.error.EvalErr.TheVariants.{Bad};
ghost use Rattle.bq_builtin_format.specs.Method.{field_shown, formatted, unmixed};
ghost use Rattle.bq_builtin_format.specs.Percent.{text_by};

use crate::argument::{Numbering, argument, next_after};
use crate::draft::Draft;
use crate::named::Named;
use crate::piece::{field_of, write_literal};
use bq_base::Bytes;
use bq_value::{EvalErr, Store, Value};
use std::alloc::Global;

/// Writes the `str` of the value that a field names. A field that names none is malformed.
fn show_field(
    store: &Store,
    steps: u64,
    value: Option<&Value>,
    draft: &mut Draft,
) -> Result<u64, EvalErr>
    ensures { Gives (λ left. (draft.new, left)) Bad result (field_shown store.now draft.old steps (option_copied value.entry)) }
{
    match value {
        None => {
            draft.spoil();
            Ok(steps)
        }
        Some(value) => draft.show(store, steps, b's', value),
    }
}

/// Returns the text of a draft, with the steps that are left. Fields without text beside fields with a number are
/// malformed.
fn finish(
    alloc: Global,
    draft: Draft,
    numbering: Numbering,
    left: u64,
) -> Result<(Bytes, u64), EvalErr>
    ensures { Gives (λ answer. answer) Bad result (text_by (Ok (unmixed numbering draft, left))) }
{
    let mut draft = draft;
    if numbering.is_mixed() {
        draft.spoil();
    }
    Ok((draft.finish(alloc)?, left))
}

/// Fills a format with values, as the method `format` does. Returns the text and how many of the steps are left.
pub fn format(
    alloc: Global,
    store: &Store,
    steps: u64,
    text: &[u8],
    values: &[Value],
    named: &[(Bytes, Value)],
) -> Result<(Bytes, u64), EvalErr>
    ensures { Gives (λ answer. answer) Bad result (formatted store.now steps text.now values.now named.now) }
{
    let named = Named::of(alloc, named, text.len())?;
    fill(alloc, store, steps, text, values, &named)
}

/// Fills a format as `format` does.
#[tactic(auto, unfolding(crate::specs::Method::formatted))]
fn fill<'v>(
    alloc: Global,
    store: &Store,
    steps: u64,
    text: &[u8],
    values: &'v [Value],
    named: &Named<'v>,
) -> Result<(Bytes, u64), EvalErr>
    ensures { Gives (λ answer. answer) Bad result (formatted store.now steps text.now values.now named.now) }
{
    let mut draft = Draft::new(alloc);
    let mut left = steps;
    let mut next = values;
    let mut numbering = Numbering::none();
    let mut rest = write_literal(text, &mut draft)?;
    while let Some((name, after)) = field_of(rest) {
        left = show_field(store, left, argument(values, named, next, name), &mut draft)?;
        next = next_after(next, name);
        numbering = numbering.and(name);
        rest = write_literal(after, &mut draft)?;
    }
    finish(alloc, draft, numbering, left)
}
