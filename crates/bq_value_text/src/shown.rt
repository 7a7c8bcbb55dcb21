//! `str` and `repr` (Starlark, "str", "repr").

ghost use Rattle.std.specs.Prelude.{◌≡◌, option_copied};
ghost use Rattle.bq_base.specs.Gives.{Gives};
ghost use Rattle.bq_value.specs.declared.error.EvalErr.TheVariants.{Bad};
ghost use Rattle.bq_value.specs.Cells.{StoreView};
ghost use Rattle.bq_value.specs.Datum.{int};
ghost use Rattle.bq_value.specs.Looked.{max_levels};
ghost use Rattle.bq_value_text.specs.Shown.{shown_at, repr_shown, text_shown, string_in, list_shown, dict_shown, contents_shown, tuple_end, repr_of, text_of};

use crate::leaf::write_leaf;
use crate::page::Page;
use bq_base::{Bytes, EvalFault};
use bq_value::{Body, Content, Dict, EvalErr, MAX_LEVELS, Node, Store, Value};
use itoa::Buffer;
use std::alloc::Global;

/// What is written before and after items.
#[derive(Clone, Copy)]
struct Brackets<'a> {
    open: &'a [u8],
    close: &'a [u8],
}

/// Returns the `repr` of a value, and how many of the steps are left.
pub fn repr(
    alloc: Global,
    store: &Store,
    steps: u64,
    value: &Value,
) -> Result<(Bytes, u64), EvalErr>
    ensures { Gives (λ answer. answer) Bad result (repr_of store.now steps value.now) }
{
    let mut page = Page::new(alloc);
    let left = write_repr(store, steps, value, &mut page)?;
    Ok((page.finish(alloc)?, left))
}

/// Returns the text of an integer, for which no page is needed, and how many of the steps are left.
#[tactic(auto, using(crate::proofs::Plain::text_of_int, crate::proofs::Plain::no_text_of_int))]
fn int_text(alloc: Global, steps: u64, n: i64) -> Result<(Bytes, u64), EvalErr>
    ensures { (s : StoreView) → Gives (λ answer. answer) Bad result (text_of s steps (int n)) }
{
    if steps == 0 {
        return Err(EvalErr::Bad(EvalFault::StepLimit));
    }
    let mut buffer = Buffer::new();
    let digits = Bytes::from_slice(alloc, buffer.format(n).as_bytes())?;
    Ok((digits, steps - 1))
}

/// Returns the `str` of a value, and how many of the steps are left.
pub fn text(
    alloc: Global,
    store: &Store,
    steps: u64,
    value: &Value,
) -> Result<(Bytes, u64), EvalErr>
    ensures { Gives (λ answer. answer) Bad result (text_of store.now steps value.now) }
{
    if let Node::Int(n) = &value.node {
        return int_text(alloc, steps, *n);
    }
    let mut page = Page::new(alloc);
    let left = write_text(store, steps, value, &mut page)?;
    Ok((page.finish(alloc)?, left))
}

/// Writes the `repr` of a value, and returns how many of the steps are left.
#[tactic(auto, unfolding(crate::specs::Shown::repr_shown))]
pub fn write_repr(store: &Store, steps: u64, value: &Value, page: &mut Page) -> Result<u64, EvalErr>
    ensures { Gives (λ left. (page.new, left)) Bad result (repr_shown store.now page.old steps value.now) }
{
    show(store, MAX_LEVELS, steps, value, page)
}

/// Writes the `str` of a value, and returns how many of the steps are left. A string is written as it is.
pub fn write_text(store: &Store, steps: u64, value: &Value, page: &mut Page) -> Result<u64, EvalErr>
    ensures { Gives (λ left. (page.new, left)) Bad result (text_shown store.now page.old steps value.now) }
{
    match string_in(value) {
        None => write_repr(store, steps, value, page),
        Some(bytes) => {
            if steps == 0 {
                return Err(EvalErr::Bad(EvalFault::StepLimit));
            }
            page.write(bytes.as_slice())?;
            Ok(steps - 1)
        }
    }
}

/// Returns the bytes of a string.
fn string_in(value: &Value) -> Option<&Bytes>
    ensures { option_copied result ≡ string_in value.now }
{
    match &value.node {
        Node::Text(bytes) => Some(bytes),
        Node::NoneValue | Node::Bool(_) | Node::Int(_) | Node::Tuple(_) | Node::Range(_) => None,
        Node::Cell(_) | Node::Function(_) | Node::BuiltIn(_) | Node::SchemaRule(_, _) => None,
        Node::Rule | Node::Attr(_) | Node::Attribute(_) => None,
    }
}

/// Visits a value, of which `levels` levels may be written. Returns how many of the steps are left.
#[cycle(show)]
#[tactic(auto, using(bq_value_datum::specs::Datum::list_of_data_of))]
fn show(
    store: &Store,
    levels: u32,
    steps: u64,
    value: &Value,
    page: &mut Page,
) -> Result<u64, EvalErr>
    ensures { Gives (λ left. (page.new, left)) Bad result (shown_at levels store.now page.old steps value.now) }
{
    if steps == 0 {
        return Err(EvalErr::Bad(EvalFault::StepLimit));
    }
    let steps = steps - 1;
    if levels == 0 {
        return Err(EvalErr::Bad(EvalFault::TooDeep));
    }
    let below = levels - 1;
    match &value.node {
        Node::Tuple(items) => {
            let round = Brackets {
                open: b"(",
                close: tuple_end(items),
            };
            show_items(store, below, steps, round, items, page)
        }
        Node::Cell(cell) => match store.content(*cell) {
            None => Ok(steps),
            Some(content) => show_content(store, below, steps, content, page),
        },
        _ => {
            write_leaf(value, page)?;
            Ok(steps)
        }
    }
}

#[cycle(show)]
fn show_content(
    store: &Store,
    levels: u32,
    steps: u64,
    content: &Content,
    page: &mut Page,
) -> Result<u64, EvalErr>
    ensures { Gives (λ left. (page.new, left)) Bad result (contents_shown (shown_at levels store.now) page.old steps content.now) }
{
    match content.body() {
        Body::List(items) => {
            let square = Brackets {
                open: b"[",
                close: b"]",
            };
            show_items(store, levels, steps, square, items, page)
        }
        Body::Dict(pairs) => show_pairs(store, levels, steps, pairs, page),
        Body::Rule(_) => {
            page.write(b"<rule>")?;
            Ok(steps)
        }
    }
}

#[cycle(show)]
fn show_items(
    store: &Store,
    levels: u32,
    steps: u64,
    brackets: Brackets<'_>,
    items: &[Value],
    page: &mut Page,
) -> Result<u64, EvalErr>
    ensures { Gives (λ left. (page.new, left)) Bad result (list_shown (shown_at levels store.now) brackets.entry.open.now brackets.entry.close.now page.old steps items.now) }
{
    page.write(brackets.open)?;
    let mut left = steps;
    let mut separator: &[u8] = b"";
    for item in items {
        page.write(separator)?;
        left = show(store, levels, left, item, page)?;
        separator = b", ";
    }
    page.write(brackets.close)?;
    Ok(left)
}

#[cycle(show)]
fn show_pairs(
    store: &Store,
    levels: u32,
    steps: u64,
    pairs: &Dict,
    page: &mut Page,
) -> Result<u64, EvalErr>
    ensures { Gives (λ left. (page.new, left)) Bad result (dict_shown (shown_at levels store.now) page.old steps pairs.now) }
{
    page.write(b"{")?;
    let mut left = steps;
    let mut separator: &[u8] = b"";
    for i in 0..pairs.len() {
        let (key, value) = pairs.pair(i);
        page.write(separator)?;
        left = show(store, levels, left, key.value(), page)?;
        page.write(b": ")?;
        left = show(store, levels, left, value, page)?;
        separator = b", ";
    }
    page.write(b"}")?;
    Ok(left)
}

/// Returns what ends a tuple: one of a single item has a comma.
fn tuple_end(items: &[Value]) -> &'static [u8]
    ensures { result.now ≡ tuple_end items.now }
{
    if items.len() == 1 { b",)" } else { b")" }
}
