//! The item at an index or a key (Starlark, "Index expressions").

ghost use Rattle.std.specs.Prelude.{◌≡◌, Some};
ghost use Rattle.bq_base.specs.Gives.{Gives};
ghost use Rattle.bq_value.specs.declared.error.EvalErr.TheVariants.{Bad};
ghost use Rattle.bq_builtin_operators.specs.Subscript.{item_in, byte_in, integer_in, value_in, content_item, item_of};

use crate::operand::int_of;
use bq_base::{Bytes, EvalFault};
use bq_builtin_strings::{index, range_item};
use bq_value::{Body, Content, Dict, EvalErr, Node, Range, Store, Value, key_of};
use std::alloc::Global;

/// Returns the item of a container at an index or a key, and how many of the steps are left.
#[tactic(auto, using(bq_value_datum::specs::Datum::list_of_data_of))]
pub(crate) fn item_of(
    alloc: Global,
    store: &Store,
    steps: u64,
    container: &Value,
    at: &Value,
) -> Result<(Value, u64), EvalErr>
    ensures { Gives (λ answer. answer) Bad result (item_of store.now steps container.now at.now) }
{
    match &container.node {
        Node::Text(text) => Ok((byte_in(alloc, text.as_slice(), at)?, steps)),
        Node::Tuple(values) => Ok((item_in(values, at)?, steps)),
        Node::Range(range) => Ok((integer_in(*range, at)?, steps)),
        Node::Cell(cell) => match store.content(*cell) {
            None => Err(EvalErr::Bad(EvalFault::WrongType)),
            Some(content) => content_item(steps, content, at),
        },
        _ => Err(EvalErr::Bad(EvalFault::WrongType)),
    }
}

/// Returns the item of what a cell holds.
fn content_item(steps: u64, content: &Content, at: &Value) -> Result<(Value, u64), EvalErr>
    ensures { Gives (λ answer. answer) Bad result (content_item steps (Some content.now) at.now) }
{
    match content.body() {
        Body::List(values) => Ok((item_in(values, at)?, steps)),
        Body::Dict(dict) => value_in(steps, dict, at),
        Body::Rule(_) => Err(EvalErr::Bad(EvalFault::WrongType)),
    }
}

/// Returns a value at an index.
#[tactic(auto, unfolding(crate::specs::Subscript::item_in))]
fn item_in(values: &[Value], at: &Value) -> Result<Value, EvalErr>
    ensures { Gives (λ value. value) Bad result (item_in values.now at.now) }
{
    let place = index(values.len(), int_of(at)?)?;
    Ok(values[place].share()?)
}

/// Returns the byte at an index, as a string.
#[tactic(auto, unfolding(crate::specs::Subscript::byte_in, crate::specs::Subscript::item_in))]
fn byte_in(alloc: Global, text: &[u8], at: &Value) -> Result<Value, EvalErr>
    ensures { Gives (λ value. value) Bad result (byte_in text.now at.now) }
{
    let place = index(text.len(), int_of(at)?)?;
    Ok(Value::string(Bytes::from_slice(alloc, &[text[place]])?))
}

/// Returns the element of a range at an index.
#[tactic(auto, unfolding(crate::specs::Subscript::integer_in))]
fn integer_in(range: Range, at: &Value) -> Result<Value, EvalFault>
    ensures { result ≡ integer_in range.start range.stop range.step at.now }
{
    Ok(Value::int(range_item(range, int_of(at)?)?))
}

/// Returns the value of a key, and how many of the steps are left.
#[tactic(auto, unfolding(crate::specs::Subscript::value_in))]
fn value_in(steps: u64, dict: &Dict, at: &Value) -> Result<(Value, u64), EvalErr>
    ensures { Gives (λ answer. answer) Bad result (value_in steps dict.now at.now) }
{
    let (key, left) = key_of(steps, at)?;
    match dict.get(&key) {
        None => Err(EvalErr::Bad(EvalFault::NoKey)),
        Some(value) => Ok((value.share()?, left)),
    }
}
