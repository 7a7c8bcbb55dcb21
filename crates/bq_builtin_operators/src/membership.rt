//! Whether a value is in another (Starlark, "Membership tests").

ghost use Rattle.std.specs.Prelude.{◌≡◌, Some};
ghost use Rattle.bq_base.specs.Gives.{Gives};
ghost use Rattle.bq_value.specs.declared.error.EvalErr.TheVariants.{Bad};
ghost use Rattle.bq_builtin_operators.specs.Membership.{in_string, in_range, in_list, in_dict, in_content, contained};

use crate::walks::equal;
use bq_base::EvalFault;
use bq_builtin_strings::{find, range_has};
use bq_value::{Body, Content, Dict, EvalErr, Node, Range, Store, Value, key_of};

/// Returns whether a value is in a container, and how many of the steps are left: F40 if nothing can be in it, or no
/// such value.
#[tactic(auto, using(bq_value_datum::specs::Datum::list_of_data_of))]
pub(crate) fn contained(
    store: &Store,
    steps: u64,
    value: &Value,
    container: &Value,
) -> Result<(bool, u64), EvalErr>
    ensures { Gives (λ answer. answer) Bad result (contained store.now steps value.now container.now) }
{
    match &container.node {
        Node::Text(text) => Ok(in_string(steps, value, text.as_slice())?),
        Node::Tuple(values) => Ok(in_list(store, steps, value, values)?),
        Node::Range(range) => Ok(in_range(steps, value, *range)?),
        Node::Cell(cell) => match store.content(*cell) {
            None => Err(EvalErr::Bad(EvalFault::WrongType)),
            Some(content) => in_content(store, steps, value, content),
        },
        _ => Err(EvalErr::Bad(EvalFault::WrongType)),
    }
}

/// Looks for a value in what a cell holds.
fn in_content(
    store: &Store,
    steps: u64,
    value: &Value,
    content: &Content,
) -> Result<(bool, u64), EvalErr>
    ensures { Gives (λ answer. answer) Bad result (in_content store.now steps value.now (Some content.now)) }
{
    match content.body() {
        Body::List(values) => Ok(in_list(store, steps, value, values)?),
        Body::Dict(dict) => in_dict(steps, value, dict),
        Body::Rule(_) => Err(EvalErr::Bad(EvalFault::WrongType)),
    }
}

/// Looks for a substring.
#[tactic(auto, unfolding(crate::specs::Membership::in_string))]
fn in_string(steps: u64, value: &Value, text: &[u8]) -> Result<(bool, u64), EvalFault>
    ensures { result ≡ in_string steps value.now text.now }
{
    match &value.node {
        Node::Text(sub) => Ok((find(text, sub.as_slice()).is_some(), steps)),
        _ => Err(EvalFault::WrongType),
    }
}

/// Looks for an element of a range.
#[tactic(auto, unfolding(crate::specs::Membership::in_range))]
fn in_range(steps: u64, value: &Value, range: Range) -> Result<(bool, u64), EvalFault>
    ensures { result ≡ in_range steps value.now range.start range.stop range.step }
{
    match &value.node {
        Node::Int(n) => Ok((range_has(range, *n), steps)),
        _ => Err(EvalFault::WrongType),
    }
}

/// Looks for a value that is equal to one of these.
#[tactic(auto, unfolding(crate::specs::Membership::in_list))]
fn in_list(
    store: &Store,
    steps: u64,
    value: &Value,
    values: &[Value],
) -> Result<(bool, u64), EvalFault>
    ensures { result ≡ in_list store.now steps value.now values.now }
{
    let mut left = steps;
    for other in values {
        let (same, now) = equal(store, left, value, other)?;
        left = now;
        if same {
            return Ok((true, left));
        }
    }
    Ok((false, left))
}

/// Looks for a key of a dict.
#[tactic(auto, unfolding(crate::specs::Membership::in_dict))]
fn in_dict(steps: u64, value: &Value, dict: &Dict) -> Result<(bool, u64), EvalErr>
    ensures { Gives (λ answer. answer) Bad result (in_dict steps value.now dict.now) }
{
    let (key, left) = key_of(steps, value)?;
    Ok((dict.get(&key).is_some(), left))
}
