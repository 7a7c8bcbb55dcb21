//! The keys that values make (Starlark, "Hashing").

ghost use Rattle.std.specs.Prelude.{◌≡◌};
ghost use Rattle.bq_value.specs.Looked.{max_levels};
ghost use Rattle.bq_base.specs.Gives.{Gives};
ghost use Rattle.bq_value.specs.declared.error.EvalErr.TheVariants.{Bad};
ghost use Rattle.bq_value.specs.KeyWalk.{walked_at, all_walked, keyed};

use crate::error::EvalErr;
use crate::{Key, MAX_LEVELS, Node, Value};
use bq_base::EvalFault;

/// Returns the key that a value makes, and how many of the steps are left. Only `None`, bools, integers, strings and
/// tuples of these make one; for another value it is F45.
pub fn key_of(steps: u64, value: &Value) -> Result<(Key, u64), EvalErr>
    ensures { Gives (λ key. key) Bad result (keyed value.now (walked_at max_levels steps value.now)) }
{
    let left = walk(MAX_LEVELS, steps, value)?;
    let value = value.share()?;
    Ok((Key::new(value), left))
}

/// Visits a value, of which `levels` levels may be looked at. Returns how many of the steps are left.
#[cycle(walk)]
#[tactic(auto, using(bq_value_datum::specs::Datum::list_of_data_of))]
fn walk(levels: u32, steps: u64, value: &Value) -> Result<u64, EvalFault>
    ensures { result ≡ walked_at levels steps value.now }
{
    if steps == 0 {
        return Err(EvalFault::StepLimit);
    }
    let steps = steps - 1;
    if levels == 0 {
        return Err(EvalFault::TooDeep);
    }
    match &value.node {
        Node::NoneValue | Node::Bool(_) | Node::Int(_) | Node::Text(_) => Ok(steps),
        Node::Tuple(items) => walk_all(levels - 1, steps, items),
        Node::Range(_)
        | Node::Cell(_)
        | Node::Function(_)
        | Node::BuiltIn(_)
        | Node::SchemaRule(_, _)
        | Node::Rule
        | Node::Attr(_)
        | Node::Attribute(_) => Err(EvalFault::Unhashable),
    }
}

#[cycle(walk)]
fn walk_all(levels: u32, steps: u64, values: &[Value]) -> Result<u64, EvalFault>
    ensures { result ≡ all_walked (walked_at levels) steps values.now }
{
    let mut left = steps;
    for value in values {
        left = walk(levels, left, value)?;
    }
    Ok(left)
}
