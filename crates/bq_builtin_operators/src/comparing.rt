//! Comparisons of two values (Starlark, "Comparisons", "Membership tests").

ghost use Rattle.std.specs.Prelude.{◌≡◌};
ghost use Rattle.bq_base.specs.Gives.{Gives};
ghost use Rattle.bq_value.specs.declared.error.EvalErr.TheVariants.{Bad};
ghost use Rattle.bq_builtin_operators.specs.Comparing.{compared};

use crate::membership::contained;
use crate::walks::{equal, order};
use bq_parse_grammar::Comparison;
use bq_value::{EvalErr, Store, Value};

/// Returns whether `a op b`, and how many of the steps are left.
#[tactic(auto, unfolding(crate::specs::Comparing::compared))]
pub(crate) fn compared(
    store: &Store,
    steps: u64,
    comparison: Comparison,
    a: &Value,
    b: &Value,
) -> Result<(bool, u64), EvalErr>
    ensures { Gives (λ answer. answer) Bad result (compared comparison store.now steps a.now b.now) }
{
    match comparison {
        Comparison::Equal => Ok(equal(store, steps, a, b)?),
        Comparison::NotEqual => {
            let (same, left) = equal(store, steps, a, b)?;
            Ok((!same, left))
        }
        Comparison::Less => {
            let (ordering, left) = order(store, steps, a, b)?;
            Ok((ordering.is_lt(), left))
        }
        Comparison::Greater => {
            let (ordering, left) = order(store, steps, a, b)?;
            Ok((ordering.is_gt(), left))
        }
        Comparison::LessEqual => {
            let (ordering, left) = order(store, steps, a, b)?;
            Ok((ordering.is_le(), left))
        }
        Comparison::GreaterEqual => {
            let (ordering, left) = order(store, steps, a, b)?;
            Ok((ordering.is_ge(), left))
        }
        Comparison::In => contained(store, steps, a, b),
        Comparison::NotIn => {
            let (is_in, left) = contained(store, steps, a, b)?;
            Ok((!is_in, left))
        }
    }
}
