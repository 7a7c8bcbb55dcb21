//! The walks of comparisons, with all their levels, a call for each.

ghost use Rattle.std.specs.Prelude.{◌≡◌};
ghost use Rattle.bq_builtin_machine.specs.Machine.{looked_equal, looked_order};

use bq_base::EvalFault;
use bq_value::{Store, Value};
use std::cmp::Ordering;

/// Returns whether two values are equal, and how many of the steps are left.
#[tactic(auto, unfolding(bq_builtin_machine::specs::Machine::looked_equal))]
pub(crate) fn equal(
    store: &Store,
    steps: u64,
    a: &Value,
    b: &Value,
) -> Result<(bool, u64), EvalFault>
    ensures { result ≡ looked_equal store.now steps a.now b.now }
{
    bq_value::equal(store, steps, a, b)
}

/// Compares two values. Returns their order and how many of the steps are left.
#[tactic(auto, unfolding(bq_builtin_machine::specs::Machine::looked_order))]
pub(crate) fn order(
    store: &Store,
    steps: u64,
    a: &Value,
    b: &Value,
) -> Result<(Ordering, u64), EvalFault>
    ensures { result ≡ looked_order store.now steps a.now b.now }
{
    bq_value::order(store, steps, a, b)
}
