//! The first element of a list that is equal to a value.

ghost use Rattle.std.specs.Prelude.{◌≡◌, ◌+◌, ◌<◌, ◌^◌, length};
ghost use Rattle.bq_builtin_machine.specs.Machine.{looked_equal};
ghost use Rattle.bq_builtin_methods.specs.Search.{first_equal, found_between};

use bq_base::EvalFault;
use bq_builtin_strings::span;
use bq_value::{Store, Value};

/// Returns the place of the first of these values between two indices that is equal to `value`, and how many of the
/// steps are left.
#[tactic(auto, unfolding(crate::specs::Search::found_between))]
pub(crate) fn found_between(
    store: &Store,
    steps: u64,
    values: &[Value],
    value: &Value,
    start: Option<i64>,
    end: Option<i64>,
) -> Result<(Option<usize>, u64), EvalFault>
    ensures { result ≡ found_between store.now steps values.now value.now start end }
{
    let (from, to) = span(values.len(), start, end);
    if to <= from {
        return Ok((None, steps));
    }
    first_equal(store, steps, from, value, &values[from..to])
}

/// Returns the place of the first of these values that is equal to `value`, where the first one has the place `at`.
fn first_equal(
    store: &Store,
    steps: u64,
    at: usize,
    value: &Value,
    values: &[Value],
) -> Result<(Option<usize>, u64), EvalFault>
    requires { at + length values.now < 2 ^ 64 }
    ensures { result ≡ first_equal store.now steps at value.now values.now }
{
    let mut left = steps;
    for (i, other) in values.iter().enumerate() {
        let (same, now) = looked_equal(store, left, other, value)?;
        left = now;
        if same {
            return Ok((Some(at + i), left));
        }
    }
    Ok((None, left))
}

// PROOF: a call that names the 64 levels is a step of its own.
#[tactic(auto, unfolding(bq_builtin_machine::specs::Machine::looked_equal))]
fn looked_equal(store: &Store, steps: u64, a: &Value, b: &Value) -> Result<(bool, u64), EvalFault>
    ensures { result ≡ looked_equal store.now steps a.now b.now }
{
    bq_value::equal(store, steps, a, b)
}
