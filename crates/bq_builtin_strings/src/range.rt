//! Ranges (Starlark, "range"), which are never walked.

ghost use Rattle.std.specs.Prelude.{◌≡◌, ◌≢◌, ◌<◌, ◌%◌, ◌==◌, ◌-ℤ◌, pos, unsigned_abs};
ghost use Rattle.bq_value.specs.Range.{range_count, range_element};
ghost use Rattle.bq_builtin_strings.specs.Integer.{fitted};
ghost use Rattle.bq_builtin_strings.specs.RangeItem.{range_item, is_between, range_has};

use crate::integer::from_count;
use crate::place::index;
use bq_base::EvalFault;
use bq_value::Range;

/// Returns the element of a number, counted from 0.
pub fn element(range: Range, number: u64) -> i64
    requires { number < range_count range.start range.stop range.step }
    ensures { result ≡ range_element range.start range.step number }
{
    // What overflows 64 bits on the way wraps back in the end.
    let distance = number.cast_signed().wrapping_mul(range.step);
    range.start.wrapping_add(distance)
}

/// Returns the number of elements as an integer; F41 if it doesn't fit.
pub fn range_len(range: Range) -> Result<i64, EvalFault>
    ensures { result ≡ fitted (pos (range_count range.start range.stop range.step)) }
{
    from_count(range.count())
}

/// Returns the element at an index; F43 if there is none.
pub fn range_item(range: Range, at: i64) -> Result<i64, EvalFault>
    ensures { result ≡ range_item range.start range.stop range.step at }
{
    let number = index(range.count() as usize, at)?;
    Ok(element(range, number as u64))
}

/// Returns whether `n` is an element.
pub fn range_has(range: Range, n: i64) -> bool
    ensures { result ≡ range_has range.start range.stop range.step n }
{
    if range.step == 0 {
        return false;
    }
    is_between(range, n) && is_some_steps_on(range, n)
}

/// Returns whether `n` isn't before the start, and is before the end.
fn is_between(range: Range, n: i64) -> bool
    ensures { result ≡ is_between range.start range.stop range.step n }
{
    if range.step < 0 {
        return range.stop < n && n <= range.start;
    }
    range.start <= n && n < range.stop
}

/// Returns whether steps from the start lead to `n`.
fn is_some_steps_on(range: Range, n: i64) -> bool
    requires { range.step ≢ pos 0 }
    ensures { result ≡ (unsigned_abs (n -ℤ range.start) % unsigned_abs range.step == 0) }
{
    n.abs_diff(range.start) % range.step.unsigned_abs() == 0
}
