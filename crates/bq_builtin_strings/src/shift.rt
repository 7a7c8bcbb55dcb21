//! Shifts (Starlark, "Arithmetic").

ghost use Rattle.std.specs.Prelude.{◌≡◌, ◌<◌, IfOk};
ghost use Rattle.bq_builtin_strings.specs.Shift.{shift_count, scaled, halved, shifted_left, shifted_right};

use crate::integer::multiply;
use bq_base::EvalFault;

/// Returns `x << count`; F57 if the count isn't from 0 to 63, F41 if the result doesn't fit.
pub fn shift_left(x: i64, count: i64) -> Result<i64, EvalFault>
    ensures { result ≡ shifted_left x count }
{
    let count = shift_count(count)?;
    scaled(x, count)
}

/// Returns `x >> count`, rounded down; F57 if the count isn't from 0 to 63.
pub fn shift_right(x: i64, count: i64) -> Result<i64, EvalFault>
    ensures { result ≡ shifted_right x count }
{
    let count = shift_count(count)?;
    Ok(halved(x, count))
}

/// Returns by how many bits to shift, or F57.
fn shift_count(count: i64) -> Result<u32, EvalFault>
    ensures count { result ≡ shift_count count }
    ensures within { IfOk result (λ n. n < 64) }
{
    if count < 0 {
        return Err(EvalFault::BadValue);
    }
    if count < 64 {
        return Ok(count as u32);
    }
    Err(EvalFault::BadValue)
}

/// Returns `x` times 2^`count`.
fn scaled(x: i64, count: u32) -> Result<i64, EvalFault>
    requires { count < 64 }
    ensures { result ≡ scaled x count }
{
    if count == 63 {
        return scaled_most(x);
    }
    multiply(x, 1 << count)
}

/// Returns `x` times 2^63, a power that isn't an integer of 64 bits itself.
fn scaled_most(x: i64) -> Result<i64, EvalFault>
    ensures { result ≡ scaled x 63 }
{
    if x == 0 {
        return Ok(0);
    }
    if x == -1 {
        return Ok(i64::MIN);
    }
    Err(EvalFault::Overflow)
}

/// Returns `x` divided by 2^`count`, rounded down.
fn halved(x: i64, count: u32) -> i64
    requires { count < 64 }
    ensures { result ≡ halved x count }
{
    x >> count
}
