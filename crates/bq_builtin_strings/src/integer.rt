//! Arithmetic of integers of 64 bits (Starlark, "Arithmetic"): F41 where the answer doesn't fit.

ghost use Rattle.std.specs.Prelude.{◌≡◌, ◌+ℤ◌, ◌-ℤ◌, ◌*ℤ◌, neg_ℤ, pos, Option, ℤ};
ghost use Rattle.bq_builtin_strings.specs.Integer.{Fitted, fitted, both, either, one_of};

use bq_base::EvalFault;

/// The greatest integer.
const MAX: u64 = 9_223_372_036_854_775_807;

/// Returns the answer if there is one, and else F41.
pub(crate) fn fit(answer: Option<i64>) -> Result<i64, EvalFault>
    ensures { (z : ℤ) → Fitted answer z → result ≡ fitted z }
{
    answer.ok_or(EvalFault::Overflow)
}

/// Returns a count as an integer; F41 if it doesn't fit.
pub(crate) fn from_count(count: u64) -> Result<i64, EvalFault>
    ensures { result ≡ fitted (pos count) }
{
    if MAX < count {
        return Err(EvalFault::Overflow);
    }
    Ok(count as i64)
}

/// Returns `x + y`.
pub fn add(x: i64, y: i64) -> Result<i64, EvalFault>
    ensures { result ≡ fitted (x +ℤ y) }
{
    fit(x.checked_add(y))
}

/// Returns `x - y`.
pub fn subtract(x: i64, y: i64) -> Result<i64, EvalFault>
    ensures { result ≡ fitted (x -ℤ y) }
{
    fit(x.checked_sub(y))
}

/// Returns `x * y`.
pub fn multiply(x: i64, y: i64) -> Result<i64, EvalFault>
    ensures { result ≡ fitted (x *ℤ y) }
{
    fit(x.checked_mul(y))
}

/// Returns `-x`.
pub fn negate(x: i64) -> Result<i64, EvalFault>
    ensures { result ≡ fitted (neg_ℤ x) }
{
    fit(x.checked_neg())
}

/// Returns `x & y`, of the bits in two's complement.
pub fn bit_and(x: i64, y: i64) -> i64
    ensures { result ≡ both x y }
{
    x & y
}

/// Returns `x | y`, of the bits in two's complement.
pub fn bit_or(x: i64, y: i64) -> i64
    ensures { result ≡ either x y }
{
    x | y
}

/// Returns `x ^ y`, of the bits in two's complement.
pub fn bit_xor(x: i64, y: i64) -> i64
    ensures { result ≡ one_of x y }
{
    x ^ y
}

/// Returns `~x`.
pub fn bit_not(x: i64) -> i64
    ensures { result ≡ neg_ℤ x -ℤ pos 1 }
{
    !x
}
