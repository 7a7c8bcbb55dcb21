//! Division that rounds down (Starlark, "Arithmetic").

ghost use Rattle.std.specs.Prelude.{◌≡◌};
ghost use Rattle.bq_builtin_strings.specs.Division.{divided, remainder};

use crate::integer::fit;
use bq_base::EvalFault;

/// Returns `x // y`, rounded down; F42 if `y` is 0.
pub fn floor_divide(x: i64, y: i64) -> Result<i64, EvalFault>
    ensures { result ≡ divided x y }
{
    if y == 0 {
        return Err(EvalFault::DivZero);
    }
    if y > 0 {
        return Ok(x.div_euclid(y));
    }
    if x > 0 {
        return Ok((x - 1).div_euclid(y) - 1);
    }
    fit(x.checked_div(y))
}

/// Returns `x % y`, which has the sign of `y`; F42 if `y` is 0.
pub fn modulo(x: i64, y: i64) -> Result<i64, EvalFault>
    ensures { result ≡ remainder x y }
{
    if y == 0 {
        return Err(EvalFault::DivZero);
    }
    if y > 0 {
        return Ok(x.rem_euclid(y));
    }
    if x > 0 {
        return Ok((x - 1).rem_euclid(y) + y + 1);
    }
    Ok(x.wrapping_rem(y))
}
