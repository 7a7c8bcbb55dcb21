//! How long a joined or a repeated list or string is (Starlark, "String concatenation", "String repetition"): F54 if it
//! is too long, before any memory is asked for.

ghost use Rattle.std.specs.Prelude.{◌≡◌, ◌+◌, ◌*◌};
ghost use Rattle.bq_builtin_strings.specs.Length.{within, times_of};

use bq_base::EvalFault;

/// The most elements of a list, and bytes of a string.
pub const MAX_LEN: usize = 1_048_576;

/// Returns the length of `x + y`, from the lengths `x` and `y`.
#[tactic(auto, using(std::proofs::lemmas::Bool::Decides::nat_tests))]
pub fn joined_len(x: usize, y: usize) -> Result<usize, EvalFault>
    ensures { result ≡ within (x + y) }
{
    if x > MAX_LEN || y > MAX_LEN - x {
        return Err(EvalFault::TooLong);
    }
    Ok(x + y)
}

/// Returns the length of `x * times`, from the length `len` of `x`. What is repeated less than once is empty.
#[tactic(auto, using(std::proofs::lemmas::Bool::Decides::nat_tests))]
pub fn repeated_len(len: usize, times: i64) -> Result<usize, EvalFault>
    ensures { result ≡ within (len * times_of times) }
{
    if times <= 0 {
        return Ok(0);
    }
    match len.checked_mul(times as usize) {
        None => Err(EvalFault::TooLong),
        Some(product) => {
            if product > MAX_LEN {
                return Err(EvalFault::TooLong);
            }
            Ok(product)
        }
    }
}
