//! The arguments that parameters take.

ghost use Rattle.std.specs.Prelude.{◌≡◌, option_copied};
ghost use Rattle.bq_package_values.specs.Parameters.{argument};

use bq_value::Value;

/// Returns the argument of the parameter at this place, if it has one.
pub fn argument(values: &[Option<Value>], index: usize) -> Option<&Value>
    ensures { option_copied result ≡ argument values.now index }
{
    match values.get(index) {
        Some(Some(value)) => Some(value),
        _ => None,
    }
}
