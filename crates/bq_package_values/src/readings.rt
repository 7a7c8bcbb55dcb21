//! Integers and truth values in values.

ghost use Rattle.std.specs.Prelude.{◌≡◌};
ghost use Rattle.bq_package_values.specs.Readings.{int_in, bool_in};

use bq_base::EvalFault;
use bq_value::{Node, Value};

/// Returns an integer; `why` is the fault of another value.
pub(crate) fn int_in(value: &Value, why: EvalFault) -> Result<i64, EvalFault>
    ensures { result ≡ int_in why value.now }
{
    match &value.node {
        Node::Int(n) => Ok(*n),
        _ => Err(why),
    }
}

/// Returns `True` or `False`, which may be written 1 and 0; `why` is the fault of another value.
pub(crate) fn bool_in(value: &Value, why: EvalFault) -> Result<bool, EvalFault>
    ensures { result ≡ bool_in why value.now }
{
    match &value.node {
        Node::Bool(b) => Ok(*b),
        Node::Int(0) => Ok(false),
        Node::Int(1) => Ok(true),
        _ => Err(why),
    }
}
