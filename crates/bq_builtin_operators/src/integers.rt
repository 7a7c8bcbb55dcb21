//! Operators between integers, and before one (Starlark, "Arithmetic", "Unary operators").

ghost use Rattle.std.specs.Prelude.{◌≡◌};
ghost use Rattle.bq_builtin_operators.specs.Integers.{arithmetic, integers, signed};

use crate::operand::int_of;
use bq_base::EvalFault;
use bq_builtin_strings::{
    add, bit_and, bit_not, bit_or, bit_xor, floor_divide, modulo, multiply, negate, shift_left,
    shift_right, subtract,
};
use bq_parse_grammar::{Operator, UnaryOperator};
use bq_value::{Store, Value, truth};

/// Returns `x op y` of two integers.
#[inline(always)]
#[tactic(auto, unfolding(crate::specs::Integers::arithmetic))]
pub(crate) fn arithmetic(operator: Operator, x: i64, y: i64) -> Result<i64, EvalFault>
    ensures { result ≡ arithmetic operator x y }
{
    match operator {
        Operator::Multiply => multiply(x, y),
        Operator::FloorDivide => floor_divide(x, y),
        Operator::Modulo => modulo(x, y),
        Operator::Add => add(x, y),
        Operator::Subtract => subtract(x, y),
        Operator::ShiftLeft => shift_left(x, y),
        Operator::ShiftRight => shift_right(x, y),
        Operator::BitAnd => Ok(bit_and(x, y)),
        Operator::BitXor => Ok(bit_xor(x, y)),
        Operator::BitOr => Ok(bit_or(x, y)),
        Operator::Divide | Operator::And | Operator::Or => Err(EvalFault::WrongType),
    }
}

/// Returns `a op b` of two integers: F40 if one isn't an integer, then F41, F42 and F57.
#[tactic(auto, unfolding(crate::specs::Integers::integers))]
pub(crate) fn integers(operator: Operator, a: &Value, b: &Value) -> Result<Value, EvalFault>
    ensures { result ≡ integers operator a.now b.now }
{
    let x = int_of(a)?;
    let y = int_of(b)?;
    Ok(Value::int(arithmetic(operator, x, y)?))
}

/// Returns `op value`: F40 for a sign before anything but an integer, F41 if the result doesn't fit.
#[tactic(auto, unfolding(crate::specs::Integers::signed))]
pub(crate) fn signed(
    store: &Store,
    operator: UnaryOperator,
    value: &Value,
) -> Result<Value, EvalFault>
    ensures { result ≡ signed operator store.now value.now }
{
    match operator {
        UnaryOperator::Plus => Ok(Value::int(int_of(value)?)),
        UnaryOperator::Minus => Ok(Value::int(negate(int_of(value)?)?)),
        UnaryOperator::Invert => Ok(Value::int(bit_not(int_of(value)?))),
        UnaryOperator::Not => Ok(Value::bool(!truth(store, value))),
    }
}
