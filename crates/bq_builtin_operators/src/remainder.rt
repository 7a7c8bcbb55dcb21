//! `%` (Starlark, "Arithmetic", "String interpolation").

ghost use Rattle.bq_builtin_machine.specs.Action.{Does};
ghost use Rattle.bq_builtin_operators.specs.Remainder.{remainder};

use crate::integers::integers;
use bq_builtin_format::percent;
use bq_builtin_machine::Machine;
use bq_parse_grammar::Operator;
use bq_value::{EvalErr, Node, Value};
use std::alloc::Global;

/// Returns `a % b`, of integers, or of a format and its values; F40, F53, F55, F41, F42, F59, F54.
#[tactic(auto, unfolding(crate::specs::Remainder::remainder))]
pub(crate) fn remainder(
    alloc: Global,
    machine: &mut Machine,
    a: &Value,
    b: &Value,
) -> Result<Value, EvalErr>
    ensures { Does (λ value. value) result machine.new (remainder a.now b.now machine.old) }
{
    match &a.node {
        Node::Text(format) => {
            let (text, left) = percent(
                alloc,
                machine.store(),
                machine.steps(),
                format.as_slice(),
                b,
            )?;
            machine.set_steps(left);
            Ok(Value::string(text))
        }
        _ => Ok(integers(Operator::Modulo, a, b)?),
    }
}
