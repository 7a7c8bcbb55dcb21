//! `+` (Starlark, "Arithmetic", "String concatenation").

ghost use Rattle.std.specs.Prelude.{◌≡◌};
ghost use Rattle.bq_builtin_machine.specs.Action.{Does};
ghost use Rattle.bq_builtin_operators.specs.Sum.{sum};

use crate::integers::integers;
use crate::operand::list_in;
use crate::sequence::join_values;
use bq_base::{Bytes, EvalFault};
use bq_builtin_machine::Machine;
use bq_builtin_strings::joined_len;
use bq_parse_grammar::Operator;
use bq_value::{Content, EvalErr, Node, Value};
use std::alloc::Global;

/// Returns `a + b`, of integers, strings, tuples or lists; F40, F41, F54.
#[tactic(auto, unfolding(crate::specs::Sum::sum, crate::specs::Sum::string_sum, crate::specs::Sum::tuple_sum, crate::specs::Sum::list_sum, crate::specs::Sequence::joined), using(bq_value_datum::specs::Datum::list_of_data_of))]
pub(crate) fn sum(
    alloc: Global,
    machine: &mut Machine,
    a: &Value,
    b: &Value,
) -> Result<Value, EvalErr>
    ensures { Does (λ value. value) result machine.new (sum a.now b.now machine.old) }
{
    match &a.node {
        Node::Text(text) => match &b.node {
            Node::Text(more) => {
                joined_len(text.len(), more.len())?;
                let joined = Bytes::joined(alloc, text.as_slice(), more.as_slice())?;
                Ok(Value::string(joined))
            }
            _ => Err(EvalErr::Bad(EvalFault::WrongType)),
        },
        Node::Tuple(values) => match &b.node {
            Node::Tuple(more) => Ok(Value::tuple(alloc, join_values(alloc, values, more)?)?),
            _ => Err(EvalErr::Bad(EvalFault::WrongType)),
        },
        Node::Cell(_) => {
            let values = list_in(machine.store(), a)?;
            let more = list_in(machine.store(), b)?;
            let values = join_values(alloc, values, more)?;
            machine.new_content(Content::list(values))
        }
        _ => Ok(integers(Operator::Add, a, b)?),
    }
}
