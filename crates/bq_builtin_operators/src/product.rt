//! `*` (Starlark, "Arithmetic", "String repetition").

ghost use Rattle.std.specs.Prelude.{◌≡◌};
ghost use Rattle.bq_base.specs.Gives.{Gives};
ghost use Rattle.bq_value.specs.declared.error.EvalErr.TheVariants.{Bad};
ghost use Rattle.bq_builtin_machine.specs.Action.{Does};
ghost use Rattle.bq_builtin_operators.specs.Product.{list_product, times, int_product, product};

use crate::integers::arithmetic;
use crate::operand::{int_of, list_in};
use crate::sequence::{repeat_bytes, repeat_values};
use bq_base::EvalFault;
use bq_builtin_machine::Machine;
use bq_parse_grammar::Operator;
use bq_value::{Content, EvalErr, Node, Store, Value};
use std::alloc::Global;

/// Returns `a * b`, of integers, or of an integer and a string, a tuple or a list; F40, F41, F54.
#[tactic(auto, unfolding(crate::specs::Product::product))]
pub(crate) fn product(
    alloc: Global,
    machine: &mut Machine,
    a: &Value,
    b: &Value,
) -> Result<Value, EvalErr>
    ensures { Does (λ value. value) result machine.new (product a.now b.now machine.old) }
{
    match &a.node {
        Node::Int(n) => int_product(alloc, machine, *n, b),
        _ => {
            let n = int_of(b)?;
            times(alloc, machine, a, n)
        }
    }
}

/// Returns `n * b`.
#[tactic(auto, unfolding(crate::specs::Product::int_product))]
fn int_product(alloc: Global, machine: &mut Machine, n: i64, b: &Value) -> Result<Value, EvalErr>
    ensures { Does (λ value. value) result machine.new (int_product n b.now machine.old) }
{
    match &b.node {
        Node::Int(m) => Ok(Value::int(arithmetic(Operator::Multiply, n, *m)?)),
        _ => times(alloc, machine, b, n),
    }
}

/// Returns a string, a tuple or a list `n` times.
#[tactic(auto, unfolding(crate::specs::Product::times), using(bq_value_datum::specs::Datum::list_of_data_of))]
fn times(alloc: Global, machine: &mut Machine, a: &Value, n: i64) -> Result<Value, EvalErr>
    ensures { Does (λ value. value) result machine.new (times a.now n machine.old) }
{
    match &a.node {
        Node::Text(text) => Ok(Value::string(repeat_bytes(alloc, text.as_slice(), n)?)),
        Node::Tuple(values) => Ok(Value::tuple(alloc, repeat_values(alloc, values, n)?)?),
        Node::Cell(_) => {
            let values = list_product(alloc, machine.store(), a, n)?;
            machine.new_content(Content::list(values))
        }
        _ => Err(EvalErr::Bad(EvalFault::WrongType)),
    }
}

/// Returns the values of a new list.
#[tactic(auto, unfolding(crate::specs::Product::list_product))]
fn list_product(alloc: Global, store: &Store, a: &Value, n: i64) -> Result<Vec<Value>, EvalErr>
    ensures { Gives (λ values. values.items) Bad result (list_product store.now a.now n) }
{
    repeat_values(alloc, list_in(store, a)?, n)
}
