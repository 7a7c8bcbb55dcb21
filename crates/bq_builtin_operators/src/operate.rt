//! What each operator does, a call for each kind of operator (Starlark, "Unary operators", "Binary operators", "Index
//! expressions", "Slice expressions").

ghost use Rattle.std.specs.Prelude.{◌≡◌};
ghost use Rattle.bq_base.specs.Gives.{Gives};
ghost use Rattle.bq_value.specs.declared.error.EvalErr.TheVariants.{Bad};
ghost use Rattle.bq_value.specs.Datum.{int};
ghost use Rattle.bq_builtin_machine.specs.Action.{Does};
ghost use Rattle.bq_builtin_machine.specs.State.{State};
ghost use Rattle.bq_builtin_operators.specs.Operate.{binary, unary, compare, index, list_slice, slice};

use crate::comparing::compared;
use crate::integers;
use crate::operand::list_in;
use crate::product::product;
use crate::remainder::remainder;
use crate::slicing::{sliced_bytes, sliced_values};
use crate::subscript::item_of;
use crate::sum::sum;
use crate::union::union;
use bq_builtin_machine::Machine;
use bq_parse_grammar::{Comparison, Operator, UnaryOperator};
use bq_value::{Content, EvalErr, Node, Store, Value};
use std::alloc::Global;

/// Returns `a op b`. An operator that the language leaves out, or that stops early, is F40. Two integers, which are the
/// most frequent operands, are looked for first.
#[inline(always)]
pub fn binary(
    alloc: Global,
    machine: &mut Machine,
    operator: Operator,
    a: &Value,
    b: &Value,
) -> Result<Value, EvalErr>
    ensures { Does (λ value. value) result machine.new (binary operator a.now b.now machine.old) }
{
    match &a.node {
        Node::Int(x) => match &b.node {
            Node::Int(y) => of_integers(operator, *x, *y),
            _ => by_operator(alloc, machine, operator, a, b),
        },
        _ => by_operator(alloc, machine, operator, a, b),
    }
}

/// Returns `x op y` of two integers. No machine is needed.
#[inline(always)]
fn of_integers(operator: Operator, x: i64, y: i64) -> Result<Value, EvalErr>
    ensures { (machine : State) → Does (λ value. value) result machine (binary operator (int x) (int y) machine) }
{
    Ok(Value::int(integers::arithmetic(operator, x, y)?))
}

/// Returns `a op b` of other operands.
#[inline(never)]
#[tactic(auto, unfolding(crate::specs::Operate::binary))]
fn by_operator(
    alloc: Global,
    machine: &mut Machine,
    operator: Operator,
    a: &Value,
    b: &Value,
) -> Result<Value, EvalErr>
    ensures { Does (λ value. value) result machine.new (binary operator a.now b.now machine.old) }
{
    match operator {
        Operator::Multiply => product(alloc, machine, a, b),
        Operator::Modulo => remainder(alloc, machine, a, b),
        Operator::Add => sum(alloc, machine, a, b),
        Operator::BitOr => union(alloc, machine, a, b),
        _ => Ok(integers::integers(operator, a, b)?),
    }
}

/// Returns `op value`.
#[tactic(auto, unfolding(crate::specs::Operate::unary))]
pub fn unary(machine: &Machine, operator: UnaryOperator, value: &Value) -> Result<Value, EvalErr>
    ensures { Does (λ value. value) result machine.now (unary operator value.now machine.now) }
{
    Ok(integers::signed(machine.store(), operator, value)?)
}

/// Returns `a op b` as `True` or `False`.
#[tactic(auto, unfolding(crate::specs::Operate::compare))]
pub fn compare(
    machine: &mut Machine,
    comparison: Comparison,
    a: &Value,
    b: &Value,
) -> Result<Value, EvalErr>
    ensures { Does (λ value. value) result machine.new (compare comparison a.now b.now machine.old) }
{
    let (so, left) = compared(machine.store(), machine.steps(), comparison, a, b)?;
    machine.set_steps(left);
    Ok(Value::bool(so))
}

/// Returns `container[at]`.
#[tactic(auto, unfolding(crate::specs::Operate::index))]
pub fn index(
    alloc: Global,
    machine: &mut Machine,
    container: &Value,
    at: &Value,
) -> Result<Value, EvalErr>
    ensures { Does (λ value. value) result machine.new (index container.now at.now machine.old) }
{
    let (value, left) = item_of(alloc, machine.store(), machine.steps(), container, at)?;
    machine.set_steps(left);
    Ok(value)
}

/// Returns `a[start:stop:step]`, where each that is left out is `None`.
#[tactic(auto, unfolding(crate::specs::Operate::slice), using(bq_value_datum::specs::Datum::list_of_data_of))]
pub fn slice(
    alloc: Global,
    machine: &mut Machine,
    a: &Value,
    start: &Value,
    stop: &Value,
    step: &Value,
) -> Result<Value, EvalErr>
    ensures { Does (λ value. value) result machine.new (slice a.now start.now stop.now step.now machine.old) }
{
    match &a.node {
        Node::Text(text) => {
            Ok(Value::string(sliced_bytes(alloc, text.as_slice(), start, stop, step)?))
        }
        Node::Tuple(values) => {
            Ok(Value::tuple(alloc, sliced_values(alloc, values, start, stop, step)?)?)
        }
        _ => {
            let values = list_slice(alloc, machine.store(), a, start, stop, step)?;
            machine.new_content(Content::list(values))
        }
    }
}

/// Returns the values of a new list.
#[tactic(auto, unfolding(crate::specs::Operate::list_slice))]
fn list_slice(
    alloc: Global,
    store: &Store,
    a: &Value,
    start: &Value,
    stop: &Value,
    step: &Value,
) -> Result<Vec<Value>, EvalErr>
    ensures { Gives (λ values. values.items) Bad result (list_slice store.now a.now start.now stop.now step.now) }
{
    sliced_values(alloc, list_in(store, a)?, start, stop, step)
}
