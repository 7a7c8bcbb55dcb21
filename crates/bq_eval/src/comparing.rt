//! Comparisons. Two integers, which are the most frequent operands, are looked for first.

ghost use Rattle.std.specs.Prelude.{◌≡◌};
ghost use Rattle.bq_value.specs.Datum.{boolean, int};
ghost use Rattle.bq_builtin_machine.specs.Action.{Does, following, pure};
ghost use Rattle.bq_builtin_machine.specs.Machine.{step};
ghost use Rattle.bq_builtin_operators.specs.Operate.{compare};
ghost use Rattle.bq_eval.specs.Comparing.{integers_compared};

use bq_base::EvalFault;
use bq_builtin_machine::Machine;
use bq_builtin_operators as operators;
use bq_parse_grammar::Comparison;
use bq_value::{EvalErr, Node, Value};
use std::cmp::Ordering;

/// Returns whether integers that are ordered so compare so; nothing can be in an integer.
#[inline(always)]
fn integers_compared(comparison: Comparison, order: Ordering) -> Option<bool>
    ensures { result ≡ integers_compared comparison order }
{
    match comparison {
        Comparison::Equal => Some(order.is_eq()),
        Comparison::NotEqual => Some(!order.is_eq()),
        Comparison::Less => Some(order.is_lt()),
        Comparison::Greater => Some(order.is_gt()),
        Comparison::LessEqual => Some(order.is_le()),
        Comparison::GreaterEqual => Some(order.is_ge()),
        Comparison::In => None,
        Comparison::NotIn => None,
    }
}

/// Takes a step, and returns `True` or `False`.
#[inline(always)]
fn said(machine: &mut Machine, so: bool) -> Result<Value, EvalErr>
    ensures { Does (λ value. value) result machine.new (following (step 1 machine.old) (λ _. pure (boolean so))) }
{
    machine.step(1)?;
    Ok(Value::bool(so))
}

/// Returns `x op y` of two integers, which takes a step.
#[inline(always)]
#[tactic(auto, using(crate::proofs::IntegerComparison::compared_so, crate::proofs::IntegerComparison::not_compared))]
fn compare_integers(
    machine: &mut Machine,
    comparison: Comparison,
    x: i64,
    y: i64,
) -> Result<Value, EvalErr>
    ensures { Does (λ value. value) result machine.new (compare comparison (int x) (int y) machine.old) }
{
    match integers_compared(comparison, x.cmp(&y)) {
        None => Err(EvalErr::Bad(EvalFault::WrongType)),
        Some(so) => said(machine, so),
    }
}

/// Returns `a op b` as `True` or `False`.
#[inline(always)]
pub(crate) fn compare(
    machine: &mut Machine,
    comparison: Comparison,
    a: &Value,
    b: &Value,
) -> Result<Value, EvalErr>
    ensures { Does (λ value. value) result machine.new (compare comparison a.now b.now machine.old) }
{
    match &a.node {
        Node::Int(x) => match &b.node {
            Node::Int(y) => compare_integers(machine, comparison, *x, *y),
            _ => operators::compare(machine, comparison, a, b),
        },
        _ => operators::compare(machine, comparison, a, b),
    }
}
