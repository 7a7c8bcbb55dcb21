//! Augmented assignments. An integer, which is the most frequent operand, is looked for first: nothing of it is changed in place.

ghost use Rattle.bq_builtin_machine.specs.Action.{Does};
ghost use Rattle.bq_builtin_augment.specs.InPlace.{augment};

use bq_builtin_machine::Machine;
use bq_builtin_operators::binary;
use bq_parse_grammar::Operator;
use bq_value::{EvalErr, Node, Value};
use std::alloc::Global;

/// Carries out `a op= b`.
#[inline(always)]
#[tactic(auto, using(crate::proofs::IntegerAugmentation::integer_augmented))]
pub(crate) fn augment(
    alloc: Global,
    machine: &mut Machine,
    operator: Operator,
    a: &Value,
    b: &Value,
) -> Result<Value, EvalErr>
    ensures { Does (λ value. value) result machine.new (augment operator a.now b.now machine.old) }
{
    match &a.node {
        Node::Int(_) => binary(alloc, machine, operator, a, b),
        _ => bq_builtin_augment::augment(alloc, machine, operator, a, b),
    }
}
