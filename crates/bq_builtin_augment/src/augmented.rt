//! Augmented assignments (Starlark, "Augmented assignments").

ghost use Rattle.std.specs.Prelude.{◌≡◌, IfOk};
ghost use Rattle.bq_builtin_operators.specs.Action.{Does};
ghost use Rattle.bq_builtin_operators.specs.InPlace.{augment_sum, augment_union, augment};

use bq_builtin_operators::{
    Dict, EvalErr, Key, Machine, Node, Operator, Value, binary, dict_in, extend, list_in, unite,
};
use std::alloc::{AllocError, Global};

/// Carries out `a op= b`: a list by `+=`, and a dict by `|=`, is changed in place. All else is `a op b`.
#[inline(always)]
#[tactic(auto, unfolding(bq_builtin_operators::specs::InPlace::augment))]
pub fn augment(
    alloc: Global,
    machine: &mut Machine,
    operator: Operator,
    a: &Value,
    b: &Value,
) -> Result<Value, EvalErr>
    ensures { Does (λ value. value) result machine.new (augment operator a.now b.now machine.old) }
{
    match operator {
        Operator::Add => augment_sum(alloc, machine, a, b),
        Operator::BitOr => augment_union(alloc, machine, a, b),
        _ => binary(alloc, machine, operator, a, b),
    }
}

/// Carries out `a += b`; for a list F40, F47, F48, F54.
#[tactic(auto, unfolding(bq_builtin_operators::specs::InPlace::augment_sum, bq_builtin_operators::specs::Operate::binary))]
fn augment_sum(alloc: Global, machine: &mut Machine, a: &Value, b: &Value) -> Result<Value, EvalErr>
    ensures { Does (λ value. value) result machine.new (augment_sum a.now b.now machine.old) }
{
    match &a.node {
        Node::Cell(cell) => {
            list_in(machine.store(), a)?;
            let more = machine.elements(alloc, b)?;
            extend(machine, *cell, more)?;
            Ok(Value::cell(*cell))
        }
        _ => binary(alloc, machine, Operator::Add, a, b),
    }
}

/// Carries out `a |= b`; for a dict F40, F47, F48, F54.
#[tactic(auto, unfolding(bq_builtin_operators::specs::InPlace::augment_union, bq_builtin_operators::specs::Operate::binary))]
fn augment_union(
    alloc: Global,
    machine: &mut Machine,
    a: &Value,
    b: &Value,
) -> Result<Value, EvalErr>
    ensures { Does (λ value. value) result machine.new (augment_union a.now b.now machine.old) }
{
    match &a.node {
        Node::Cell(cell) => {
            dict_in(machine.store(), a)?;
            let more = pairs_of(alloc, dict_in(machine.store(), b)?)?;
            unite(machine, *cell, &more)?;
            Ok(Value::cell(*cell))
        }
        _ => binary(alloc, machine, Operator::BitOr, a, b),
    }
}

/// Shares the pairs of a dict.
fn pairs_of(alloc: Global, dict: &Dict) -> Result<Vec<(Key, Value)>, AllocError>
    ensures { IfOk result (λ pairs. pairs.items ≡ dict.now) }
{
    let mut pairs = Vec::with_capacity(alloc, dict.len())?;
    for i in 0..dict.len() {
        let (key, value) = dict.pair(i);
        pairs.push((key.share()?, value.share()?))?;
    }
    Ok(pairs)
}
