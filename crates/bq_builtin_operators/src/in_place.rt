//! What changes a list or dict in place (Starlark, "Assignments").

ghost use Rattle.std.specs.Prelude.{◌≡◌, ◌++◌, OnOk};
ghost use Rattle.bq_base.specs.Gives.{Gives};
ghost use Rattle.bq_value.specs.declared.error.EvalErr.TheVariants.{Bad};
ghost use Rattle.bq_builtin_machine.specs.Action.{Does};
ghost use Rattle.bq_builtin_machine.specs.Cells.{changing};
ghost use Rattle.bq_value.specs.Pairs.{put};
ghost use Rattle.bq_builtin_operators.specs.Sequence.{limited, joined};
ghost use Rattle.bq_builtin_operators.specs.Union.{put_all};
ghost use Rattle.bq_builtin_operators.specs.InPlace.{list_extended, dict_united, element_set, pair_put, set_item, set_index};

use crate::operand::int_of;
use bq_base::EvalFault;
use bq_builtin_machine::{Elements, Machine};
use bq_builtin_strings::{MAX_LEN, index, joined_len};
use bq_value::{Body, Cell, Content, Dict, EvalErr, Key, Node, Value};
use std::alloc::AllocError;

/// Appends these elements to a list that may be changed (F47, F48, F54).
#[tactic(auto, unfolding(bq_builtin_machine::specs::Cells::changing))]
pub fn extend(machine: &mut Machine, list: Cell, more: Elements) -> Result<(), EvalErr>
    ensures { Does (λ _. tt) result machine.new (changing list.module list.number (list_extended more) machine.old) }
{
    let content = machine.change(list)?;
    list_extended(content, more)
}

#[tactic(auto, unfolding(crate::specs::InPlace::list_extended))]
fn list_extended(content: &mut Content, more: Elements) -> Result<(), EvalErr>
    ensures { Gives (λ _. (tt, content.new)) Bad result (list_extended more content.old) }
{
    match content.change()? {
        Body::List(values) => push_all(values, more),
        Body::Dict(_) => Err(EvalErr::Bad(EvalFault::WrongType)),
        Body::Rule(_) => Err(EvalErr::Bad(EvalFault::WrongType)),
    }
}

/// Appends these elements (F54).
#[tactic(auto, using(crate::proofs::Sequences::joined_is))]
fn push_all(values: &mut Vec<Value>, more: Elements) -> Result<(), EvalErr>
    ensures { Gives (λ _. values.new.items) Bad result (joined values.old.items more) }
{
    joined_len(values.len(), more.len())?;
    push_elements(values, more)?;
    Ok(())
}

fn push_elements(values: &mut Vec<Value>, mut more: Elements) -> Result<(), AllocError>
    ensures { OnOk result (values.new.items ≡ values.old.items ++ more) }
{
    while let Some(value) = more.next() {
        values.push(value)?;
    }
    Ok(())
}

/// Inserts these pairs in turn into a dict that may be changed (F47, F48, F54).
#[tactic(auto, unfolding(bq_builtin_machine::specs::Cells::changing))]
pub fn unite(machine: &mut Machine, dict: Cell, more: &[(Key, Value)]) -> Result<(), EvalErr>
    ensures { Does (λ _. tt) result machine.new (changing dict.module dict.number (dict_united more.now) machine.old) }
{
    let content = machine.change(dict)?;
    dict_united(content, more)
}

#[tactic(auto, unfolding(crate::specs::InPlace::dict_united))]
fn dict_united(content: &mut Content, more: &[(Key, Value)]) -> Result<(), EvalErr>
    ensures { Gives (λ _. (tt, content.new)) Bad result (dict_united more.now content.old) }
{
    match content.change()? {
        Body::List(_) => Err(EvalErr::Bad(EvalFault::WrongType)),
        Body::Dict(dict) => put_pairs(dict, more),
        Body::Rule(_) => Err(EvalErr::Bad(EvalFault::WrongType)),
    }
}

/// Inserts these pairs in turn (F54).
pub fn put_pairs(dict: &mut Dict, more: &[(Key, Value)]) -> Result<(), EvalErr>
    ensures { Gives (λ _. dict.new) Bad result (limited (put_all dict.old more.now)) }
{
    put_each(dict, more)?;
    check_len(dict)
}

fn put_each(dict: &mut Dict, more: &[(Key, Value)]) -> Result<(), AllocError>
    ensures { OnOk result (dict.new ≡ put_all dict.old more.now) }
{
    for pair in more {
        put_pair(dict, pair.0.share()?, pair.1.share()?)?;
    }
    Ok(())
}

fn put_pair(dict: &mut Dict, key: Key, value: Value) -> Result<(), AllocError>
    ensures { OnOk result (dict.new ≡ put key value dict.old) }
{
    let _before = dict.insert(key, value)?;
    Ok(())
}

/// Fails with F54 if a dict has too many pairs.
fn check_len(dict: &Dict) -> Result<(), EvalErr>
    ensures { Gives (λ _. dict.now) Bad result (limited dict.now) }
{
    if dict.len() > MAX_LEN {
        return Err(EvalErr::Bad(EvalFault::TooLong));
    }
    Ok(())
}

/// Carries out `container[at] = value`: F40, F47, F48, then F53, F55 and F45 of a key, F43 and F54.
#[tactic(auto, unfolding(crate::specs::InPlace::set_index))]
pub fn set_index(
    machine: &mut Machine,
    container: &Value,
    at: &Value,
    value: Value,
) -> Result<(), EvalErr>
    ensures { Does (λ _. tt) result machine.new (set_index container.now at.now value machine.old) }
{
    match &container.node {
        Node::Cell(cell) => set_item(machine, *cell, at, value),
        _ => Err(EvalErr::Bad(EvalFault::WrongType)),
    }
}

#[tactic(auto, unfolding(crate::specs::InPlace::set_item))]
fn set_item(machine: &mut Machine, cell: Cell, at: &Value, value: Value) -> Result<(), EvalErr>
    ensures { Does (λ _. tt) result machine.new (set_item cell.module cell.number at.now value machine.old) }
{
    match machine.content(cell)?.body() {
        Body::List(_) => {
            let index = int_of(at)?;
            set_element(machine, cell, index, value)
        }
        Body::Dict(_) => {
            machine.may_change(cell)?;
            let key = machine.key(at)?;
            set_value(machine, cell, key, value)
        }
        Body::Rule(_) => Err(EvalErr::Bad(EvalFault::WrongType)),
    }
}

#[tactic(auto, unfolding(bq_builtin_machine::specs::Cells::changing))]
fn set_element(machine: &mut Machine, list: Cell, at: i64, value: Value) -> Result<(), EvalErr>
    ensures { Does (λ _. tt) result machine.new (changing list.module list.number (element_set at value) machine.old) }
{
    let content = machine.change(list)?;
    element_set(content, at, value)
}

#[tactic(auto, unfolding(crate::specs::InPlace::element_set))]
fn element_set(content: &mut Content, at: i64, value: Value) -> Result<(), EvalErr>
    ensures { Gives (λ _. (tt, content.new)) Bad result (element_set at value content.old) }
{
    match content.change()? {
        Body::List(values) => {
            let place = index(values.len(), at)?;
            values[place] = value;
            Ok(())
        }
        Body::Dict(_) => Err(EvalErr::Bad(EvalFault::WrongType)),
        Body::Rule(_) => Err(EvalErr::Bad(EvalFault::WrongType)),
    }
}

#[inline(always)]
#[tactic(auto, unfolding(bq_builtin_machine::specs::Cells::changing))]
fn set_value(machine: &mut Machine, dict: Cell, key: Key, value: Value) -> Result<(), EvalErr>
    ensures { Does (λ _. tt) result machine.new (changing dict.module dict.number (pair_put key value) machine.old) }
{
    let content = machine.change(dict)?;
    pair_put(content, key, value)
}

#[tactic(auto, unfolding(crate::specs::InPlace::pair_put))]
fn pair_put(content: &mut Content, key: Key, value: Value) -> Result<(), EvalErr>
    ensures { Gives (λ _. (tt, content.new)) Bad result (pair_put key value content.old) }
{
    match content.change()? {
        Body::List(_) => Err(EvalErr::Bad(EvalFault::WrongType)),
        Body::Dict(dict) => {
            put_pair(dict, key, value)?;
            check_len(dict)
        }
        Body::Rule(_) => Err(EvalErr::Bad(EvalFault::WrongType)),
    }
}
