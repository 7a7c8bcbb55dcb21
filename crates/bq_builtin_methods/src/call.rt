//! Calls of methods (Starlark, "Built-in methods").

ghost use Rattle.bq_builtin_machine.specs.Action.{Does};
ghost use Rattle.bq_builtin_methods.specs.Call.{call_of_cell, call_method};

use crate::dict_table::call_of_dict;
use crate::list_table::call_of_list;
use crate::string_table::call_of_string;
use bq_base::EvalFault;
use bq_builtin_machine::{Args, Machine};
use bq_value::{Body, Cell, EvalErr, Node, Value};
use std::alloc::Global;

/// Returns `receiver.name(args)`; F58 if the receiver's type lacks the method.
#[tactic(auto, unfolding(crate::specs::Call::call_method))]
pub fn call_method(
    alloc: Global,
    machine: &mut Machine,
    name: &[u8],
    receiver: &Value,
    args: Args,
) -> Result<Value, EvalErr>
    ensures { Does (λ v. v) result machine.new (call_method name.now receiver.now args machine.old) }
{
    match &receiver.node {
        Node::Text(text) => call_of_string(alloc, machine, name, text.as_slice(), &args),
        Node::Cell(cell) => call_of_cell(alloc, machine, name, *cell, args),
        _ => Err(EvalErr::Bad(EvalFault::NoMethod)),
    }
}

#[tactic(auto, unfolding(crate::specs::Call::call_of_cell))]
fn call_of_cell(
    alloc: Global,
    machine: &mut Machine,
    name: &[u8],
    receiver: Cell,
    args: Args,
) -> Result<Value, EvalErr>
    ensures { Does (λ v. v) result machine.new (call_of_cell name.now receiver.module receiver.number args machine.old) }
{
    match machine.content(receiver)?.body() {
        Body::List(_) => call_of_list(alloc, machine, name, receiver, &args),
        Body::Dict(_) => call_of_dict(alloc, machine, name, receiver, args),
        Body::Rule(_) => Err(EvalErr::Bad(EvalFault::NoMethod)),
    }
}
