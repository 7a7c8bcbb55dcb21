//! The methods of lists: a row for each, and what a call of it does. A new one comes last, so that the others keep their places.

ghost use Rattle.std.specs.Prelude.{slice_get};
ghost use Rattle.std.specs.Map.{values_of};
ghost use Rattle.bq_builtin_machine.specs.Action.{Does};
ghost use Rattle.bq_builtin_methods.specs.Methods.{list_methods};
ghost use Rattle.bq_builtin_methods.specs.Call.{call_in};
ghost use Rattle.bq_builtin_methods.specs.Row.{IsRowOf, called_at};

use crate::list;
use crate::row::{Parameters, fits, row_in};
use bq_base::EvalFault;
use bq_builtin_machine::{Args, Machine};
use bq_value::{Cell, EvalErr, Value};
use std::alloc::Global;

/// The names of the methods, and which arguments they take.
const LIST_METHODS: [(&[u8], Parameters); 7] = [
    (b"append", Parameters::Positional(1, 1)),
    (b"clear", Parameters::Positional(0, 0)),
    (b"extend", Parameters::Positional(1, 1)),
    (b"index", Parameters::Positional(1, 3)),
    (b"insert", Parameters::Positional(2, 2)),
    (b"pop", Parameters::Positional(0, 1)),
    (b"remove", Parameters::Positional(1, 1)),
];

/// Returns the row of a name, if lists have the method.
fn list_row(name: &[u8]) -> Option<(usize, Parameters)>
    ensures { IsRowOf list_methods name.now result }
{
    row_in(&LIST_METHODS, name)
}

/// Calls the method whose row has this place.
#[tactic(auto, unfolding(crate::specs::Methods::list_methods))]
fn list_method(
    alloc: Global,
    machine: &mut Machine,
    place: usize,
    receiver: Cell,
    args: &Args,
) -> Result<Value, EvalErr>
    ensures { Does (λ v. v) result machine.new (called_at (slice_get (values_of list_methods) place) (receiver.module, receiver.number) args.now machine.old) }
{
    match place {
        0 => list::append(machine, receiver, &args.positional),
        1 => list::clear(machine, receiver, &args.positional),
        2 => list::extend(alloc, machine, receiver, &args.positional),
        3 => list::index(machine, receiver, &args.positional),
        4 => list::insert(machine, receiver, &args.positional),
        5 => list::pop(machine, receiver, &args.positional),
        6 => list::remove(machine, receiver, &args.positional),
        _ => Err(EvalErr::Bad(EvalFault::NoMethod)),
    }
}

/// Carries out `list.name(args)`.
pub(crate) fn call_of_list(
    alloc: Global,
    machine: &mut Machine,
    name: &[u8],
    receiver: Cell,
    args: &Args,
) -> Result<Value, EvalErr>
    ensures { Does (λ v. v) result machine.new (call_in list_methods name.now (receiver.module, receiver.number) args.now machine.old) }
{
    match list_row(name) {
        Some((place, parameters)) => {
            fits(parameters, args)?;
            list_method(alloc, machine, place, receiver, args)
        }
        None => Err(EvalErr::Bad(EvalFault::NoMethod)),
    }
}
