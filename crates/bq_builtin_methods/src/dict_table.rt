//! The methods of dicts: a row for each, and what a call of it does. A new one comes last, so that the others keep their places.

ghost use Rattle.std.specs.Prelude.{slice_get};
ghost use Rattle.std.specs.Map.{values_of};
ghost use Rattle.bq_builtin_machine.specs.Action.{Does};
ghost use Rattle.bq_builtin_methods.specs.Methods.{dict_methods};
ghost use Rattle.bq_builtin_methods.specs.Call.{call_in};
ghost use Rattle.bq_builtin_methods.specs.Row.{IsRowOf, called_at};

use crate::dict;
use crate::row::{Parameters, fits, row_in};
use bq_base::EvalFault;
use bq_builtin_machine::{Args, Machine};
use bq_value::{Cell, EvalErr, Value};
use std::alloc::Global;

/// The names of the methods, and which arguments they take.
const DICT_METHODS: [(&[u8], Parameters); 9] = [
    (b"clear", Parameters::Positional(0, 0)),
    (b"get", Parameters::Positional(1, 2)),
    (b"items", Parameters::Positional(0, 0)),
    (b"keys", Parameters::Positional(0, 0)),
    (b"pop", Parameters::Positional(1, 2)),
    (b"popitem", Parameters::Positional(0, 0)),
    (b"setdefault", Parameters::Positional(1, 2)),
    (b"update", Parameters::Any),
    (b"values", Parameters::Positional(0, 0)),
];

/// Returns the row of a name, if dicts have the method.
fn dict_row(name: &[u8]) -> Option<(usize, Parameters)>
    ensures { IsRowOf dict_methods name.now result }
{
    row_in(&DICT_METHODS, name)
}

/// Calls the method whose row has this place.
#[tactic(auto, unfolding(crate::specs::Methods::dict_methods))]
fn dict_method(
    alloc: Global,
    machine: &mut Machine,
    place: usize,
    receiver: Cell,
    args: Args,
) -> Result<Value, EvalErr>
    ensures { Does (λ v. v) result machine.new (called_at (slice_get (values_of dict_methods) place) (receiver.module, receiver.number) args machine.old) }
{
    match place {
        0 => dict::clear(alloc, machine, receiver, &args.positional),
        1 => dict::get(machine, receiver, &args.positional),
        2 => dict::items(alloc, machine, receiver, &args.positional),
        3 => dict::keys(alloc, machine, receiver, &args.positional),
        4 => dict::pop(alloc, machine, receiver, &args.positional),
        5 => dict::popitem(alloc, machine, receiver, &args.positional),
        6 => dict::setdefault(alloc, machine, receiver, &args.positional),
        7 => dict::update(alloc, machine, receiver, args),
        8 => dict::values(alloc, machine, receiver, &args.positional),
        _ => Err(EvalErr::Bad(EvalFault::NoMethod)),
    }
}

/// Carries out `dict.name(args)`.
pub(crate) fn call_of_dict(
    alloc: Global,
    machine: &mut Machine,
    name: &[u8],
    receiver: Cell,
    args: Args,
) -> Result<Value, EvalErr>
    ensures { Does (λ v. v) result machine.new (call_in dict_methods name.now (receiver.module, receiver.number) args machine.old) }
{
    match dict_row(name) {
        Some((place, parameters)) => {
            fits(parameters, &args)?;
            dict_method(alloc, machine, place, receiver, args)
        }
        None => Err(EvalErr::Bad(EvalFault::NoMethod)),
    }
}
