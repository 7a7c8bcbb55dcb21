//! The call of a built-in function.

ghost use Rattle.bq_predeclared.specs.declared.predeclared.Predeclared.TheVariants.{BuiltIn};
ghost use Rattle.bq_builtin_machine.specs.Action.{Does};
ghost use Rattle.bq_builtin.specs.Call.{call_function};

use crate::choosing::{ExtremeKind, chosen, sorted};
use crate::integers::{int, len, range};
use crate::sequences::{enumerate, list, reversed, tuple};
use crate::texts::{fail, print, repr, str, type_of};
use crate::truths::{all, any, bool};
use crate::zip::zip;
use bq_base::EvalFault;
use bq_builtin_machine::{Args, Machine};
use bq_builtin_methods::dict::new_dict;
use bq_predeclared::Predeclared;
use bq_value::{EvalErr, Value};
use std::alloc::Global;

/// Calls the function at this place of the table.
#[tactic(auto, unfolding(crate::specs::Call::call_function))]
fn call(alloc: Global, machine: &mut Machine, place: u32, args: Args) -> Result<Value, EvalErr>
    ensures { Does (λ v. v) result machine.new (call_function (BuiltIn place) args machine.old) }
{
    match place {
        0 => Ok(all(machine, &args)?),
        1 => Ok(any(machine, &args)?),
        2 => Ok(bool(machine, &args)?),
        3 => new_dict(alloc, machine, args),
        4 => {
            let values = enumerate(alloc, machine, &args)?;
            machine.new_list(values)
        }
        5 => fail(alloc, machine, &args),
        6 => Ok(int(&args)?),
        7 => Ok(len(machine, &args)?),
        8 => {
            let values = list(alloc, machine, &args)?;
            machine.new_list(values)
        }
        9 => Ok(chosen(alloc, machine, ExtremeKind::Greatest, &args)?),
        10 => Ok(chosen(alloc, machine, ExtremeKind::Least, &args)?),
        11 => print(alloc, machine, &args),
        12 => Ok(range(&args)?),
        13 => repr(alloc, machine, &args),
        14 => {
            let values = reversed(alloc, machine, &args)?;
            machine.new_list(values)
        }
        15 => Err(EvalErr::Bad(EvalFault::Select)),
        16 => {
            let values = sorted(alloc, machine, &args)?;
            machine.new_list(values)
        }
        17 => str(alloc, machine, &args),
        18 => Ok(tuple(alloc, machine, &args)?),
        19 => Ok(type_of(alloc, machine, &args)?),
        20 => {
            let values = zip(alloc, machine, &args)?;
            machine.new_list(values)
        }
        _ => Err(EvalErr::Bad(EvalFault::WrongType)),
    }
}

/// Returns `function(args)`; F40 for what is no function of the language.
#[tactic(auto, unfolding(crate::specs::Call::call_function))]
pub fn call_function(
    alloc: Global,
    machine: &mut Machine,
    function: Predeclared,
    args: Args,
) -> Result<Value, EvalErr>
    ensures { Does (λ v. v) result machine.new (call_function function args machine.old) }
{
    match function {
        Predeclared::BuiltIn(place) => call(alloc, machine, place, args),
        _ => Err(EvalErr::Bad(EvalFault::WrongType)),
    }
}
