//! Arguments that go straight into the frame: those of parameters that take one each, whose slots are the first.

ghost use Rattle.std.specs.Prelude.{◌≡◌, slice_get};
ghost use Rattle.std.specs.List.{position_from};
ghost use Rattle.bq_base.specs.Gives.{Gives};
ghost use Rattle.bq_value.specs.declared.error.EvalErr.TheVariants.{Bad};
ghost use Rattle.bq_builtin_machine.specs.Binding.{take_all_named};
ghost use Rattle.bq_builtin_machine.specs.Parameters.{is_called};
ghost use Rattle.bq_eval_spec.specs.Calls.{singles};
ghost use Rattle.bq_eval_rules.specs.Direct.{are_direct, direct_signature, direct_values, value_or, with_defaults};

use crate::targets::slot_of;
use bq_base::{Bytes, EvalFault};
use bq_builtin_machine::{Args, Bound, has_value};
use bq_resolve_scope::Formal;
use bq_value::{EvalErr, Value};
use bq_value_datum::Seed;
use std::alloc::Global;

/// Returns whether each parameter takes one argument, by place or by name, and has the slot of its place.
pub fn are_direct(parameters: &[Formal]) -> bool
    ensures { result ≡ are_direct 0 parameters.now }
{
    for (i, parameter) in parameters.iter().enumerate() {
        match parameter {
            Formal::Plain(name) => {
                if slot_of(name) != i {
                    return false;
                }
            }
            Formal::Default(name) => {
                if slot_of(name) != i {
                    return false;
                }
            }
            _ => return false,
        }
    }
    true
}

/// Returns the place of the first parameter of this name among those that take one argument.
pub fn parameter_called(parameters: &[Formal], name: &[u8]) -> Option<usize>
    ensures { result ≡ position_from (is_called name.now) 0 (singles parameters.now) }
{
    let mut place = 0;
    for parameter in parameters {
        match parameter {
            Formal::Plain(other) => {
                if name == other.name.as_slice() {
                    return Some(place);
                }
                place += 1;
            }
            Formal::Default(other) => {
                if name == other.name.as_slice() {
                    return Some(place);
                }
                place += 1;
            }
            _ => {}
        }
    }
    None
}

/// Gives each named argument to the parameter of its name, or fails with F52.
#[tactic(auto, unfolding(bq_builtin_machine::specs::Binding::take_all_named, bq_builtin_machine::specs::Binding::take_named))]
fn take_all_named(
    bound: &mut Bound,
    parameters: &[Formal],
    named: Vec<(Bytes, Value)>,
) -> Result<(), EvalErr>
    ensures { Gives (λ _. bound.new) Bad result (take_all_named (direct_signature parameters.now) named.items bound.old) }
{
    for (name, value) in named {
        let place = parameter_called(parameters, name.as_slice());
        bound.take_named(place, false, name, value)?;
    }
    Ok(())
}

/// Gives the parameter of that place its default, unless it has an argument.
fn take_default(values: &mut Vec<Option<Value>>, i: usize, default: &Value) -> Result<(), EvalErr>
    ensures { Gives (λ _. values.new.items) Bad result (value_or (slice_get values.old.items i) i default.now values.old.items) }
{
    if i >= values.len() {
        return Err(EvalErr::Bad(EvalFault::Args));
    }
    if values[i].is_none() {
        values[i] = Some(default.share()?);
    }
    Ok(())
}

/// Gives each parameter without an argument its default, or fails with F52.
#[tactic(auto, unfolding(crate::specs::Direct::with_defaults))]
pub fn take_defaults(
    values: &mut Vec<Option<Value>>,
    parameters: &[Formal],
    defaults: &[Value],
) -> Result<(), EvalErr>
    ensures { Gives (λ _. values.new.items) Bad result (with_defaults 0 parameters.now defaults.now values.old.items) }
{
    let mut left = defaults;
    for (i, parameter) in parameters.iter().enumerate() {
        match parameter {
            Formal::Plain(_) => {
                if !has_value(values, i) {
                    return Err(EvalErr::Bad(EvalFault::Args));
                }
            }
            Formal::Default(_) => {
                let [default, rest @ ..] = left else {
                    return Err(EvalErr::Bad(EvalFault::Args));
                };
                take_default(values, i, default)?;
                left = rest;
            }
            _ => return Err(EvalErr::Bad(EvalFault::Args)),
        }
    }
    Ok(())
}

/// Returns the value of each parameter, with room for `slots` slots, or fails with F52.
#[tactic(auto, unfolding(crate::specs::Direct::direct_values))]
pub fn direct_values(
    alloc: Global,
    seed: Seed,
    slots: usize,
    parameters: &[Formal],
    defaults: &[Value],
    args: Args,
) -> Result<Vec<Option<Value>>, EvalErr>
    ensures { Gives (λ vs. vs.items) Bad result (direct_values parameters.now defaults.now args) }
{
    let Args { positional, named } = args;
    if positional.len() > parameters.len() {
        return Err(EvalErr::Bad(EvalFault::Args));
    }
    let count = parameters.len();
    let mut bound = Bound::placed(alloc, seed, slots, count, count, positional)?;
    take_all_named(&mut bound, parameters, named)?;
    let Bound { mut values, .. } = bound;
    take_defaults(&mut values, parameters, defaults)?;
    Ok(values)
}
