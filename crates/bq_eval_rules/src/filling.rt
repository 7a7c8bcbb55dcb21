//! Filling the frame of a function with its parameters.

ghost use Rattle.std.specs.Prelude.{◌≡◌};
ghost use Rattle.bq_eval_spec.specs.Calls as meaning;
ghost use Rattle.bq_eval_spec.specs.Slots.{by_slots};
ghost use Rattle.bq_eval_frame.specs.Slots.{slots_of};
ghost use Rattle.bq_eval_rules.specs.Fillings.{filling_of, FillsFrame};

use crate::runtime::Runtime;
use crate::targets::slot_of;
use bq_base::EvalFault;
use bq_builtin_machine::copies;
use bq_eval_frame::Frame;
use bq_parse_grammar::Identifier;
use bq_resolve_scope::Formal;
use bq_value::{EvalErr, Value};
use std::alloc::Global;

/// What is still to go into a frame, from the next parameter on.
#[derive(Clone, Copy)]
pub struct Filling<'a> {
    pub values: &'a [Option<Value>],
    pub defaults: &'a [Value],
    /// The elements of the tuple for `*`.
    pub rest: &'a [Value],
    /// The dict for `**`.
    pub keywords: &'a Value,
}

/// Fills the slot of a parameter without a default.
fn fill_plain<'a, R: Runtime>(
    runtime: &R,
    filling: Filling<'a>,
    frame: &mut Frame<'_>,
    name: &Identifier,
) -> Result<Filling<'a>, EvalErr>
    ensures { FillsFrame R.means R.seen (meaning.with_value R.means by_slots name.now filling.entry.values.now (filling_of filling.entry (slots_of frame.old))) runtime.now result frame.new }
{
    let _ = runtime;
    match filling.values.split_first() {
        Some((Some(value), values)) => {
            frame.fill(slot_of(name), value.share()?)?;
            Ok(Filling {
                values,
                defaults: filling.defaults,
                rest: filling.rest,
                keywords: filling.keywords,
            })
        }
        Some((None, _)) => Err(EvalErr::Bad(EvalFault::Args)),
        None => Err(EvalErr::Bad(EvalFault::Args)),
    }
}

/// Fills the slot of a parameter with a default, which is its value if it has no argument.
fn fill_default<'a, R: Runtime>(
    runtime: &R,
    filling: Filling<'a>,
    frame: &mut Frame<'_>,
    name: &Identifier,
) -> Result<Filling<'a>, EvalErr>
    ensures { FillsFrame R.means R.seen (meaning.with_default R.means by_slots name.now filling.entry.values.now filling.entry.defaults.now (filling_of filling.entry (slots_of frame.old))) runtime.now result frame.new }
{
    let _ = runtime;
    let Some((argument, values)) = filling.values.split_first() else {
        return Err(EvalErr::Bad(EvalFault::Args));
    };
    let Some((default, defaults)) = filling.defaults.split_first() else {
        return Err(EvalErr::Bad(EvalFault::Args));
    };
    match argument {
        Some(value) => frame.fill(slot_of(name), value.share()?)?,
        None => frame.fill(slot_of(name), default.share()?)?,
    }
    Ok(Filling {
        values,
        defaults,
        rest: filling.rest,
        keywords: filling.keywords,
    })
}

/// Fills the slot of one parameter.
#[tactic(auto, unfolding(bq_eval_spec::specs::Calls::fill_parameter))]
fn fill_parameter<'a, R: Runtime>(
    alloc: Global,
    runtime: &R,
    filling: Filling<'a>,
    frame: &mut Frame<'_>,
    parameter: &Formal,
) -> Result<Filling<'a>, EvalErr>
    ensures { FillsFrame R.means R.seen (meaning.fill_parameter R.means by_slots parameter.now (filling_of filling.entry (slots_of frame.old))) runtime.now result frame.new }
{
    match parameter {
        Formal::Plain(name) => fill_plain(runtime, filling, frame, name),
        Formal::Default(name) => fill_default(runtime, filling, frame, name),
        Formal::BareStar => Ok(filling),
        Formal::Star(name) => {
            let rest = copies(alloc, filling.rest)?;
            frame.fill(slot_of(name), Value::tuple(alloc, rest)?)?;
            Ok(filling)
        }
        Formal::StarStar(name) => {
            frame.fill(slot_of(name), filling.keywords.share()?)?;
            Ok(filling)
        }
    }
}

/// Fills the slots of these parameters.
#[tactic(auto, unfolding(bq_eval_spec::specs::Calls::fill_parameters))]
pub fn fill_parameters<'a, R: Runtime>(
    alloc: Global,
    runtime: &R,
    filling: Filling<'a>,
    frame: &mut Frame<'_>,
    parameters: &[Formal],
) -> Result<Filling<'a>, EvalErr>
    ensures { FillsFrame R.means R.seen (meaning.fill_parameters R.means by_slots parameters.now (filling_of filling.entry (slots_of frame.old))) runtime.now result frame.new }
{
    let mut left = filling;
    for parameter in parameters {
        left = fill_parameter(alloc, runtime, left, frame, parameter)?;
    }
    Ok(left)
}
