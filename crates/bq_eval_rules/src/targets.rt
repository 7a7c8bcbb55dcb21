//! Binding the parts of targets.

ghost use Rattle.std.specs.Prelude.{◌≡◌};
ghost use Rattle.bq_builtin_machine.specs.Action.{◌>>=◌ as and_then};
ghost use Rattle.bq_eval_spec.specs.Targets as meaning;
ghost use Rattle.bq_eval_spec.specs.Slots.{by_slots, slot_of};
ghost use Rattle.bq_eval_frame.specs.Slots.{slots_of};
ghost use Rattle.bq_eval_rules.specs.Effects.{Produces, Rebinds, BindsParts};

use crate::places::IndexedOperands;
use crate::runtime::Runtime;
use crate::stuck::stuck;
use bq_builtin_machine::Elements;
use bq_eval_frame::Frame;
use bq_parse_grammar::{Identifier, Referent, TargetExpr};
use bq_value::{EvalErr, Value};
use std::alloc::Global;

/// How many layers of a tree are looked at.
pub const MAX_LAYERS: usize = 1024;

/// Returns the slot of a variable, in the frame of its function or among the globals of the file.
#[inline(always)]
pub fn slot_of(name: &Identifier) -> usize
    ensures { result ≡ slot_of name.now.referent }
{
    match name.referent {
        Referent::Unresolved(_) => 0,
        Referent::Local(slot) => slot,
        Referent::Global(slot) => slot,
        Referent::Loaded(_) => 0,
        Referent::Predeclared(_) => 0,
        Referent::Member(_) => 0,
    }
}

/// Carries out `x[i] = value`.
#[tactic(auto, unfolding(bq_eval_spec::specs::Targets::bind_place))]
fn bind_place<R: Runtime>(
    runtime: &mut R,
    frame: &Frame<'_>,
    places: &mut IndexedOperands,
    value: Value,
) -> Result<(), EvalErr>
    ensures { BindsParts R.means R.seen (meaning.bind_place R.means value) frame.now places.old runtime.old result frame.now places.new runtime.new }
{
    match places.next() {
        None => Err(stuck()),
        Some((operand, index)) => runtime.set_index(&operand, &index, value),
    }
}

/// Binds each of these targets to one of the elements.
#[cycle(targets)]
#[tactic(auto, unfolding(bq_eval_spec::specs::Targets::bind_each))]
fn bind_each<R: Runtime>(
    runtime: &mut R,
    frame: &mut Frame<'_>,
    places: &mut IndexedOperands,
    depth: usize,
    targets: &[TargetExpr],
    elements: &mut Elements,
) -> Result<(), EvalErr>
    ensures { BindsParts R.means R.seen (meaning.bind_each R.means (meaning.bind_to R.means by_slots depth) targets.now elements.old) frame.old places.old runtime.old result frame.new places.new runtime.new }
{
    for target in targets {
        match elements.next() {
            None => return Ok(()),
            Some(value) => bind_to(runtime, frame, places, depth, target, value)?,
        }
    }
    Ok(())
}

/// Unpacks a value.
#[cycle(targets)]
#[inline(never)]
#[tactic(auto, unfolding(bq_eval_spec::specs::Targets::unpack))]
fn unpack<R: Runtime>(
    runtime: &mut R,
    frame: &mut Frame<'_>,
    places: &mut IndexedOperands,
    depth: usize,
    targets: &[TargetExpr],
    value: Value,
) -> Result<(), EvalErr>
    ensures { BindsParts R.means R.seen (meaning.unpack R.means (meaning.bind_to R.means by_slots depth) targets.now value) frame.old places.old runtime.old result frame.new places.new runtime.new }
{
    let mut elements = runtime.parts(places.alloc(), targets.len(), &value)?;
    bind_each(runtime, frame, places, depth, targets, &mut elements)
}

#[cycle(targets)]
fn bind_target<R: Runtime>(
    runtime: &mut R,
    frame: &mut Frame<'_>,
    places: &mut IndexedOperands,
    depth: usize,
    target: &TargetExpr,
    value: Value,
) -> Result<(), EvalErr>
    ensures { BindsParts R.means R.seen (meaning.bind_target R.means by_slots (meaning.bind_to R.means by_slots depth) target.now value) frame.old places.old runtime.old result frame.new places.new runtime.new }
{
    match target {
        TargetExpr::Name(name) => Ok(frame.fill(slot_of(name), value)?),
        TargetExpr::Index(_, _) => bind_place(runtime, frame, places, value),
        TargetExpr::Tuple(targets) => {
            unpack(runtime, frame, places, depth, targets.as_slice(), value)
        }
        TargetExpr::List(targets) => {
            unpack(runtime, frame, places, depth, targets.as_slice(), value)
        }
    }
}

/// Binds the parts of a target that is at most `depth` layers deep.
#[cycle(targets)]
#[tactic(auto, unfolding(bq_eval_spec::specs::Targets::bind_to))]
pub fn bind_to<R: Runtime>(
    runtime: &mut R,
    frame: &mut Frame<'_>,
    places: &mut IndexedOperands,
    depth: usize,
    target: &TargetExpr,
    value: Value,
) -> Result<(), EvalErr>
    ensures { BindsParts R.means R.seen (meaning.bind_to R.means by_slots depth target.now value) frame.old places.old runtime.old result frame.new places.new runtime.new }
{
    if depth == 0 {
        return Err(stuck());
    }
    bind_target(runtime, frame, places, depth - 1, target, value)
}

/// Binds the variables of a `for`, most often one name.
#[inline(always)]
pub fn bind_variables<R: Runtime>(
    alloc: Global,
    runtime: &mut R,
    frame: &mut Frame<'_>,
    target: &TargetExpr,
    value: Value,
) -> Result<(), EvalErr>
    ensures { Rebinds R.means R.seen (meaning.bind_variables R.means by_slots target.now value) frame.old runtime.old result frame.new runtime.new }
{
    match target {
        TargetExpr::Name(name) => Ok(frame.fill(slot_of(name), value)?),
        _ => bind_parts(alloc, runtime, frame, target, value),
    }
}

/// Binds the variables of a `for`, whatever target they are.
#[inline(never)]
#[tactic(auto, unfolding(bq_eval_spec::specs::Targets::bind_variables, bq_resolve_scope::specs::Names::max_layers))]
fn bind_parts<R: Runtime>(
    alloc: Global,
    runtime: &mut R,
    frame: &mut Frame<'_>,
    target: &TargetExpr,
    value: Value,
) -> Result<(), EvalErr>
    ensures { Rebinds R.means R.seen (meaning.bind_variables R.means by_slots target.now value) frame.old runtime.old result frame.new runtime.new }
{
    let mut places = IndexedOperands::new(alloc);
    bind_to(runtime, frame, &mut places, MAX_LAYERS, target, value)
}

/// Begins a turn of a `for`: takes its step, and binds the variables to the next element.
#[inline(always)]
pub fn begin_turn<R: Runtime>(
    alloc: Global,
    runtime: &mut R,
    frame: &mut Frame<'_>,
    target: &TargetExpr,
    value: Value,
) -> Result<(), EvalErr>
    ensures { Produces R.means R.seen (slots_of frame.new) (and_then (R.means.step 1) (λ _. meaning.bind_variables R.means by_slots target.now value (slots_of frame.old))) runtime.old result runtime.new }
{
    runtime.step(1)?;
    bind_variables(alloc, runtime, frame, target, value)
}
