//! Calls.

ghost use Rattle.std.specs.Prelude.{◌≡◌};
ghost use Rattle.bq_eval_spec.specs.Calls as meaning;
ghost use Rattle.bq_eval_spec.specs.Slots.{by_slots};
ghost use Rattle.bq_eval_frame.specs.Slots.{slots_of};
ghost use Rattle.bq_eval_rules.specs.Acts.{Acts};
ghost use Rattle.bq_eval_rules.specs.Called.{called_in, entered};
ghost use Rattle.bq_eval_rules.specs.TreeUnits.{unit_of};
ghost use Rattle.bq_eval_rules.specs.Round.{inside};
ghost use Rattle.bq_eval_rules.specs.Effects.{Returns};
ghost use Rattle.bq_eval_rules.specs.ContextCalls.{body_here, call_here, call_place};

use crate::answer::new_place;
use crate::called::{Called, ProgramFunction, callee_at};
use crate::context::Context;
use crate::direct::{are_direct, direct_values};
use crate::filling::{Filling, fill_parameters};
use crate::flow::result_of;
use crate::parameters::{bind_args, has_star_star, keywords_of};
use crate::runtime::Runtime;
use crate::statements::run_block;
use crate::units::TreeUnit;
use bq_base::EvalFault;
use bq_builtin_machine::{Args, Bound, MAX_SEARCHED};
use bq_eval_frame::Frame;
use bq_predeclared::{HostFunction, Predeclared, RuleFunction};
use bq_resolve_scope::Function;
use bq_value::{EvalErr, FunctionValue, Node, Value};
use std::alloc::Global;

/// Returns the frame with which a function begins.
#[tactic(auto, using(crate::proofs::Straight::straight, crate::proofs::Straight::not_bound))]
pub fn entry<'f, R: Runtime>(
    alloc: Global,
    runtime: &mut R,
    function: &Function,
    defaults: &[Value],
    args: Args,
) -> Result<Frame<'f>, EvalErr>
    ensures { Acts R.means slots_of result (R.seen runtime.new) (meaning.entry R.means by_slots function.now defaults.now args (R.seen runtime.old)) }
{
    let parameters = function.parameters.as_slice();
    if args.named.len().min(parameters.len()) > MAX_SEARCHED || !are_direct(parameters) {
        return bound_entry(alloc, runtime, function, defaults, args);
    }
    let seed = runtime.seed();
    let values = direct_values(alloc, seed, function.slots, parameters, defaults, args)?;
    Ok(Frame::of_values(values))
}

/// Returns the frame with which a function begins, by binding the arguments to its parameters.
#[tactic(auto, using(crate::proofs::CallSteps::given_acts, bq_eval_frame::proofs::Slots::none_filled), unfolding(bq_eval_spec::specs::Calls::entry))]
fn bound_entry<'f, R: Runtime>(
    alloc: Global,
    runtime: &mut R,
    function: &Function,
    defaults: &[Value],
    args: Args,
) -> Result<Frame<'f>, EvalErr>
    ensures { Acts R.means slots_of result (R.seen runtime.new) (meaning.entry R.means by_slots function.now defaults.now args (R.seen runtime.old)) }
{
    let parameters = function.parameters.as_slice();
    let bound = bind_args(alloc, runtime.seed(), parameters, args)?;
    let Bound {
        values,
        rest,
        keywords,
    } = bound;
    let keywords = keywords_of(runtime, has_star_star(parameters), keywords)?;
    let mut frame = Frame::with_room(alloc, function.slots)?;
    let filling = Filling {
        values: values.as_slice(),
        defaults,
        rest: rest.as_slice(),
        keywords: &keywords,
    };
    let _filled = fill_parameters(alloc, &*runtime, filling, &mut frame, parameters)?;
    Ok(frame)
}

/// Runs the body of a function.
#[cycle(calls)]
#[tactic(auto, using(crate::proofs::CallSteps::inner_left), unfolding(bq_eval_spec::specs::Calls::run_body, bq_eval_spec::specs::Calls::body_of, crate::specs::Round::evals, crate::specs::Round::in_function, crate::specs::Round::inside, crate::specs::Round::round_of))]
pub fn run_body<R: Runtime>(
    context: &Context<'_>,
    runtime: &mut R,
    unit: &TreeUnit<'_>,
    function: &Function,
    frame: &mut Frame<'_>,
) -> Result<Value, EvalErr>
    ensures { Returns R.means R.seen (body_here R.means context.now (unit_of unit.now) function.now (slots_of frame.old)) runtime.old result runtime.new }
{
    if context.left == 0 {
        return Err(EvalErr::Bad(EvalFault::CallDepth));
    }
    let inner = Context {
        alloc: context.alloc,
        left: context.left - 1,
        program: context.program,
        own: context.own,
        outside: false,
        globals: unit.globals,
        loaded: unit.loaded,
    };
    let mut out = new_place();
    let flow = run_block(
        &inner,
        call::<R>,
        frame,
        runtime,
        function.body.as_slice(),
        &mut out,
    );
    result_of(flow, out)
}

/// Runs a function of the program, in the frame with which it begins.
#[cycle(calls)]
#[tactic(auto, unfolding(crate::specs::Called::entered))]
fn run_entered<R: Runtime>(
    context: &Context<'_>,
    runtime: &mut R,
    callee: &ProgramFunction<'_>,
    first: Frame<'_>,
) -> Result<Value, EvalErr>
    ensures { Returns R.means R.seen (entered R.means context.now callee.now (slots_of first.entry)) runtime.old result runtime.new }
{
    let mut frame = first;
    runtime.enter(callee.called.module, callee.called.place)?;
    let value = run_body(context, runtime, &callee.unit, callee.function, &mut frame)?;
    runtime.leave();
    Ok(value)
}

/// Calls a function of the program.
#[cycle(calls)]
#[tactic(auto, unfolding(bq_eval_spec::specs::Calls::call_function, crate::specs::Called::entered))]
fn call_function<R: Runtime>(
    context: &Context<'_>,
    runtime: &mut R,
    callee: &ProgramFunction<'_>,
    args: Args,
) -> Result<Value, EvalErr>
    ensures { Returns R.means R.seen (call_here R.means context.now callee.now.called.now.«module» callee.now.called.now.place (unit_of callee.now.unit) callee.now.function.now callee.now.called.now.defaults.items args) runtime.old result runtime.new }
{
    let frame = entry(
        context.alloc,
        runtime,
        callee.function,
        callee.called.defaults.as_slice(),
        args,
    )?;
    run_entered(context, runtime, callee, frame)
}

/// Calls a function value.
#[cycle(calls)]
fn call_at<R: Runtime>(
    context: &Context<'_>,
    runtime: &mut R,
    called: &FunctionValue,
    args: Args,
) -> Result<Value, EvalErr>
    ensures { Returns R.means R.seen (call_place R.means context.now called.now.«module» called.now.place called.now.defaults.items args) runtime.old result runtime.new }
{
    match callee_at(&*context, &*runtime, &*called) {
        None => Err(EvalErr::Bad(EvalFault::WrongType)),
        Some(callee) => call_function(context, runtime, &callee, args),
    }
}

/// Calls a value with arguments.
#[cycle(calls)]
#[tactic(auto, using(crate::proofs::CallSteps::calls_step, bq_value_datum::specs::Datum::list_of_data_of), unfolding(crate::specs::Round::inside, bq_eval_spec::specs::Calls::apply))]
fn call_value<R: Runtime>(
    context: &Context<'_>,
    runtime: &mut R,
    value: &Value,
    args: Args,
) -> Result<Value, EvalErr>
    ensures { Returns R.means R.seen (inside R.means context.now value.now args) runtime.old result runtime.new }
{
    match &value.node {
        Node::Function(function) => call_at(context, runtime, function, args),
        Node::BuiltIn(function) => runtime.call_built_in(context.alloc, *function, args),
        Node::SchemaRule(place, _) => {
            let rule = Predeclared::Host(HostFunction::Rule(*place));
            runtime.call_built_in(context.alloc, rule, args)
        }
        Node::Rule => runtime.call_rule_function(context.alloc, RuleFunction::Rule, args),
        Node::Attr(kind) => {
            runtime.call_rule_function(context.alloc, RuleFunction::Attr(*kind), args)
        }
        Node::Cell(cell) => runtime.call_cell(context.alloc, *cell, args),
        _ => Err(EvalErr::Bad(EvalFault::WrongType)),
    }
}

/// Calls a value, or runs a function in the frame with which it begins.
#[cycle(calls)]
pub fn call<R: Runtime>(
    context: &Context<'_>,
    runtime: &mut R,
    called: Called<'_>,
) -> Result<Value, EvalErr>
    ensures { Returns R.means R.seen (called_in R.means context.now called.entry) runtime.old result runtime.new }
{
    match called {
        Called::Value(value, args) => call_value(context, runtime, value, args),
        Called::Entered(callee, frame) => run_entered(context, runtime, &callee, frame),
    }
}
