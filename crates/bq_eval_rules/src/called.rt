//! What is called.

ghost use Rattle.std.specs.Prelude.{◌≡◌, IfSome, MatchOption};
ghost use Rattle.bq_eval_rules.specs.Called.{HasFunction, IsCallee, LacksFunction};

use crate::context::Context;
use crate::runtime::Runtime;
use crate::units::{TreeUnit, unit_at};
use bq_builtin_machine::Args;
use bq_eval_frame::Frame;
use bq_resolve_scope::Function;
use bq_value::{FunctionValue, Node, Value};

/// A function of the program, as a value has it.
#[derive(Clone, Copy)]
pub struct ProgramFunction<'a> {
    pub called: &'a FunctionValue,
    pub unit: TreeUnit<'a>,
    pub function: &'a Function,
}

/// What is called.
#[derive(Drop)]
pub enum Called<'a> {
    /// A value, with these arguments.
    Value(&'a Value, Args),
    /// A function of the program, in the frame with which it begins.
    Entered(ProgramFunction<'a>, Frame<'a>),
}

/// Returns the function of the program that a function value is, if it is there.
pub fn callee_at<'a, R: Runtime>(
    context: &'a Context<'a>,
    runtime: &R,
    called: &'a FunctionValue,
) -> Option<ProgramFunction<'a>>
    ensures { MatchOption result (LacksFunction R.means context.now called.now) (λ callee. (callee.called.now ≡ called.now) × HasFunction R.means context.now callee) }
{
    // The contract speaks of the runtime, so this has it.
    let _ = runtime;
    match unit_at(context.program, context.own, called.module) {
        None => None,
        Some(unit) => match unit.functions.get(called.place as usize) {
            None => None,
            Some(function) => Some(ProgramFunction {
                called,
                unit,
                function,
            }),
        },
    }
}

/// Returns the function of the program that a value is, if it is one.
pub fn callee_of<'a, R: Runtime>(
    context: &'a Context<'a>,
    runtime: &R,
    value: &'a Value,
) -> Option<ProgramFunction<'a>>
    ensures { IfSome result (IsCallee R.means context.now value.now) }
{
    match &value.node {
        Node::Function(called) => callee_at(context, runtime, called),
        _ => None,
    }
}
