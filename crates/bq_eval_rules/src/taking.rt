//! Arguments that are evaluated straight into the list of a function's slots.

ghost use Rattle.std.specs.Prelude.{◌≡◌, None, Some, Ok, cond, false, replicate, true, IfOk, IfSome};
ghost use Rattle.bq_base.specs.Gives.{Gives};
ghost use Rattle.bq_value.specs.declared.error.EvalErr.TheVariants.{Bad};
ghost use Rattle.bq_eval_frame.specs.Slots.{slots_of};
ghost use Rattle.bq_eval_rules.specs.Acts.{Acts};
ghost use Rattle.bq_eval_rules.specs.Called.{IsCallee};
ghost use Rattle.bq_eval_rules.specs.Direct.{and_values, with_defaults};
ghost use Rattle.bq_eval_rules.specs.Effects.{Produces};
ghost use Rattle.bq_eval_rules.specs.Evaluators.{EvaluatesInside, evals_in, frame_of};
ghost use Rattle.bq_eval_rules.specs.Taking.{GoesStraight, all_taken, are_plain, begun, plain_next, put_at, straight_entry, taken, values_of};

use crate::answer::AnswerPlace;
use crate::called::{ProgramFunction, callee_of};
use crate::context::Context;
use crate::direct::{are_direct, parameter_called, take_defaults};
use crate::evaluator::Evaluator;
use crate::runtime::Runtime;
use crate::stuck::stuck;
use bq_base::EvalFault;
use bq_eval_frame::Frame;
use bq_parse_grammar::{Argument, Expr};
use bq_resolve_scope::{Formal, Function};
use bq_value::{EvalErr, Value};
use std::alloc::{AllocError, Global};

/// At most this many arguments of a call go straight into the frame.
const FEW: usize = 16;

// ---- which calls

/// Returns whether a named argument was there once a positional one has come, too, before which there was none.
fn positional_next(named: bool) -> Option<bool>
    ensures { result ≡ cond named None (Some false) }
{
    if named {
        return None;
    }
    Some(false)
}

/// Returns whether a named argument was there once this one has come, too, or `None` for one that doesn't go straight
/// into the frame.
fn plain_next(argument: &Argument, named: bool) -> Option<bool>
    ensures { result ≡ plain_next argument.now named }
{
    match argument {
        Argument::Positional(_) => positional_next(named),
        Argument::Named(_, _) => Some(true),
        Argument::Star(_) => None,
        Argument::StarStar(_) => None,
    }
}

/// Returns whether none is starred, and no positional one comes after a named one.
#[tactic(auto, unfolding(crate::specs::Taking::are_plain))]
fn are_plain(arguments: &[Argument]) -> bool
    ensures { result ≡ are_plain arguments.now false }
{
    let mut named = false;
    for argument in arguments {
        match plain_next(argument, named) {
            None => return false,
            Some(next) => named = next,
        }
    }
    true
}

/// Returns whether the arguments of a call go straight into the frame.
fn goes_straight(function: &Function, arguments: &[Argument]) -> bool
    ensures { result ≡ true → GoesStraight function.now arguments.now }
{
    if arguments.len() > FEW {
        return false;
    }
    if !are_plain(arguments) {
        return false;
    }
    are_direct(function.parameters.as_slice())
}

/// Returns the function that a value is, if the arguments of a call go straight into its frame.
pub fn straight_callee<'a, R: Runtime>(
    context: &'a Context<'a>,
    runtime: &R,
    value: &'a Value,
    arguments: &[Argument],
) -> Option<ProgramFunction<'a>>
    ensures called { IfSome result (IsCallee R.means context.now value.now) }
    ensures straight { IfSome result (λ callee. GoesStraight callee.function.now arguments.now) }
{
    match callee_of(context, runtime, value) {
        None => None,
        Some(callee) => {
            if !goes_straight(callee.function, arguments) {
                return None;
            }
            Some(callee)
        }
    }
}

// ---- what they give

/// The values of parameters, as far as arguments gave them.
#[derive(Drop)]
pub struct ParameterValues {
    values: Vec<Option<Value>>,
    /// Whether each argument went to a parameter, which had none before.
    fits: bool,
}

/// Returns no values of `count` parameters, with room for `slots` slots.
#[tactic(auto, using(bq_builtin_machine::proofs::Placing::one_less))]
fn no_values(alloc: Global, slots: usize, count: usize) -> Result<Vec<Option<Value>>, AllocError>
    ensures { IfOk result (λ vs. vs.items ≡ replicate count None) }
{
    let mut values = Vec::with_capacity(alloc, slots.max(count))?;
    while values.len() < count {
        values.push(None)?;
    }
    Ok(values)
}

impl ParameterValues {
    /// Makes the values of `count` parameters without arguments, with room for `slots` slots.
    fn new(alloc: Global, slots: usize, count: usize) -> Result<ParameterValues, AllocError>
        ensures { IfOk result (λ given. values_of given ≡ Ok (replicate count None)) }
    {
        Ok(ParameterValues {
            values: no_values(alloc, slots, count)?,
            fits: true,
        })
    }

    /// Gives an argument to the parameter of a place.
    fn put(&mut self, place: Option<usize>, value: Value)
        ensures { values_of self.new ≡ and_values (values_of self.old) (put_at place value) }
    {
        if !self.fits {
            return;
        }
        match place {
            None => self.fits = false,
            Some(i) => {
                if i >= self.values.len() || self.values[i].is_some() {
                    self.fits = false;
                    return;
                }
                self.values[i] = Some(value);
            }
        }
    }

    /// Returns the value of each parameter, or fails with F52.
    fn complete(
        self,
        parameters: &[Formal],
        defaults: &[Value],
    ) -> Result<Vec<Option<Value>>, EvalErr>
        ensures { Gives (λ vs. vs.items) Bad result (and_values (values_of self) (with_defaults 0 parameters.now defaults.now)) }
    {
        let ParameterValues { mut values, fits } = self;
        if !fits {
            return Err(EvalErr::Bad(EvalFault::Args));
        }
        take_defaults(&mut values, parameters, defaults)?;
        Ok(values)
    }
}

/// Returns the frame with which a function begins, or fails with F52.
#[tactic(auto, using(crate::proofs::Taken::begins, crate::proofs::Taken::misfits))]
fn begun<'f, R: Runtime>(
    runtime: &R,
    parameters: &[Formal],
    defaults: &[Value],
    given: ParameterValues,
) -> Result<Frame<'f>, EvalErr>
    ensures { Acts R.means slots_of result (R.seen runtime.now) (begun R.means parameters.now defaults.now (values_of given) (R.seen runtime.now)) }
{
    // The contract speaks of the state, so this reads it.
    let _ = runtime;
    let values = given.complete(parameters, defaults)?;
    Ok(Frame::of_values(values))
}

impl<
    'a,
    R: Runtime,
    C: Copy,
    F: Copy
        + Fn(&Context<'_>, usize, C, &Frame<'_>, &mut R, &Expr, &mut AnswerPlace) -> Option<i64>,
> Evaluator<'a, R, C, F> {
    /// Evaluates the argument at a place, and gives it to its parameter.
    #[inline(always)]
    fn take(
        &self,
        runtime: &mut R,
        parameters: &[Formal],
        argument: &Argument,
        place: usize,
        given: &mut ParameterValues,
    ) -> Result<(), EvalErr>
        requires { EvaluatesInside R.means R.seen self.now F.pre F.post }
        ensures { Produces R.means R.seen (values_of given.new) (taken R.means parameters.now (evals_in R.means self.now) argument.now (frame_of self.now) place (values_of given.old)) runtime.old result runtime.new }
    {
        match argument {
            Argument::Positional(code) => {
                let value = self.value(runtime, code)?;
                given.put(Some(place), value);
                Ok(())
            }
            Argument::Named(name, code) => {
                let value = self.value(runtime, code)?;
                given.put(parameter_called(parameters, name.as_slice()), value);
                Ok(())
            }
            Argument::Star(_) => Err(stuck()),
            Argument::StarStar(_) => Err(stuck()),
        }
    }

    /// Evaluates all these arguments, and gives each to its parameter.
    #[inline(always)]
    #[tactic(auto, unfolding(crate::specs::Taking::all_taken))]
    fn take_all(
        &self,
        runtime: &mut R,
        parameters: &[Formal],
        arguments: &[Argument],
        given: &mut ParameterValues,
    ) -> Result<(), EvalErr>
        requires { EvaluatesInside R.means R.seen self.now F.pre F.post }
        ensures { Produces R.means R.seen (values_of given.new) (all_taken R.means parameters.now (evals_in R.means self.now) arguments.now (frame_of self.now) 0 (values_of given.old)) runtime.old result runtime.new }
    {
        for (place, argument) in arguments.iter().enumerate() {
            self.take(runtime, parameters, argument, place, given)?;
        }
        Ok(())
    }

    /// Returns the frame with which a function begins whose arguments these are.
    #[inline(always)]
    #[tactic(auto, unfolding(crate::specs::Taking::straight_entry))]
    pub fn straight_frame<'f>(
        &self,
        runtime: &mut R,
        callee: &ProgramFunction<'_>,
        arguments: &[Argument],
    ) -> Result<Frame<'f>, EvalErr>
        requires { EvaluatesInside R.means R.seen self.now F.pre F.post }
        ensures { Acts R.means slots_of result (R.seen runtime.new) (straight_entry R.means callee.now.function.now.parameters (evals_in R.means self.now) callee.now.called.now.defaults.items arguments.now (frame_of self.now) (R.seen runtime.old)) }
    {
        let parameters = callee.function.parameters.as_slice();
        let mut given = ParameterValues::new(
            self.context.alloc,
            callee.function.slots,
            parameters.len(),
        )?;
        self.take_all(runtime, parameters, arguments, &mut given)?;
        begun(
            &*runtime,
            parameters,
            callee.called.defaults.as_slice(),
            given,
        )
    }
}
