//! Suffixes of operands: indices, slices and calls.

ghost use Rattle.std.specs.Prelude.{◌≡◌, Some};
ghost use Rattle.bq_builtin_machine.specs.Action.{◌>>=◌ as and_then};
ghost use Rattle.bq_eval_spec.specs.Expressions as meaning;
ghost use Rattle.bq_eval_spec.specs.Slots.{by_slots};
ghost use Rattle.bq_eval_rules.specs.Answers.{answer_of};
ghost use Rattle.bq_eval_rules.specs.Called.{IsCallee};
ghost use Rattle.bq_eval_rules.specs.Nests.{AnswersCalls};
ghost use Rattle.bq_eval_rules.specs.Effects.{Returns, Produces};
ghost use Rattle.bq_eval_rules.specs.Taking.{GoesStraight};
ghost use Rattle.bq_eval_rules.specs.Evaluators.{EvaluatesInside, evals_in, calls_in, round_in, frame_of, value_inside};

use crate::answer::{AnswerPlace, failed, new_place, placed, settled, unboxed};
use crate::called::{Called, ProgramFunction};
use crate::context::Context;
use crate::evaluator::Evaluator;
use crate::runtime::Runtime;
use crate::stuck::stuck;
use crate::taking::straight_callee;
use bq_base::Bytes;
use bq_builtin_machine::Args;
use bq_eval_frame::Frame;
use bq_parse_grammar::{Argument, Boxed, Expr, Referent, Suffix};
use bq_predeclared::Predeclared;
use bq_value::{EvalErr, Value};

impl<
    'a,
    R: Runtime,
    C: Copy,
    F: Copy
        + Fn(&Context<'_>, usize, C, &Frame<'_>, &mut R, &Expr, &mut AnswerPlace) -> Option<i64>,
> Evaluator<'a, R, C, F> {
    /// Applies `value[index]`. The index is only read.
    #[inline(never)]
    #[tactic(auto, unfolding(bq_eval_spec::specs::Expressions::index))]
    fn index(
        &self,
        runtime: &mut R,
        index: &Expr,
        value: &Value,
        out: &mut AnswerPlace,
    ) -> Option<i64>
        requires { EvaluatesInside R.means R.seen self.now F.pre F.post }
        ensures { Returns R.means R.seen (meaning.index R.means (evals_in R.means self.now) index.now (frame_of self.now) value.now) runtime.old (answer_of result out.new) runtime.new }
    {
        match self.operand(runtime, index) {
            Err(why) => failed(out, why),
            Ok(index) => {
                let outcome = runtime.index(value, index.get());
                unboxed(out, outcome)
            }
        }
    }

    /// Evaluates a part of a slice.
    #[tactic(auto, unfolding(bq_eval_spec::specs::Expressions::part))]
    fn part(&self, runtime: &mut R, part: &Option<Boxed<Expr>>) -> Result<Value, EvalErr>
        requires { EvaluatesInside R.means R.seen self.now F.pre F.post }
        ensures { Returns R.means R.seen (meaning.part R.means (evals_in R.means self.now) part.now (frame_of self.now)) runtime.old result runtime.new }
    {
        match part {
            None => Ok(Value::none()),
            Some(code) => self.value(runtime, code.get()),
        }
    }

    /// Applies `value[start:stop:step]`.
    #[inline(never)]
    #[tactic(auto, unfolding(bq_eval_spec::specs::Expressions::slice))]
    fn slice(
        &self,
        runtime: &mut R,
        start: &Option<Boxed<Expr>>,
        stop: &Option<Boxed<Expr>>,
        step: &Option<Boxed<Expr>>,
        value: &Value,
    ) -> Result<Value, EvalErr>
        requires { EvaluatesInside R.means R.seen self.now F.pre F.post }
        ensures { Returns R.means R.seen (meaning.slice R.means (evals_in R.means self.now) start.now stop.now step.now (frame_of self.now) value.now) runtime.old result runtime.new }
    {
        let start = self.part(runtime, start)?;
        let stop = self.part(runtime, stop)?;
        let step = self.part(runtime, step)?;
        runtime.slice(value, &start, &stop, &step)
    }

    /// Evaluates and passes an argument.
    #[tactic(auto, unfolding(bq_eval_spec::specs::Expressions::argument))]
    fn argument(&self, runtime: &mut R, args: &mut Args, argument: &Argument) -> Result<(), EvalErr>
        requires { EvaluatesInside R.means R.seen self.now F.pre F.post }
        ensures { Produces R.means R.seen args.new (meaning.argument R.means (evals_in R.means self.now) argument.now (frame_of self.now) args.old) runtime.old result runtime.new }
    {
        match argument {
            Argument::Positional(code) => {
                let value = self.value(runtime, code)?;
                runtime.pass(args, value)
            }
            Argument::Named(name, code) => {
                let value = self.value(runtime, code)?;
                runtime.pass_named(args, name, value)
            }
            Argument::Star(code) => {
                let value = self.value(runtime, code)?;
                runtime.pass_all(args, &value)
            }
            Argument::StarStar(code) => {
                let value = self.value(runtime, code)?;
                runtime.pass_all_named(args, &value)
            }
        }
    }

    /// Evaluates and passes all these arguments, after those so far.
    #[tactic(auto, unfolding(bq_eval_spec::specs::Expressions::arguments))]
    fn arguments(
        &self,
        runtime: &mut R,
        args: &mut Args,
        arguments: &[Argument],
    ) -> Result<(), EvalErr>
        requires { EvaluatesInside R.means R.seen self.now F.pre F.post }
        ensures { Produces R.means R.seen args.new (meaning.arguments R.means (evals_in R.means self.now) arguments.now (frame_of self.now) args.old) runtime.old result runtime.new }
    {
        for argument in arguments {
            self.argument(runtime, args, argument)?;
        }
        Ok(())
    }

    /// Applies `value.name(..)`.
    #[inline(never)]
    #[tactic(auto, unfolding(bq_eval_spec::specs::Expressions::method))]
    fn method(
        &self,
        runtime: &mut R,
        name: &Bytes,
        arguments: &[Argument],
        value: &Value,
        out: &mut AnswerPlace,
    ) -> Option<i64>
        requires { EvaluatesInside R.means R.seen self.now F.pre F.post }
        ensures { Returns R.means R.seen (meaning.method R.means (evals_in R.means self.now) name.now arguments.now (frame_of self.now) value.now) runtime.old (answer_of result out.new) runtime.new }
    {
        let mut args = Args::new(self.context.alloc);
        match self.arguments(runtime, &mut args, arguments) {
            Err(why) => failed(out, why),
            Ok(()) => {
                let outcome = runtime.call_method(self.context.alloc, name, value, args);
                unboxed(out, outcome)
            }
        }
    }
}

impl<
    'a,
    R: Runtime,
    C: Copy + Fn(&Context<'_>, &mut R, Called<'_>) -> Result<Value, EvalErr>,
    F: Copy
        + Fn(&Context<'_>, usize, C, &Frame<'_>, &mut R, &Expr, &mut AnswerPlace) -> Option<i64>,
> Evaluator<'a, R, C, F> {
    /// Applies `value(..)`, where the arguments are passed one after another.
    #[inline(always)]
    #[tactic(auto, unfolding(bq_eval_spec::specs::Expressions::call_of))]
    fn call_listed(
        &self,
        runtime: &mut R,
        arguments: &[Argument],
        value: &Value,
        out: &mut AnswerPlace,
    ) -> Option<i64>
        requires nests { EvaluatesInside R.means R.seen self.now F.pre F.post }
        requires answers { AnswersCalls R.means R.seen self.now.context.now self.now.call C.pre C.post }
        ensures { Returns R.means R.seen (meaning.call_of R.means (evals_in R.means self.now) (calls_in R.means self.now) arguments.now (frame_of self.now) value.now) runtime.old (answer_of result out.new) runtime.new }
    {
        let mut args = Args::new(self.context.alloc);
        match self.arguments(runtime, &mut args, arguments) {
            Err(why) => failed(out, why),
            Ok(()) => {
                let outcome = (self.call)(self.context, runtime, Called::Value(&*value, args));
                unboxed(out, outcome)
            }
        }
    }

    /// Applies `value(..)`, where the arguments go straight into the frame of the function.
    #[inline(always)]
    fn call_straight(
        &self,
        runtime: &mut R,
        arguments: &[Argument],
        value: &Value,
        callee: ProgramFunction<'_>,
        out: &mut AnswerPlace,
    ) -> Option<i64>
        requires nests { EvaluatesInside R.means R.seen self.now F.pre F.post }
        requires answers { AnswersCalls R.means R.seen self.now.context.now self.now.call C.pre C.post }
        requires called { IsCallee R.means self.now.context.now value.now callee }
        requires straight { GoesStraight callee.function.now arguments.now }
        ensures { Returns R.means R.seen (meaning.call_of R.means (evals_in R.means self.now) (calls_in R.means self.now) arguments.now (frame_of self.now) value.now) runtime.old (answer_of result out.new) runtime.new }
    {
        // The contract speaks of the value, so this has it.
        let _ = value;
        match self.straight_frame(runtime, &callee, arguments) {
            Err(why) => failed(out, why),
            Ok(frame) => {
                let outcome = (self.call)(self.context, runtime, Called::Entered(callee, frame));
                unboxed(out, outcome)
            }
        }
    }

    /// Applies `value(..)`.
    #[inline(never)]
    fn call_of(
        &self,
        runtime: &mut R,
        arguments: &[Argument],
        value: &Value,
        out: &mut AnswerPlace,
    ) -> Option<i64>
        requires nests { EvaluatesInside R.means R.seen self.now F.pre F.post }
        requires answers { AnswersCalls R.means R.seen self.now.context.now self.now.call C.pre C.post }
        ensures { Returns R.means R.seen (meaning.call_of R.means (evals_in R.means self.now) (calls_in R.means self.now) arguments.now (frame_of self.now) value.now) runtime.old (answer_of result out.new) runtime.new }
    {
        match straight_callee(self.context, &*runtime, &*value, arguments) {
            Some(callee) => self.call_straight(runtime, arguments, value, callee, out),
            None => self.call_listed(runtime, arguments, value, out),
        }
    }

    /// Applies a suffix to a value.
    #[inline(always)]
    #[tactic(auto, unfolding(bq_eval_spec::specs::Expressions::suffix))]
    fn suffix(
        &self,
        runtime: &mut R,
        suffix: &Suffix,
        value: &Value,
        out: &mut AnswerPlace,
    ) -> Option<i64>
        requires nests { EvaluatesInside R.means R.seen self.now F.pre F.post }
        requires answers { AnswersCalls R.means R.seen self.now.context.now self.now.call C.pre C.post }
        ensures { Returns R.means R.seen (meaning.suffix R.means (evals_in R.means self.now) (calls_in R.means self.now) suffix.now (frame_of self.now) value.now) runtime.old (answer_of result out.new) runtime.new }
    {
        match suffix {
            Suffix::Call(arguments) => self.call_of(runtime, arguments.as_slice(), value, out),
            Suffix::Method(name, arguments) => {
                self.method(runtime, &name.name, arguments.as_slice(), value, out)
            }
            Suffix::Attribute(_) => failed(out, stuck()),
            Suffix::Index(index) => self.index(runtime, index.get(), value, out),
            Suffix::Slice(start, stop, step) => {
                let outcome = self.slice(runtime, start, stop, step, value);
                placed(out, outcome)
            }
        }
    }

    /// Applies a suffix to a value, and returns the result whole.
    #[inline(never)]
    fn suffix_value(
        &self,
        runtime: &mut R,
        suffix: &Suffix,
        value: &Value,
    ) -> Result<Value, EvalErr>
        requires nests { EvaluatesInside R.means R.seen self.now F.pre F.post }
        requires answers { AnswersCalls R.means R.seen self.now.context.now self.now.call C.pre C.post }
        ensures { Returns R.means R.seen (meaning.suffix R.means (evals_in R.means self.now) (calls_in R.means self.now) suffix.now (frame_of self.now) value.now) runtime.old result runtime.new }
    {
        let mut out = new_place();
        let given = self.suffix(runtime, suffix, value, &mut out);
        settled(given, out)
    }

    #[tactic(auto, unfolding(bq_eval_spec::specs::Expressions::suffixes))]
    fn suffixes(&self, runtime: &mut R, suffixes: &[Suffix], first: Value) -> Result<Value, EvalErr>
        requires nests { EvaluatesInside R.means R.seen self.now F.pre F.post }
        requires answers { AnswersCalls R.means R.seen self.now.context.now self.now.call C.pre C.post }
        ensures { Returns R.means R.seen (meaning.suffixes R.means (evals_in R.means self.now) (calls_in R.means self.now) suffixes.now (frame_of self.now) first) runtime.old result runtime.new }
    {
        let mut value = first;
        for suffix in suffixes {
            value = self.suffix_value(runtime, suffix, &value)?;
        }
        Ok(value)
    }

    /// Applies any number of suffixes to an operand.
    #[inline(never)]
    #[tactic(auto, unfolding(bq_eval_spec::specs::Expressions::suffixes))]
    fn long_suffixed(
        &self,
        runtime: &mut R,
        suffixes: &[Suffix],
        operand: &Value,
    ) -> Result<Value, EvalErr>
        requires nests { EvaluatesInside R.means R.seen self.now F.pre F.post }
        requires answers { AnswersCalls R.means R.seen self.now.context.now self.now.call C.pre C.post }
        ensures { Returns R.means R.seen (meaning.suffixes R.means (evals_in R.means self.now) (calls_in R.means self.now) suffixes.now (frame_of self.now) operand.now) runtime.old result runtime.new }
    {
        match suffixes {
            [] => Ok(operand.share()?),
            [suffix, rest @ ..] => {
                let value = self.suffix_value(runtime, suffix, operand)?;
                self.suffixes(runtime, rest, value)
            }
        }
    }

    /// Applies suffixes to an operand. Most often it is one.
    #[inline(always)]
    #[tactic(auto, unfolding(bq_eval_spec::specs::Expressions::suffixes))]
    fn all_suffixes(
        &self,
        runtime: &mut R,
        suffixes: &[Suffix],
        operand: &Value,
        out: &mut AnswerPlace,
    ) -> Option<i64>
        requires nests { EvaluatesInside R.means R.seen self.now F.pre F.post }
        requires answers { AnswersCalls R.means R.seen self.now.context.now self.now.call C.pre C.post }
        ensures { Returns R.means R.seen (meaning.suffixes R.means (evals_in R.means self.now) (calls_in R.means self.now) suffixes.now (frame_of self.now) operand.now) runtime.old (answer_of result out.new) runtime.new }
    {
        match suffixes {
            [suffix] => self.suffix(runtime, suffix, operand, out),
            _ => {
                let outcome = self.long_suffixed(runtime, suffixes, operand);
                unboxed(out, outcome)
            }
        }
    }

    /// Evaluates an operand, which is only read, and its suffixes.
    #[inline(always)]
    fn operand_suffixed(
        &self,
        runtime: &mut R,
        code: &Expr,
        suffixes: &[Suffix],
        out: &mut AnswerPlace,
    ) -> Option<i64>
        requires nests { EvaluatesInside R.means R.seen self.now F.pre F.post }
        requires answers { AnswersCalls R.means R.seen self.now.context.now self.now.call C.pre C.post }
        ensures { Returns R.means R.seen (and_then (value_inside R.means self.now code.now) (meaning.suffixes R.means (evals_in R.means self.now) (calls_in R.means self.now) suffixes.now (frame_of self.now))) runtime.old (answer_of result out.new) runtime.new }
    {
        match self.operand(runtime, code) {
            Err(why) => failed(out, why),
            Ok(operand) => self.all_suffixes(runtime, suffixes, operand.get(), out),
        }
    }

    /// Takes the steps of suffixes, and evaluates their operand and them.
    #[inline(always)]
    #[tactic(auto, unfolding(bq_eval_spec::specs::Expressions::operand))]
    fn suffixed(
        &self,
        runtime: &mut R,
        code: &Expr,
        suffixes: &[Suffix],
        out: &mut AnswerPlace,
    ) -> Option<i64>
        requires nests { EvaluatesInside R.means R.seen self.now F.pre F.post }
        requires answers { AnswersCalls R.means R.seen self.now.context.now self.now.call C.pre C.post }
        ensures { Returns R.means R.seen (meaning.operand R.means (evals_in R.means self.now) (calls_in R.means self.now) code.now suffixes.now (frame_of self.now)) runtime.old (answer_of result out.new) runtime.new }
    {
        match runtime.step(suffixes.len() as u64) {
            Err(why) => failed(out, why),
            Ok(()) => self.operand_suffixed(runtime, code, suffixes, out),
        }
    }

    /// Calls a member of a namespace, and applies these suffixes to the result.
    #[inline(never)]
    #[tactic(auto, unfolding(bq_eval_spec::specs::Expressions::call_member))]
    fn call_member(
        &self,
        runtime: &mut R,
        member: Predeclared,
        arguments: &[Argument],
        suffixes: &[Suffix],
    ) -> Result<Value, EvalErr>
        requires nests { EvaluatesInside R.means R.seen self.now F.pre F.post }
        requires answers { AnswersCalls R.means R.seen self.now.context.now self.now.call C.pre C.post }
        ensures { Returns R.means R.seen (meaning.call_member R.means (evals_in R.means self.now) (calls_in R.means self.now) (Some member) arguments.now suffixes.now (frame_of self.now)) runtime.old result runtime.new }
    {
        runtime.step(suffixes.len() as u64 + 1)?;
        let function = runtime.predeclared(member)?;
        let mut out = new_place();
        let given = self.call_of(runtime, arguments, &function, &mut out);
        let value = settled(given, out)?;
        self.suffixes(runtime, suffixes, value)
    }

    /// Evaluates an operand with suffixes: a call of a namespace's member is one.
    #[inline(always)]
    #[tactic(auto, unfolding(bq_eval_spec::specs::Expressions::primary))]
    pub fn primary(
        &self,
        runtime: &mut R,
        code: &Expr,
        suffixes: &[Suffix],
        out: &mut AnswerPlace,
    ) -> Option<i64>
        requires nests { EvaluatesInside R.means R.seen self.now F.pre F.post }
        requires answers { AnswersCalls R.means R.seen self.now.context.now self.now.call C.pre C.post }
        ensures { Returns R.means R.seen (meaning.primary R.means by_slots (evals_in R.means self.now) (calls_in R.means self.now) (round_in self.now) code.now suffixes.now (frame_of self.now)) runtime.old (answer_of result out.new) runtime.new }
    {
        if let Expr::Name(name) = code {
            if let Referent::Member(member) = name.referent {
                if let [first, rest @ ..] = suffixes {
                    if let Suffix::Method(_, arguments) = first {
                        let outcome = self.call_member(runtime, member, arguments.as_slice(), rest);
                        return unboxed(out, outcome);
                    }
                }
            }
        }
        self.suffixed(runtime, code, suffixes, out)
    }
}
