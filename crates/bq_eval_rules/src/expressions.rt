//! Expressions.

ghost use Rattle.std.specs.Prelude.{◌≡◌};
ghost use Rattle.bq_eval_spec.specs.Expressions as meaning;
ghost use Rattle.bq_eval_spec.specs.Slots.{by_slots};
ghost use Rattle.bq_eval_frame.specs.Slots.{slots_of};
ghost use Rattle.bq_eval_rules.specs.Answers.{answer_of};
ghost use Rattle.bq_eval_rules.specs.Nests.{nested, AnswersCalls};
ghost use Rattle.bq_eval_rules.specs.Effects.{Returns};
ghost use Rattle.bq_eval_rules.specs.Evaluators.{EvaluatesInside, evals_in, calls_in, round_in, frame_of};
ghost use Rattle.bq_eval_rules.specs.Expressions.{HasNoChoice, HasNoSuffix, IsNoChain};

use crate::answer::{AnswerPlace, failed, unboxed};
use crate::called::Called;
use crate::context::Context;
use crate::evaluator::Evaluator;
use crate::operand::{literal, string_leaf, use_of};
use crate::runtime::Runtime;
use crate::stuck::stuck;
use bq_eval_frame::Frame;
use bq_parse_grammar::Expr;
use bq_value::{EvalErr, Value};
use std::marker::PhantomData;

/// Evaluates an expression that is at most `depth` layers deep.
#[inline(always)]
#[tactic(auto, unfolding(bq_eval_spec::specs::Expressions::expr_to))]
pub fn expr_to<
    R: Runtime,
    C: Copy + Fn(&Context<'_>, &mut R, Called<'_>) -> Result<Value, EvalErr>,
>(
    context: &Context<'_>,
    depth: usize,
    call: C,
    frame: &Frame<'_>,
    runtime: &mut R,
    code: &Expr,
    out: &mut AnswerPlace,
) -> Option<i64>
    requires { AnswersCalls R.means R.seen context.now call C.pre C.post }
    ensures { Returns R.means R.seen (nested R.means depth context.now code.now (slots_of frame.now)) runtime.old (answer_of result out.new) runtime.new }
{
    if depth == 0 {
        return failed(out, stuck());
    }
    // PROOF: lends both again.
    Evaluator {
        context: &*context,
        frame: &*frame,
        depth: depth - 1,
        call,
        eval: expr_to::<R, C>,
        of: PhantomData,
    }
    .expr(runtime, code, out)
}

impl<
    'a,
    R: Runtime,
    C: Copy + Fn(&Context<'_>, &mut R, Called<'_>) -> Result<Value, EvalErr>,
    F: Copy
        + Fn(&Context<'_>, usize, C, &Frame<'_>, &mut R, &Expr, &mut AnswerPlace) -> Option<i64>,
> Evaluator<'a, R, C, F> {
    /// Evaluates an expression of another form than those that `expr` looks for, and returns its value whole.
    #[tactic(auto, unfolding(bq_eval_spec::specs::Expressions::expr))]
    fn whole(&self, runtime: &mut R, code: &Expr) -> Result<Value, EvalErr>
        requires no_chain { IsNoChain code.now }
        requires no_suffix { HasNoSuffix code.now }
        requires no_choice { HasNoChoice code.now }
        requires nests { EvaluatesInside R.means R.seen self.now F.pre F.post }
        requires answers { AnswersCalls R.means R.seen self.now.context.now self.now.call C.pre C.post }
        ensures { Returns R.means R.seen (meaning.expr R.means by_slots (evals_in R.means self.now) (calls_in R.means self.now) (round_in self.now) code.now (frame_of self.now)) runtime.old result runtime.new }
    {
        match code {
            Expr::Name(name) => { Ok(use_of(self.context, self.frame, runtime, name)?.own()?) }
            Expr::Int(n) => literal(runtime, Value::int(*n)),
            Expr::String(text) => string_leaf(runtime, text),
            Expr::List(codes) => self.list_display(runtime, codes.as_slice()),
            Expr::Tuple(codes) => self.tuple_display(runtime, codes.as_slice()),
            Expr::Dict(pairs) => self.dict_display(runtime, pairs.as_slice()),
            Expr::ListComprehension(item, clauses, frame) => {
                self.list_comprehension(runtime, item.get(), clauses.get().as_slice(), *frame)
            }
            Expr::DictComprehension(pair, clauses, frame) => {
                self.dict_comprehension(runtime, pair.get(), clauses.get().as_slice(), *frame)
            }
            Expr::Unary(operators, code) => {
                self.unary(runtime, operators.as_slice(), code.get())
            }
            Expr::Primary(_, _) => unreachable!(),
            Expr::Binary(_, _) => unreachable!(),
            Expr::Compare(left, operator, right) => {
                self.compare(runtime, left.get(), *operator, right.get())
            }
            Expr::Conditional(_, _) => unreachable!(),
            Expr::Lambda => Err(stuck()),
        }
    }

    /// Evaluates an expression of another form than those that `expr` looks for.
    #[inline(never)]
    fn other(&self, runtime: &mut R, code: &Expr, out: &mut AnswerPlace) -> Option<i64>
        requires no_chain { IsNoChain code.now }
        requires no_suffix { HasNoSuffix code.now }
        requires no_choice { HasNoChoice code.now }
        requires nests { EvaluatesInside R.means R.seen self.now F.pre F.post }
        requires answers { AnswersCalls R.means R.seen self.now.context.now self.now.call C.pre C.post }
        ensures { Returns R.means R.seen (meaning.expr R.means by_slots (evals_in R.means self.now) (calls_in R.means self.now) (round_in self.now) code.now (frame_of self.now)) runtime.old (answer_of result out.new) runtime.new }
    {
        let outcome = self.whole(runtime, code);
        unboxed(out, outcome)
    }

    /// Evaluates an expression. Forms whose values are often integers, or found in place, are looked for first.
    #[inline(never)]
    pub fn expr(&self, runtime: &mut R, code: &Expr, out: &mut AnswerPlace) -> Option<i64>
        requires nests { EvaluatesInside R.means R.seen self.now F.pre F.post }
        requires answers { AnswersCalls R.means R.seen self.now.context.now self.now.call C.pre C.post }
        ensures { Returns R.means R.seen (meaning.expr R.means by_slots (evals_in R.means self.now) (calls_in R.means self.now) (round_in self.now) code.now (frame_of self.now)) runtime.old (answer_of result out.new) runtime.new }
    {
        match code {
            Expr::Binary(code, operations) => {
                self.binary(runtime, code.get(), operations.as_slice(), out)
            }
            Expr::Primary(code, suffixes) => {
                self.primary(runtime, code.get(), suffixes.as_slice(), out)
            }
            Expr::Conditional(choices, otherwise) => {
                self.conditional(runtime, choices.as_slice(), otherwise.get(), out)
            }
            _ => self.other(runtime, code, out),
        }
    }
}
