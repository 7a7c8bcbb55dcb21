//! Conditions: whether the value of an expression counts as true. Most are comparisons.

ghost use Rattle.std.specs.Prelude.{◌≡◌};
ghost use Rattle.bq_value.specs.Datum.{int};
ghost use Rattle.bq_builtin_machine.specs.Action.{◌>>=◌ as and_then};
ghost use Rattle.bq_eval_spec.specs.Expressions as meaning;
ghost use Rattle.bq_eval_rules.specs.Answers.{or_reason};
ghost use Rattle.bq_eval_rules.specs.Conditions.{decision, truth_of};
ghost use Rattle.bq_eval_rules.specs.Effects.{Returns, ReturnsOn};
ghost use Rattle.bq_eval_rules.specs.Evaluators.{EvaluatesInside, evals_in, frame_of, value_inside};

use crate::answer::{AnswerPlace, taken, undecided};
use crate::context::Context;
use crate::evaluator::Evaluator;
use crate::runtime::Runtime;
use bq_eval_frame::Frame;
use bq_parse_grammar::{Comparison, Expr};
use bq_value::Value;
use std::marker::PhantomData;

/// Says whether a value that is lent counts as true. Its use takes a step.
#[inline(never)]
#[tactic(auto, unfolding(bq_eval_spec::specs::Expressions::literal))]
fn lent_holds<R: Runtime>(runtime: &mut R, value: &Value, out: &mut AnswerPlace) -> Option<bool>
    ensures { Returns R.means R.seen (decision R.means (meaning.literal R.means value.now)) runtime.old (or_reason result out.new) runtime.new }
{
    match runtime.step(1) {
        Err(why) => undecided(out, why),
        Ok(()) => Some(runtime.truth(value)),
    }
}

/// Returns whether an integer counts as true.
#[inline(always)]
fn int_holds<R: Runtime>(runtime: &R, n: i64) -> bool
    ensures { result ≡ R.means.truth (int n) (R.seen runtime.now) }
{
    let value = Value::int(n);
    runtime.truth(&value)
}

/// Says whether the value that lies there counts as true.
#[inline(never)]
fn holds_there<R: Runtime>(runtime: &R, out: &mut AnswerPlace) -> Option<bool>
    ensures { ReturnsOn R.means R.seen out.old (truth_of R.means) runtime.now (or_reason result out.new) runtime.now }
{
    match taken(out) {
        None => None,
        Some(value) => Some(runtime.truth(&value)),
    }
}

/// Says whether two values compare so.
#[inline(always)]
fn compared<R: Runtime>(
    runtime: &mut R,
    operator: Comparison,
    left: &Value,
    right: &Value,
    out: &mut AnswerPlace,
) -> Option<bool>
    ensures { Returns R.means R.seen (decision R.means (R.means.compare operator left.now right.now)) runtime.old (or_reason result out.new) runtime.new }
{
    match runtime.compare(operator, left, right) {
        Err(why) => undecided(out, why),
        Ok(value) => Some(runtime.truth(&value)),
    }
}

/// Says whether two integers compare so.
#[inline(always)]
fn ints_compared<R: Runtime>(
    runtime: &mut R,
    operator: Comparison,
    x: i64,
    y: i64,
    out: &mut AnswerPlace,
) -> Option<bool>
    ensures { Returns R.means R.seen (decision R.means (R.means.compare operator (int x) (int y))) runtime.old (or_reason result out.new) runtime.new }
{
    let left = Value::int(x);
    let right = Value::int(y);
    compared(runtime, operator, &left, &right, out)
}

/// Says whether an integer and the value that lies there compare so.
#[inline(never)]
fn int_compared_there<R: Runtime>(
    runtime: &mut R,
    operator: Comparison,
    x: i64,
    out: &mut AnswerPlace,
) -> Option<bool>
    ensures { ReturnsOn R.means R.seen out.old (λ w. decision R.means (R.means.compare operator (int x) w)) runtime.old (or_reason result out.new) runtime.new }
{
    match taken(out) {
        None => None,
        Some(right) => {
            let left = Value::int(x);
            compared(runtime, operator, &left, &right, out)
        }
    }
}

impl<
    'a,
    R: Runtime,
    C: Copy,
    F: Copy
        + Fn(&Context<'_>, usize, C, &Frame<'_>, &mut R, &Expr, &mut AnswerPlace) -> Option<i64>,
> Evaluator<'a, R, C, F> {
    /// Says whether a value and that of the right side compare so.
    #[inline(always)]
    fn compared_to(
        &self,
        runtime: &mut R,
        left: &Value,
        operator: Comparison,
        right: &Expr,
        out: &mut AnswerPlace,
    ) -> Option<bool>
        requires { EvaluatesInside R.means R.seen self.now F.pre F.post }
        ensures { Returns R.means R.seen (decision R.means (and_then (value_inside R.means self.now right.now) (R.means.compare operator left.now))) runtime.old (or_reason result out.new) runtime.new }
    {
        match self.operand(runtime, right) {
            Err(why) => undecided(out, why),
            Ok(right) => compared(runtime, operator, left, right.get(), out),
        }
    }

    /// Says whether a value that is lent and that of the right side compare so. Its use takes a step.
    #[inline(never)]
    #[tactic(auto, unfolding(bq_eval_spec::specs::Expressions::literal))]
    fn lent_compared_to(
        &self,
        runtime: &mut R,
        left: &Value,
        operator: Comparison,
        right: &Expr,
        out: &mut AnswerPlace,
    ) -> Option<bool>
        requires { EvaluatesInside R.means R.seen self.now F.pre F.post }
        ensures { Returns R.means R.seen (decision R.means (and_then (meaning.literal R.means left.now) (λ v. and_then (value_inside R.means self.now right.now) (R.means.compare operator v)))) runtime.old (or_reason result out.new) runtime.new }
    {
        match runtime.step(1) {
            Err(why) => undecided(out, why),
            Ok(()) => self.compared_to(runtime, left, operator, right, out),
        }
    }

    /// Says whether the value that lies there and that of the right side compare so.
    #[inline(never)]
    fn compared_there(
        &self,
        runtime: &mut R,
        operator: Comparison,
        right: &Expr,
        out: &mut AnswerPlace,
    ) -> Option<bool>
        requires { EvaluatesInside R.means R.seen self.now F.pre F.post }
        ensures { ReturnsOn R.means R.seen out.old (λ v. decision R.means (and_then (value_inside R.means self.now right.now) (R.means.compare operator v))) runtime.old (or_reason result out.new) runtime.new }
    {
        match taken(out) {
            None => None,
            Some(left) => self.compared_to(runtime, &left, operator, right, out),
        }
    }

    /// Says whether an integer and the value of the right side compare so.
    #[inline(always)]
    fn int_compared_to(
        &self,
        runtime: &mut R,
        x: i64,
        operator: Comparison,
        right: &Expr,
        out: &mut AnswerPlace,
    ) -> Option<bool>
        requires { EvaluatesInside R.means R.seen self.now F.pre F.post }
        ensures { Returns R.means R.seen (decision R.means (and_then (value_inside R.means self.now right.now) (R.means.compare operator (int x)))) runtime.old (or_reason result out.new) runtime.new }
    {
        match self.evaluate(runtime, right, out) {
            Some(y) => ints_compared(runtime, operator, x, y, out),
            None => int_compared_there(runtime, operator, x, out),
        }
    }

    /// Says whether the values of two sides compare so.
    #[inline(always)]
    fn sides_compared(
        &self,
        runtime: &mut R,
        left: &Expr,
        operator: Comparison,
        right: &Expr,
        out: &mut AnswerPlace,
    ) -> Option<bool>
        requires { EvaluatesInside R.means R.seen self.now F.pre F.post }
        ensures { Returns R.means R.seen (decision R.means (and_then (value_inside R.means self.now left.now) (λ v. and_then (value_inside R.means self.now right.now) (R.means.compare operator v)))) runtime.old (or_reason result out.new) runtime.new }
    {
        if let Some(value) = self.lent_leaf(&*runtime, left) {
            return self.lent_compared_to(runtime, value, operator, right, out);
        }
        match self.evaluate(runtime, left, out) {
            Some(x) => self.int_compared_to(runtime, x, operator, right, out),
            None => self.compared_there(runtime, operator, right, out),
        }
    }

    /// Evaluates a comparison, as a condition.
    #[inline(always)]
    #[tactic(auto, unfolding(bq_eval_spec::specs::Expressions::compare))]
    fn compare_holds(
        &self,
        runtime: &mut R,
        left: &Expr,
        operator: Comparison,
        right: &Expr,
        out: &mut AnswerPlace,
    ) -> Option<bool>
        requires { EvaluatesInside R.means R.seen self.now F.pre F.post }
        ensures { Returns R.means R.seen (decision R.means (meaning.compare R.means (evals_in R.means self.now) left.now operator right.now (frame_of self.now))) runtime.old (or_reason result out.new) runtime.new }
    {
        match runtime.step(1) {
            Err(why) => undecided(out, why),
            Ok(()) => self.sides_compared(runtime, left, operator, right, out),
        }
    }

    /// Evaluates a condition that is no comparison.
    #[inline(always)]
    fn value_holds(&self, runtime: &mut R, condition: &Expr, out: &mut AnswerPlace) -> Option<bool>
        requires { EvaluatesInside R.means R.seen self.now F.pre F.post }
        ensures { Returns R.means R.seen (decision R.means (value_inside R.means self.now condition.now)) runtime.old (or_reason result out.new) runtime.new }
    {
        if let Some(value) = self.lent_leaf(&*runtime, condition) {
            return lent_holds(runtime, value, out);
        }
        match self.evaluate(runtime, condition, out) {
            Some(n) => Some(int_holds(&*runtime, n)),
            None => holds_there(&*runtime, out),
        }
    }

    /// Evaluates a condition.
    #[inline(always)]
    pub fn holds(&self, runtime: &mut R, condition: &Expr, out: &mut AnswerPlace) -> Option<bool>
        requires { EvaluatesInside R.means R.seen self.now F.pre F.post }
        ensures { Returns R.means R.seen (decision R.means (value_inside R.means self.now condition.now)) runtime.old (or_reason result out.new) runtime.new }
    {
        if self.depth > 0 {
            if let Expr::Compare(left, operator, right) = condition {
                let inner = Evaluator {
                    context: self.context,
                    frame: self.frame,
                    depth: self.depth - 1,
                    call: self.call,
                    eval: self.eval,
                    of: PhantomData,
                };
                return inner.compare_holds(runtime, left.get(), *operator, right.get(), out);
            }
        }
        self.value_holds(runtime, condition, out)
    }
}
