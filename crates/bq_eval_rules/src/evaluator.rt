//! The rules at one depth. Each rule takes what evaluates the expressions inside, so that it is proved by itself.

ghost use Rattle.std.specs.Prelude.{◌≡◌, IfSome};
ghost use Rattle.bq_value.specs.Datum.{int};
ghost use Rattle.bq_eval_spec.specs.Expressions.{literal};
ghost use Rattle.bq_eval_rules.specs.Acts.{Acts};
ghost use Rattle.bq_eval_rules.specs.Answers.{answer_of};
ghost use Rattle.bq_eval_rules.specs.Operands.{read_of};
ghost use Rattle.bq_eval_rules.specs.Effects.{Returns};
ghost use Rattle.bq_eval_rules.specs.Evaluators.{EvaluatesInside, value_inside};

use crate::answer::{AnswerPlace, new_place, settled};
use crate::context::Context;
use crate::names::{int_in, lent_in};
use crate::operand::{Operand, int_answer, int_operand, shared_leaf, string_leaf, use_of};
use crate::runtime::Runtime;
use bq_eval_frame::Frame;
use bq_parse_grammar::{Expr, Referent};
use bq_value::{EvalErr, Value};
use std::marker::PhantomData;

#[derive(Drop)]
pub struct Evaluator<'a, R, C, F> {
    pub context: &'a Context<'a>,
    /// The values of local names, which expressions only read.
    pub frame: &'a Frame<'a>,
    /// How many layers further inside are still looked at.
    pub depth: usize,
    pub call: C,
    pub eval: F,
    pub of: PhantomData<R>,
}

impl<
    'a,
    R: Runtime,
    C: Copy,
    F: Copy
        + Fn(&Context<'_>, usize, C, &Frame<'_>, &mut R, &Expr, &mut AnswerPlace) -> Option<i64>,
> Evaluator<'a, R, C, F> {
    /// Returns the value of an expression inside, if that is an integer in a slot or a literal. Its use takes a step.
    #[inline(always)]
    fn int_leaf(&self, runtime: &R, code: &Expr) -> Option<i64>
        ensures { IfSome result (λ n. value_inside R.means self.now code.now (R.seen runtime.now) ≡ literal R.means (int n) (R.seen runtime.now)) }
    {
        // The contract speaks of the state, so this reads it.
        let _ = runtime;
        if self.depth == 0 {
            return None;
        }
        match code {
            Expr::Name(name) => match name.referent {
                Referent::Local(slot) => int_in(self.frame, slot),
                _ => None,
            },
            Expr::Int(n) => Some(*n),
            _ => None,
        }
    }

    /// Lends the value of an expression inside, if that is in a slot and no integer. Its use takes a step.
    #[inline(always)]
    pub fn lent_leaf(&self, runtime: &R, code: &Expr) -> Option<&'a Value>
        ensures { IfSome result (λ v. value_inside R.means self.now code.now (R.seen runtime.now) ≡ literal R.means v.now (R.seen runtime.now)) }
    {
        // The contract speaks of the state, so this reads it.
        let _ = runtime;
        if self.depth == 0 {
            return None;
        }
        match code {
            Expr::Name(name) => match name.referent {
                Referent::Local(slot) => lent_in(self.frame, slot),
                _ => None,
            },
            _ => None,
        }
    }

    /// Evaluates an expression inside. The most frequent ones, integers in slots and literals, are evaluated here.
    #[inline(always)]
    pub fn evaluate(&self, runtime: &mut R, code: &Expr, out: &mut AnswerPlace) -> Option<i64>
        requires { EvaluatesInside R.means R.seen self.now F.pre F.post }
        ensures { Returns R.means R.seen (value_inside R.means self.now code.now) runtime.old (answer_of result out.new) runtime.new }
    {
        match self.int_leaf(&*runtime, code) {
            Some(n) => int_answer(runtime, n, out),
            None => (self.eval)(
                self.context,
                self.depth,
                self.call,
                self.frame,
                runtime,
                code,
                out,
            ),
        }
    }

    /// Evaluates an expression inside, and returns its value whole. A string literal and a name in a slot are evaluated here.
    #[inline(always)]
    pub fn value(&self, runtime: &mut R, code: &Expr) -> Result<Value, EvalErr>
        requires { EvaluatesInside R.means R.seen self.now F.pre F.post }
        ensures { Returns R.means R.seen (value_inside R.means self.now code.now) runtime.old result runtime.new }
    {
        if self.depth > 0 {
            if let Expr::String(text) = code {
                return string_leaf(runtime, text);
            }
        }
        if let Some(value) = self.lent_leaf(&*runtime, code) {
            return shared_leaf(runtime, value);
        }
        let mut out = new_place();
        let given = self.evaluate(runtime, code, &mut out);
        settled(given, out)
    }

    /// Evaluates an expression inside whose value is only read: its frame lends the value of a name, and an integer is
    /// made here.
    #[inline(always)]
    pub fn operand(&self, runtime: &mut R, code: &Expr) -> Result<Operand<'a>, EvalErr>
        requires { EvaluatesInside R.means R.seen self.now F.pre F.post }
        ensures { Acts R.means read_of result (R.seen runtime.new) (value_inside R.means self.now code.now (R.seen runtime.old)) }
    {
        if self.depth > 0 {
            if let Expr::Name(name) = code {
                return use_of(self.context, self.frame, runtime, name);
            }
            if let Expr::Int(n) = code {
                return int_operand(runtime, *n);
            }
        }
        Ok(Operand::Own(self.value(runtime, code)?))
    }
}
