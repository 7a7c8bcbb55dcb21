//! Displays of lists, tuples and dicts.

ghost use Rattle.std.specs.Prelude.{◌≡◌, []};
ghost use Rattle.bq_eval_spec.specs.Expressions as meaning;
ghost use Rattle.bq_eval_rules.specs.Acts.{Acts};
ghost use Rattle.bq_eval_rules.specs.Effects.{Returns, Produces};
ghost use Rattle.bq_eval_rules.specs.Evaluators.{EvaluatesInside, evals_in, frame_of};

use crate::answer::AnswerPlace;
use crate::context::Context;
use crate::evaluator::Evaluator;
use crate::runtime::Runtime;
use bq_eval_frame::Frame;
use bq_parse_grammar::{Expr, Pair};
use bq_value::{Content, Dict, EvalErr, Value};

impl<
    'a,
    R: Runtime,
    C: Copy,
    F: Copy
        + Fn(&Context<'_>, usize, C, &Frame<'_>, &mut R, &Expr, &mut AnswerPlace) -> Option<i64>,
> Evaluator<'a, R, C, F> {
    /// Evaluates expressions, one after another.
    #[tactic(auto, unfolding(bq_eval_spec::specs::Expressions::values))]
    pub fn values(&self, runtime: &mut R, codes: &[Expr]) -> Result<Vec<Value>, EvalErr>
        requires { EvaluatesInside R.means R.seen self.now F.pre F.post }
        ensures { Acts R.means (λ vs. vs.items) result (R.seen runtime.new) (meaning.values R.means (evals_in R.means self.now) codes.now (frame_of self.now) [] (R.seen runtime.old)) }
    {
        let mut all = Vec::with_capacity(self.context.alloc, codes.len())?;
        for code in codes {
            all.push(self.value(runtime, code)?)?;
        }
        Ok(all)
    }

    /// Evaluates `[x, ..]`.
    #[inline(never)]
    #[tactic(auto, unfolding(bq_eval_spec::specs::Expressions::list_display))]
    pub fn list_display(&self, runtime: &mut R, codes: &[Expr]) -> Result<Value, EvalErr>
        requires { EvaluatesInside R.means R.seen self.now F.pre F.post }
        ensures { Returns R.means R.seen (meaning.list_display R.means (evals_in R.means self.now) codes.now (frame_of self.now)) runtime.old result runtime.new }
    {
        runtime.step(1)?;
        let values = self.values(runtime, codes)?;
        runtime.make(Content::list(values))
    }

    /// Evaluates `(x, ..)`.
    #[inline(never)]
    #[tactic(auto, unfolding(bq_eval_spec::specs::Expressions::tuple_display))]
    pub fn tuple_display(&self, runtime: &mut R, codes: &[Expr]) -> Result<Value, EvalErr>
        requires { EvaluatesInside R.means R.seen self.now F.pre F.post }
        ensures { Returns R.means R.seen (meaning.tuple_display R.means (evals_in R.means self.now) codes.now (frame_of self.now)) runtime.old result runtime.new }
    {
        runtime.step(1)?;
        let values = self.values(runtime, codes)?;
        Ok(Value::tuple(self.context.alloc, values)?)
    }

    /// Evaluates `key: value` of a display, and adds it.
    #[tactic(auto, unfolding(bq_eval_spec::specs::Expressions::pair))]
    fn pair(&self, runtime: &mut R, content: &mut Content, pair: &Pair) -> Result<(), EvalErr>
        requires { EvaluatesInside R.means R.seen self.now F.pre F.post }
        ensures { Produces R.means R.seen content.new (meaning.pair R.means (evals_in R.means self.now) pair.now (frame_of self.now) content.old) runtime.old result runtime.new }
    {
        let key = self.value(runtime, &pair.key)?;
        let value = self.value(runtime, &pair.value)?;
        runtime.add_pair(content, &key, value)
    }

    #[tactic(auto, unfolding(bq_eval_spec::specs::Expressions::pairs_each))]
    fn pairs_each(
        &self,
        runtime: &mut R,
        content: &mut Content,
        pairs: &[Pair],
    ) -> Result<(), EvalErr>
        requires { EvaluatesInside R.means R.seen self.now F.pre F.post }
        ensures { Produces R.means R.seen content.new (meaning.pairs_each R.means (evals_in R.means self.now) pairs.now (frame_of self.now) content.old) runtime.old result runtime.new }
    {
        for pair in pairs {
            self.pair(runtime, content, pair)?;
        }
        Ok(())
    }

    /// Evaluates `{key: value, ..}`.
    #[inline(never)]
    #[tactic(auto, unfolding(bq_eval_spec::specs::Expressions::dict_display))]
    pub fn dict_display(&self, runtime: &mut R, pairs: &[Pair]) -> Result<Value, EvalErr>
        requires { EvaluatesInside R.means R.seen self.now F.pre F.post }
        ensures { Returns R.means R.seen (meaning.dict_display R.means (evals_in R.means self.now) pairs.now (frame_of self.now)) runtime.old result runtime.new }
    {
        runtime.step(1)?;
        let mut content = Content::dict(Dict::new(self.context.alloc, runtime.seed()));
        self.pairs_each(runtime, &mut content, pairs)?;
        runtime.make(content)
    }
}
