//! Comprehensions.

ghost use Rattle.std.specs.Prelude.{◌≡◌, IfOk};
ghost use Rattle.bq_builtin_machine.specs.Action.{pure, ◌>>=◌ as and_then};
ghost use Rattle.bq_eval_spec.specs.Comprehensions as meaning;
ghost use Rattle.bq_eval_spec.specs.Slots.{opened};
ghost use Rattle.bq_eval_frame.specs.Slots.{slots_of};
ghost use Rattle.bq_eval_rules.specs.Acts.{Acts, ActsOn};
ghost use Rattle.bq_eval_rules.specs.OpenLoops.{loop_of, loop_reached, opening};
ghost use Rattle.bq_eval_rules.specs.Effects.{Returns, Produces, Collects};
ghost use Rattle.bq_eval_rules.specs.Evaluators.{EvaluatesInside, evals_in, frame_of};
ghost use Rattle.bq_eval_rules.specs.ComprehensionClauses.{element_in, clauses_in, all_clauses_in, comprehension_in, list_comprehension_in, dict_comprehension_in, turns_left, ClausesReach, ClausesCount, TurnReaches, TurnCounts};

use crate::answer::{AnswerPlace, new_place, reason_of, settled, taken};
use crate::context::Context;
use crate::evaluator::Evaluator;
use crate::open_loop::{ForClause, OpenLoop, Reached, loop_reached};
use crate::runtime::Runtime;
use crate::targets::begin_turn;
use bq_eval_frame::Frame;
use bq_parse_grammar::{Clause, ComprehensionFrame, Expr, Pair};
use bq_value::{Content, Dict, EvalErr, Value};
use std::alloc::AllocError;
use std::marker::PhantomData;

/// What a comprehension collects, which stands before its clauses.
#[derive(Clone, Copy)]
pub enum ElementExpr<'a> {
    /// An element of a list.
    Item(&'a Expr),
    /// A pair of a dict.
    Pair(&'a Pair),
}

/// What a turn of a comprehension does: it runs the clauses, and adds the element.
#[derive(Clone, Copy)]
struct ClauseBody<'c, 'e> {
    clauses: &'c [Clause],
    element: ElementExpr<'e>,
}

/// Adds the value that lies there to a list.
#[inline(never)]
fn add_there<R: Runtime>(
    runtime: &mut R,
    content: &mut Content,
    out: &mut AnswerPlace,
) -> Result<(), EvalErr>
    ensures { ActsOn R.means (λ _. content.new) out.old (λ v. R.means.add content.old v (R.seen runtime.old)) (R.seen runtime.old) result (R.seen runtime.new) }
{
    match taken(out) {
        None => Err(reason_of(&*out)),
        Some(value) => runtime.add(content, value),
    }
}

impl<
    'a,
    R: Runtime,
    C: Copy,
    F: Copy
        + Fn(&Context<'_>, usize, C, &Frame<'_>, &mut R, &Expr, &mut AnswerPlace) -> Option<i64>,
> Evaluator<'a, R, C, F> {
    /// Evaluates what is before the clauses of a comprehension, and adds it to a list.
    #[inline(always)]
    #[tactic(auto, unfolding(bq_eval_spec::specs::Comprehensions::element))]
    fn add_item(
        &self,
        runtime: &mut R,
        content: &mut Content,
        item: &Expr,
        out: &mut AnswerPlace,
    ) -> Result<(), EvalErr>
        requires { EvaluatesInside R.means R.seen self.now F.pre F.post }
        ensures { Collects R.means R.seen (meaning.element R.means (evals_in R.means self.now) item.now) (frame_of self.now) content.old runtime.old result (frame_of self.now) content.new runtime.new }
    {
        match self.evaluate(runtime, item, out) {
            Some(n) => runtime.add(content, Value::int(n)),
            None => add_there(runtime, content, out),
        }
    }

    /// Evaluates a pair that is before the clauses of a comprehension, and sets the value of its key.
    #[inline(never)]
    #[tactic(auto, unfolding(bq_eval_spec::specs::Comprehensions::pair_element))]
    fn put_pair(&self, runtime: &mut R, content: &mut Content, pair: &Pair) -> Result<(), EvalErr>
        requires { EvaluatesInside R.means R.seen self.now F.pre F.post }
        ensures { Collects R.means R.seen (meaning.pair_element R.means (evals_in R.means self.now) pair.now) (frame_of self.now) content.old runtime.old result (frame_of self.now) content.new runtime.new }
    {
        let key = self.value(runtime, &pair.key)?;
        let value = self.value(runtime, &pair.value)?;
        runtime.put_pair(content, &key, value)
    }

    /// Evaluates what is before the clauses of a comprehension, and adds it. A pair sets the value of a key that is there.
    #[inline(always)]
    fn body(
        &self,
        runtime: &mut R,
        content: &mut Content,
        element: ElementExpr<'_>,
        out: &mut AnswerPlace,
    ) -> Result<(), EvalErr>
        requires { EvaluatesInside R.means R.seen self.now F.pre F.post }
        ensures { Collects R.means R.seen (element_in R.means self.now element.entry) (frame_of self.now) content.old runtime.old result (frame_of self.now) content.new runtime.new }
    {
        match element {
            ElementExpr::Item(item) => self.add_item(runtime, content, item, out),
            ElementExpr::Pair(pair) => self.put_pair(runtime, content, pair),
        }
    }

    /// Runs the clauses up to the first loop, which it leaves in `next`; without one, evaluates what is before them.
    #[inline(never)]
    fn inward<'c>(
        &self,
        runtime: &mut R,
        content: &mut Content,
        inner: ClauseBody<'c, '_>,
        next: &mut Option<ForClause<'c>>,
        out: &mut AnswerPlace,
    ) -> Reached
        requires { EvaluatesInside R.means R.seen self.now F.pre F.post }
        ensures leaves { ClausesReach R.means R.seen self.now inner.entry.element inner.entry.clauses.now (frame_of self.now) content.old runtime.old (loop_reached result next.new out.new) content.new runtime.new }
        ensures counts { ClausesCount R.means R.seen self.now inner.entry.element inner.entry.clauses.now (frame_of self.now) content.old runtime.old (loop_reached result next.new out.new) content.new runtime.new }
    {
        let mut rest = inner.clauses;
        while let [clause, after @ ..] = rest {
            match clause {
                Clause::For(target, iterable) => {
                    *next = Some(ForClause {
                        target,
                        iterable,
                        after,
                    });
                    return Reached::Loop;
                }
                Clause::If(condition) => match self.holds(runtime, condition, out) {
                    None => return Reached::Stopped,
                    Some(false) => return Reached::End,
                    Some(true) => {}
                },
            }
            rest = after;
        }
        match self.body(runtime, content, inner.element, out) {
            Ok(()) => Reached::End,
            Err(why) => {
                *out = Err(why);
                Reached::Stopped
            }
        }
    }
}

/// A comprehension, whose clauses bind their variables in a frame of their own. The rules hold the frame around it.
#[derive(Drop)]
struct Comprehension<'a, R, C, F> {
    rules: &'a Evaluator<'a, R, C, F>,
    element: ElementExpr<'a>,
}

impl<
    'a,
    R: Runtime,
    C: Copy,
    F: Copy
        + Fn(&Context<'_>, usize, C, &Frame<'_>, &mut R, &Expr, &mut AnswerPlace) -> Option<i64>,
> Comprehension<'a, R, C, F> {
    /// Runs clauses in a frame, up to the first loop, which it returns.
    #[inline(always)]
    fn inward<'c>(
        &self,
        frame: &Frame<'_>,
        runtime: &mut R,
        content: &mut Content,
        clauses: &'c [Clause],
    ) -> Result<Option<ForClause<'c>>, EvalErr>
        requires { EvaluatesInside R.means R.seen self.now.rules.now F.pre F.post }
        ensures leaves { ClausesReach R.means R.seen self.now.rules.now self.now.element clauses.now (slots_of frame.now) content.old runtime.old result content.new runtime.new }
        ensures counts { ClausesCount R.means R.seen self.now.rules.now self.now.element clauses.now (slots_of frame.now) content.old runtime.old result content.new runtime.new }
    {
        let rules = Evaluator {
            context: self.rules.context,
            frame,
            depth: self.rules.depth,
            call: self.rules.call,
            eval: self.rules.eval,
            of: PhantomData,
        };
        let inner = ClauseBody {
            clauses,
            element: self.element,
        };
        let mut next = None;
        let mut out = new_place();
        let reached = rules.inward(runtime, content, inner, &mut next, &mut out);
        loop_reached(reached, next, &out)
    }

    /// Begins the walk of a loop, in a frame.
    #[tactic(auto, unfolding(crate::specs::OpenLoops::opening))]
    fn open<'c>(
        &self,
        frame: &Frame<'_>,
        runtime: &mut R,
        clause: ForClause<'c>,
    ) -> Result<OpenLoop<'c>, EvalErr>
        requires { EvaluatesInside R.means R.seen self.now.rules.now F.pre F.post }
        ensures { Acts R.means loop_of result (R.seen runtime.new) (opening R.means (evals_in R.means self.now.rules.now) clause.entry (slots_of frame.now) (R.seen runtime.old)) }
    {
        let rules = self.rules;
        let mut out = new_place();
        let given = (rules.eval)(
            rules.context,
            rules.depth,
            rules.call,
            frame,
            runtime,
            clause.iterable,
            &mut out,
        );
        let walked = settled(given, out)?;
        let elements = runtime.begin_walk(rules.context.alloc, &walked)?;
        Ok(OpenLoop {
            target: clause.target,
            after: clause.after,
            walked,
            elements,
        })
    }

    /// Begins a turn of a loop, and runs it up to the first loop inside it.
    #[inline(always)]
    #[tactic(auto, unfolding(bq_eval_spec::specs::Comprehensions::turn, crate::specs::OpenLoops::turn_count))]
    fn turn<'c>(
        &self,
        frame: &mut Frame<'_>,
        runtime: &mut R,
        content: &mut Content,
        innermost: &OpenLoop<'c>,
        value: Value,
    ) -> Result<Option<ForClause<'c>>, EvalErr>
        requires { EvaluatesInside R.means R.seen self.now.rules.now F.pre F.post }
        ensures leaves { TurnReaches R.means R.seen self.now.rules.now self.now.element innermost.now value (slots_of frame.old) content.old runtime.old result (slots_of frame.new) content.new runtime.new }
        ensures counts { TurnCounts R.means R.seen self.now.rules.now self.now.element innermost.now value (slots_of frame.old) content.old runtime.old result (slots_of frame.new) content.new runtime.new }
    {
        begin_turn(
            self.rules.context.alloc,
            runtime,
            frame,
            innermost.target,
            value,
        )?;
        self.inward(&*frame, runtime, content, innermost.after)
    }

    /// Runs the turns of a loop, and those of the loops that open inside it.
    fn turns(
        &self,
        frame: &mut Frame<'_>,
        runtime: &mut R,
        content: &mut Content,
        first: OpenLoop<'_>,
    ) -> Result<(), EvalErr>
        requires { EvaluatesInside R.means R.seen self.now.rules.now F.pre F.post }
        ensures { Collects R.means R.seen (turns_left R.means self.now.rules.now self.now.element (loop_of first.entry)) (slots_of frame.old) content.old runtime.old result (slots_of frame.new) content.new runtime.new }
    {
        let mut outer = Vec::new(self.rules.context.alloc);
        let mut innermost = first;
        loop {
            let Some(value) = innermost.elements.next()? else {
                runtime.end_walk(&innermost.walked);
                let Some(next) = outer.pop() else {
                    return Ok(());
                };
                innermost = next;
                continue;
            };
            let inside = self.turn(frame, runtime, content, &innermost, value)?;
            let Some(clause) = inside else {
                continue;
            };
            outer.push(innermost)?;
            innermost = self.open(&*frame, runtime, clause)?;
        }
    }

    /// Runs clauses in `frame`, which is their own.
    fn clauses(
        &self,
        frame: &mut Frame<'_>,
        runtime: &mut R,
        content: &mut Content,
        clauses: &[Clause],
    ) -> Result<(), EvalErr>
        requires { EvaluatesInside R.means R.seen self.now.rules.now F.pre F.post }
        ensures { Collects R.means R.seen (clauses_in R.means self.now.rules.now self.now.element clauses.now) (slots_of frame.old) content.old runtime.old result (slots_of frame.new) content.new runtime.new }
    {
        match self.inward(&*frame, runtime, content, clauses)? {
            None => Ok(()),
            Some(clause) => {
                let first = self.open(&*frame, runtime, clause)?;
                self.turns(frame, runtime, content, first)
            }
        }
    }

    /// Runs all clauses in `frame`, which is their own. The first iterable is evaluated in the frame around it.
    #[tactic(auto, using(crate::proofs::Clauses::no_first))]
    fn all_clauses(
        &self,
        frame: &mut Frame<'_>,
        runtime: &mut R,
        content: &mut Content,
        clauses: &[Clause],
    ) -> Result<(), EvalErr>
        requires { EvaluatesInside R.means R.seen self.now.rules.now F.pre F.post }
        ensures { Collects R.means R.seen (all_clauses_in R.means self.now.rules.now self.now.element clauses.now) (slots_of frame.old) content.old runtime.old result (slots_of frame.new) content.new runtime.new }
    {
        let [first, after @ ..] = clauses else {
            return self.clauses(frame, runtime, content, clauses);
        };
        match first {
            Clause::For(target, iterable) => {
                let clause = ForClause {
                    target,
                    iterable,
                    after,
                };
                let outermost = self.open(self.rules.frame, runtime, clause)?;
                self.turns(frame, runtime, content, outermost)
            }
            Clause::If(_) => self.clauses(frame, runtime, content, clauses),
        }
    }
}

impl<
    'a,
    R: Runtime,
    C: Copy,
    F: Copy
        + Fn(&Context<'_>, usize, C, &Frame<'_>, &mut R, &Expr, &mut AnswerPlace) -> Option<i64>,
> Evaluator<'a, R, C, F> {
    /// Makes the frame of a comprehension: outside functions it has one of its own.
    #[tactic(auto, using(bq_eval_frame::proofs::Slots::none_filled))]
    fn opened(&self, own: ComprehensionFrame) -> Result<Frame<'a>, AllocError>
        ensures { IfOk result (λ f. slots_of f ≡ opened (frame_of self.now) own) }
    {
        match own {
            ComprehensionFrame::Shared => self.frame.inside(self.context.alloc),
            ComprehensionFrame::Own(slots) => Frame::with_room(self.context.alloc, slots),
        }
    }

    /// Adds all elements of a comprehension, whose clauses bind their variables in a frame of their own.
    fn run_clauses(
        &self,
        runtime: &mut R,
        content: &mut Content,
        element: ElementExpr<'_>,
        clauses: &[Clause],
        own: ComprehensionFrame,
    ) -> Result<(), EvalErr>
        requires { EvaluatesInside R.means R.seen self.now F.pre F.post }
        ensures { Produces R.means R.seen content.new (and_then (all_clauses_in R.means self.now element.entry clauses.now (opened (frame_of self.now) own) content.old) (λ made. pure made.0)) runtime.old result runtime.new }
    {
        let mut inner = self.opened(own)?;
        Comprehension {
            rules: self,
            element,
        }
        .all_clauses(&mut inner, runtime, content, clauses)
    }

    /// Evaluates a comprehension, from an empty list or dict on.
    #[tactic(auto, unfolding(bq_eval_spec::specs::Comprehensions::comprehension))]
    fn comprehension(
        &self,
        runtime: &mut R,
        empty: Content,
        element: ElementExpr<'_>,
        clauses: &[Clause],
        own: ComprehensionFrame,
    ) -> Result<Value, EvalErr>
        requires { EvaluatesInside R.means R.seen self.now F.pre F.post }
        ensures { Returns R.means R.seen (comprehension_in R.means self.now element.entry empty clauses.now own) runtime.old result runtime.new }
    {
        runtime.step(1)?;
        let mut content = empty;
        self.run_clauses(runtime, &mut content, element, clauses, own)?;
        runtime.make(content)
    }

    /// Evaluates `[x for ..]`.
    #[inline(never)]
    pub fn list_comprehension(
        &self,
        runtime: &mut R,
        item: &Expr,
        clauses: &[Clause],
        own: ComprehensionFrame,
    ) -> Result<Value, EvalErr>
        requires { EvaluatesInside R.means R.seen self.now F.pre F.post }
        ensures { Returns R.means R.seen (list_comprehension_in R.means self.now clauses.now own item.now) runtime.old result runtime.new }
    {
        let empty = Content::list(Vec::new(self.context.alloc));
        self.comprehension(runtime, empty, ElementExpr::Item(item), clauses, own)
    }

    /// Evaluates `{key: value for ..}`.
    #[inline(never)]
    pub fn dict_comprehension(
        &self,
        runtime: &mut R,
        pair: &Pair,
        clauses: &[Clause],
        own: ComprehensionFrame,
    ) -> Result<Value, EvalErr>
        requires { EvaluatesInside R.means R.seen self.now F.pre F.post }
        ensures { Returns R.means R.seen (dict_comprehension_in R.means self.now clauses.now own pair.now) runtime.old result runtime.new }
    {
        let empty = Content::dict(Dict::new(self.context.alloc, runtime.seed()));
        self.comprehension(runtime, empty, ElementExpr::Pair(pair), clauses, own)
    }
}
