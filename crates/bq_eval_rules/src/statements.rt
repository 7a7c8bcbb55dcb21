//! Statements of functions. Each rule takes what runs the statements inside, so that it is proved by itself.

ghost use Rattle.std.specs.Prelude.{◌≡◌};
ghost use Rattle.bq_builtin_machine.specs.Action.{◌>>=◌ as and_then};
ghost use Rattle.bq_eval_spec.specs.Statements as meaning;
ghost use Rattle.bq_eval_spec.specs.Slots.{by_slots};
ghost use Rattle.bq_eval_rules.specs.Nests.{AnswersCalls};
ghost use Rattle.bq_eval_rules.specs.Round.{evals, execs};
ghost use Rattle.bq_eval_rules.specs.Effects.{Executes};
ghost use Rattle.bq_eval_rules.specs.Flows.{flow_of};
ghost use Rattle.bq_eval_rules.specs.Runners.{RunsInside, WalkEnds, rule_in, walk};

use crate::answer::AnswerPlace;
use crate::called::Called;
use crate::context::Context;
use crate::flow::{Flow, ended, ended_there};
use crate::reader::Reader;
use crate::runtime::Runtime;
use crate::stuck::stuck;
use crate::targets::{MAX_LAYERS, begin_turn};
use bq_builtin_machine::ElementWalk;
use bq_eval_frame::Frame;
use bq_parse_grammar::{Branch, Expr, Stmt, TargetExpr};
use bq_value::{EvalErr, Value};
use std::marker::PhantomData;

#[derive(Drop)]
pub struct Runner<'a, R, C, G> {
    /// How many layers further inside are still looked at.
    pub depth: usize,
    pub reader: Reader<'a, R, C>,
    pub run: G,
}

/// What each turn of a `for` does: it binds the target, and runs the statements.
#[derive(Clone, Copy)]
struct ForBody<'c> {
    target: &'c TargetExpr,
    stmts: &'c [Stmt],
}

/// Runs a statement that is at most `depth` layers deep.
#[inline(always)]
#[tactic(auto, unfolding(bq_eval_spec::specs::Statements::run_to))]
fn run_to<R: Runtime, C: Copy + Fn(&Context<'_>, &mut R, Called<'_>) -> Result<Value, EvalErr>>(
    context: &Context<'_>,
    depth: usize,
    call: C,
    frame: &mut Frame<'_>,
    runtime: &mut R,
    stmt: &Stmt,
    out: &mut AnswerPlace,
) -> Flow
    requires { AnswersCalls R.means R.seen context.now call C.pre C.post }
    ensures { Executes R.means R.seen (meaning.run_to depth R.means by_slots (evals R.means context.now) stmt.now) frame.old runtime.old (flow_of result out.new) frame.new runtime.new }
{
    if depth == 0 {
        return ended(out, stuck());
    }
    // PROOF: lends the context again.
    Runner {
        depth: depth - 1,
        reader: Reader {
            context: &*context,
            call,
            of: PhantomData,
        },
        run: run_to::<R, C>,
    }
    .stmt(frame, runtime, stmt, out)
}

/// Runs the statements of a function.
#[tactic(auto, unfolding(bq_resolve_scope::specs::Names::max_layers))]
pub fn run_block<
    R: Runtime,
    C: Copy + Fn(&Context<'_>, &mut R, Called<'_>) -> Result<Value, EvalErr>,
>(
    context: &Context<'_>,
    call: C,
    frame: &mut Frame<'_>,
    runtime: &mut R,
    stmts: &[Stmt],
    out: &mut AnswerPlace,
) -> Flow
    requires { AnswersCalls R.means R.seen context.now call C.pre C.post }
    ensures { Executes R.means R.seen (meaning.block R.means by_slots (evals R.means context.now) (execs R.means context.now) stmts.now) frame.old runtime.old (flow_of result out.new) frame.new runtime.new }
{
    Runner {
        depth: MAX_LAYERS,
        reader: Reader {
            context,
            call,
            of: PhantomData,
        },
        run: run_to::<R, C>,
    }
    .block(frame, runtime, stmts, out)
}

/// Ends the walk over an iterable, unless the loop has stopped, for which its flow and the place say why.
#[inline(always)]
fn end_walk<R: Runtime>(runtime: &mut R, iterable: &Value, flow: Flow, out: &AnswerPlace)
    ensures { WalkEnds R.means (flow_of flow out.now) iterable.now (R.seen runtime.old) (R.seen runtime.new) }
{
    match flow {
        Flow::Next => runtime.end_walk(iterable),
        Flow::Leave => runtime.end_walk(iterable),
        Flow::Again => runtime.end_walk(iterable),
        Flow::Ended => {
            if let Ok(_) = out {
                runtime.end_walk(iterable);
            }
        }
    }
}

impl<
    'a,
    R: Runtime,
    C: Copy + Fn(&Context<'_>, &mut R, Called<'_>) -> Result<Value, EvalErr>,
    G: Fn(&Context<'_>, usize, C, &mut Frame<'_>, &mut R, &Stmt, &mut AnswerPlace) -> Flow,
> Runner<'a, R, C, G> {
    /// Runs statements in order.
    #[inline(never)]
    #[tactic(auto, unfolding(bq_eval_spec::specs::Statements::block))]
    fn block(
        &self,
        frame: &mut Frame<'_>,
        runtime: &mut R,
        stmts: &[Stmt],
        out: &mut AnswerPlace,
    ) -> Flow
        requires { RunsInside R.means R.seen self.now G.pre G.post }
        ensures { Executes R.means R.seen (rule_in R.means self.now meaning.block stmts.now) frame.old runtime.old (flow_of result out.new) frame.new runtime.new }
    {
        for stmt in stmts {
            let Reader { context, call, .. } = self.reader;
            match (self.run)(context, self.depth, call, frame, runtime, stmt, out) {
                Flow::Next => {}
                Flow::Leave => return Flow::Leave,
                Flow::Again => return Flow::Again,
                Flow::Ended => return Flow::Ended,
            }
        }
        Flow::Next
    }

    /// Runs the block of the first branch whose condition holds.
    #[inline(always)]
    #[tactic(auto, unfolding(bq_eval_spec::specs::Statements::branches))]
    fn branches(
        &self,
        frame: &mut Frame<'_>,
        runtime: &mut R,
        branches: &[Branch],
        otherwise: &[Stmt],
        out: &mut AnswerPlace,
    ) -> Flow
        requires runs { RunsInside R.means R.seen self.now G.pre G.post }
        requires answers { AnswersCalls R.means R.seen self.now.reader.context.now self.now.reader.call C.pre C.post }
        ensures { Executes R.means R.seen (rule_in R.means self.now meaning.branches branches.now otherwise.now) frame.old runtime.old (flow_of result out.new) frame.new runtime.new }
    {
        for branch in branches {
            match self.reader.holds(&*frame, runtime, &branch.condition, out) {
                None => return ended_there(out),
                Some(true) => return self.block(frame, runtime, branch.block.as_slice(), out),
                Some(false) => {}
            }
        }
        self.block(frame, runtime, otherwise, out)
    }

    #[inline(always)]
    #[tactic(auto, unfolding(bq_eval_spec::specs::Statements::turn))]
    fn turn(
        &self,
        frame: &mut Frame<'_>,
        runtime: &mut R,
        each: ForBody<'_>,
        value: Value,
        out: &mut AnswerPlace,
    ) -> Flow
        requires { RunsInside R.means R.seen self.now G.pre G.post }
        ensures { Executes R.means R.seen (rule_in R.means self.now meaning.turn each.entry.target.now each.entry.stmts.now value) frame.old runtime.old (flow_of result out.new) frame.new runtime.new }
    {
        match begin_turn(
            self.reader.context.alloc,
            runtime,
            frame,
            each.target,
            value,
        ) {
            Err(why) => ended(out, why),
            Ok(()) => self.block(frame, runtime, each.stmts, out),
        }
    }

    #[inline(never)]
    #[tactic(auto, unfolding(bq_eval_spec::specs::Statements::turns))]
    fn turns(
        &self,
        frame: &mut Frame<'_>,
        runtime: &mut R,
        each: ForBody<'_>,
        elements: &mut ElementWalk,
        out: &mut AnswerPlace,
    ) -> Flow
        requires { RunsInside R.means R.seen self.now G.pre G.post }
        ensures { Executes R.means R.seen (rule_in R.means self.now meaning.turns each.entry.target.now each.entry.stmts.now elements.old) frame.old runtime.old (flow_of result out.new) frame.new runtime.new }
    {
        loop {
            let value = match elements.next() {
                Err(_) => return ended(out, EvalErr::Memory),
                Ok(None) => return Flow::Next,
                Ok(Some(value)) => value,
            };
            match self.turn(frame, runtime, each, value, out) {
                Flow::Next => {}
                Flow::Again => {}
                Flow::Leave => return Flow::Next,
                Flow::Ended => return Flow::Ended,
            }
        }
    }

    /// Goes over the elements of an iterable.
    #[inline(always)]
    fn walk(
        &self,
        frame: &mut Frame<'_>,
        runtime: &mut R,
        iterable: &Value,
        each: ForBody<'_>,
        out: &mut AnswerPlace,
    ) -> Flow
        requires { RunsInside R.means R.seen self.now G.pre G.post }
        ensures { Executes R.means R.seen (walk R.means self.now each.entry.target.now iterable.now each.entry.stmts.now) frame.old runtime.old (flow_of result out.new) frame.new runtime.new }
    {
        match runtime.begin_walk(self.reader.context.alloc, iterable) {
            Err(why) => ended(out, why),
            Ok(elements) => {
                let mut elements = elements;
                let flow = self.turns(frame, runtime, each, &mut elements, out);
                end_walk(runtime, iterable, flow, &*out);
                flow
            }
        }
    }

    /// Carries out `for target in iterable`.
    #[inline(never)]
    #[tactic(auto, unfolding(bq_eval_spec::specs::Statements::for_loop))]
    fn for_loop(
        &self,
        frame: &mut Frame<'_>,
        runtime: &mut R,
        iterable: &Expr,
        each: ForBody<'_>,
        out: &mut AnswerPlace,
    ) -> Flow
        requires runs { RunsInside R.means R.seen self.now G.pre G.post }
        requires answers { AnswersCalls R.means R.seen self.now.reader.context.now self.now.reader.call C.pre C.post }
        ensures { Executes R.means R.seen (rule_in R.means self.now meaning.for_loop each.entry.target.now iterable.now each.entry.stmts.now) frame.old runtime.old (flow_of result out.new) frame.new runtime.new }
    {
        match self.reader.value(&*frame, runtime, iterable) {
            Err(why) => ended(out, why),
            Ok(iterable) => self.walk(frame, runtime, &iterable, each, out),
        }
    }

    /// Carries out an `if`: a step, and then the block of the first branch whose condition holds.
    #[inline(always)]
    fn if_stmt(
        &self,
        frame: &mut Frame<'_>,
        runtime: &mut R,
        branches: &[Branch],
        otherwise: &[Stmt],
        out: &mut AnswerPlace,
    ) -> Flow
        requires runs { RunsInside R.means R.seen self.now G.pre G.post }
        requires answers { AnswersCalls R.means R.seen self.now.reader.context.now self.now.reader.call C.pre C.post }
        ensures { Executes R.means R.seen (λ env. and_then (R.means.step 1) (λ _. rule_in R.means self.now meaning.branches branches.now otherwise.now env)) frame.old runtime.old (flow_of result out.new) frame.new runtime.new }
    {
        match runtime.step(1) {
            Err(why) => ended(out, why),
            Ok(()) => self.branches(frame, runtime, branches, otherwise, out),
        }
    }

    /// Carries out a `for`: a step, and then the loop.
    #[inline(always)]
    fn for_stmt(
        &self,
        frame: &mut Frame<'_>,
        runtime: &mut R,
        iterable: &Expr,
        each: ForBody<'_>,
        out: &mut AnswerPlace,
    ) -> Flow
        requires runs { RunsInside R.means R.seen self.now G.pre G.post }
        requires answers { AnswersCalls R.means R.seen self.now.reader.context.now self.now.reader.call C.pre C.post }
        ensures { Executes R.means R.seen (λ env. and_then (R.means.step 1) (λ _. rule_in R.means self.now meaning.for_loop each.entry.target.now iterable.now each.entry.stmts.now env)) frame.old runtime.old (flow_of result out.new) frame.new runtime.new }
    {
        match runtime.step(1) {
            Err(why) => ended(out, why),
            Ok(()) => self.for_loop(frame, runtime, iterable, each, out),
        }
    }

    /// Carries out a statement.
    #[inline(always)]
    fn stmt(
        &self,
        frame: &mut Frame<'_>,
        runtime: &mut R,
        stmt: &Stmt,
        out: &mut AnswerPlace,
    ) -> Flow
        requires runs { RunsInside R.means R.seen self.now G.pre G.post }
        requires answers { AnswersCalls R.means R.seen self.now.reader.context.now self.now.reader.call C.pre C.post }
        ensures { Executes R.means R.seen (rule_in R.means self.now meaning.stmt stmt.now) frame.old runtime.old (flow_of result out.new) frame.new runtime.new }
    {
        match stmt {
            Stmt::Simple(stmts) => self.reader.line(frame, runtime, stmts.as_slice(), out),
            Stmt::If(branches, otherwise) => {
                self.if_stmt(
                    frame,
                    runtime,
                    branches.as_slice(),
                    otherwise.as_slice(),
                    out,
                )
            }
            Stmt::For(target, iterable, body) => {
                let each = ForBody {
                    target,
                    stmts: body.as_slice(),
                };
                self.for_stmt(frame, runtime, iterable, each, out)
            }
            Stmt::Def(_, _, _) => ended(out, stuck()),
        }
    }
}
