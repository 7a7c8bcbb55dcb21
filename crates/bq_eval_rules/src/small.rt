//! Small statements.

ghost use Rattle.std.specs.Prelude.{◌≡◌};
ghost use Rattle.bq_builtin_machine.specs.Action.{pure};
ghost use Rattle.bq_eval_spec.specs.Statements as meaning;
ghost use Rattle.bq_eval_spec.specs.Slots.{by_slots};
ghost use Rattle.bq_eval_rules.specs.Nests.{AnswersCalls};
ghost use Rattle.bq_eval_rules.specs.Effects.{Executes, ExecutesOn};
ghost use Rattle.bq_eval_rules.specs.Flows.{flow_of};
ghost use Rattle.bq_eval_rules.specs.Readers.{evals_of};

use crate::answer::{AnswerPlace, taken};
use crate::called::Called;
use crate::context::Context;
use crate::flow::{Flow, ended, ended_there, returned};
use crate::reader::{Augmentation, Reader};
use crate::runtime::Runtime;
use bq_eval_frame::Frame;
use bq_parse_grammar::{Expr, SmallKind, SmallStmt, TargetExpr};
use bq_value::{EvalErr, Value};

/// Returns how many steps a small statement takes itself.
#[tactic(auto, unfolding(bq_eval_spec::specs::Statements::steps_of))]
fn steps_of(stmt: &SmallStmt) -> u64
    ensures { result ≡ meaning.steps_of stmt.now.kind }
{
    match &stmt.kind {
        SmallKind::Load(_) => 0,
        SmallKind::Expr(_) => 1,
        SmallKind::Assign(_, _) => 1,
        SmallKind::Augment(_, _, _) => 1,
        SmallKind::Return(_) => 1,
        SmallKind::Break => 1,
        SmallKind::Continue => 1,
        SmallKind::Pass => 1,
    }
}

/// Lets go of the value that lies there, and goes on.
#[inline(never)]
fn next_there<R: Runtime>(runtime: &R, frame: &Frame<'_>, out: &mut AnswerPlace) -> Flow
    ensures { ExecutesOn R.means R.seen out.old (λ _ env. pure (meaning.next, env)) frame.now runtime.now (flow_of result out.new) frame.now runtime.now }
{
    // The contract speaks of the state and the frame, so this reads them.
    let _ = runtime;
    let _ = frame;
    match taken(out) {
        None => ended_there(out),
        Some(_) => Flow::Next,
    }
}

impl<
    'a,
    R: Runtime,
    C: Copy + Fn(&Context<'_>, &mut R, Called<'_>) -> Result<Value, EvalErr>,
> Reader<'a, R, C> {
    /// Carries out an expression as a statement.
    #[inline(always)]
    #[tactic(auto, unfolding(bq_eval_spec::specs::Statements::expr_stmt))]
    fn expr_stmt(
        &self,
        frame: &Frame<'_>,
        runtime: &mut R,
        code: &Expr,
        out: &mut AnswerPlace,
    ) -> Flow
        requires { AnswersCalls R.means R.seen self.now.context.now self.now.call C.pre C.post }
        ensures { Executes R.means R.seen (meaning.expr_stmt R.means by_slots (evals_of R.means self.now) code.now) frame.now runtime.old (flow_of result out.new) frame.now runtime.new }
    {
        match self.evaluate(frame, runtime, code, out) {
            Some(_) => Flow::Next,
            None => next_there(&*runtime, frame, out),
        }
    }

    /// Carries out `target = x`: the right side first.
    #[inline(always)]
    #[tactic(auto, unfolding(bq_eval_spec::specs::Statements::assign_stmt))]
    fn assign_stmt(
        &self,
        frame: &mut Frame<'_>,
        runtime: &mut R,
        target: &TargetExpr,
        code: &Expr,
        out: &mut AnswerPlace,
    ) -> Flow
        requires { AnswersCalls R.means R.seen self.now.context.now self.now.call C.pre C.post }
        ensures { Executes R.means R.seen (meaning.assign_stmt R.means by_slots (evals_of R.means self.now) target.now code.now) frame.old runtime.old (flow_of result out.new) frame.new runtime.new }
    {
        match self.evaluate(&*frame, runtime, code, out) {
            Some(n) => self.assign_value(frame, runtime, target, Value::int(n), out),
            None => self.assign_there(frame, runtime, target, out),
        }
    }

    /// Carries out `return x`.
    #[inline(always)]
    #[tactic(auto, unfolding(bq_eval_spec::specs::Statements::return_stmt))]
    fn return_stmt(
        &self,
        frame: &Frame<'_>,
        runtime: &mut R,
        code: &Option<Expr>,
        out: &mut AnswerPlace,
    ) -> Flow
        requires { AnswersCalls R.means R.seen self.now.context.now self.now.call C.pre C.post }
        ensures { Executes R.means R.seen (meaning.return_stmt R.means by_slots (evals_of R.means self.now) code.now) frame.now runtime.old (flow_of result out.new) frame.now runtime.new }
    {
        match code {
            None => returned(out, Value::none()),
            Some(code) => match self.evaluate(frame, runtime, code, out) {
                Some(n) => returned(out, Value::int(n)),
                None => Flow::Ended,
            },
        }
    }

    /// Carries out a small statement: all but a load take a step.
    #[inline(always)]
    #[tactic(auto, unfolding(bq_eval_spec::specs::Statements::small_stmt))]
    fn small_stmt(
        &self,
        frame: &mut Frame<'_>,
        runtime: &mut R,
        stmt: &SmallStmt,
        out: &mut AnswerPlace,
    ) -> Flow
        requires { AnswersCalls R.means R.seen self.now.context.now self.now.call C.pre C.post }
        ensures { Executes R.means R.seen (meaning.small_stmt R.means by_slots (evals_of R.means self.now) stmt.now) frame.old runtime.old (flow_of result out.new) frame.new runtime.new }
    {
        if let Err(why) = runtime.step(steps_of(stmt)) {
            return ended(out, why);
        }
        match &stmt.kind {
            SmallKind::Expr(code) => self.expr_stmt(&*frame, runtime, code, out),
            SmallKind::Assign(target, code) => {
                self.assign_stmt(frame, runtime, target.get(), code, out)
            }
            SmallKind::Augment(target, operator, code) => {
                let op = Augmentation {
                    operator: *operator,
                    code,
                };
                self.augment(frame, runtime, target.get(), op, out)
            }
            SmallKind::Return(code) => self.return_stmt(&*frame, runtime, code, out),
            SmallKind::Break => Flow::Leave,
            SmallKind::Continue => Flow::Again,
            SmallKind::Pass => Flow::Next,
            SmallKind::Load(_) => Flow::Next,
        }
    }

    /// Carries out the statements of one line.
    #[inline(never)]
    #[tactic(auto, unfolding(bq_eval_spec::specs::Statements::line))]
    pub fn line(
        &self,
        frame: &mut Frame<'_>,
        runtime: &mut R,
        stmts: &[SmallStmt],
        out: &mut AnswerPlace,
    ) -> Flow
        requires { AnswersCalls R.means R.seen self.now.context.now self.now.call C.pre C.post }
        ensures { Executes R.means R.seen (meaning.line R.means by_slots (evals_of R.means self.now) stmts.now) frame.old runtime.old (flow_of result out.new) frame.new runtime.new }
    {
        for stmt in stmts {
            match self.small_stmt(frame, runtime, stmt, out) {
                Flow::Next => {}
                Flow::Leave => return Flow::Leave,
                Flow::Again => return Flow::Again,
                Flow::Ended => return Flow::Ended,
            }
        }
        Flow::Next
    }
}
