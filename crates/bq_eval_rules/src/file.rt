//! The statements of a file.

ghost use Rattle.std.specs.Prelude.{◌≡◌, []};
ghost use Rattle.bq_eval_spec.specs.Expressions as expressions;
ghost use Rattle.bq_eval_spec.specs.Module as meaning;
ghost use Rattle.bq_eval_spec.specs.Statements as statements;
ghost use Rattle.bq_eval_spec.specs.Slots.{by_slots};
ghost use Rattle.bq_eval_frame.specs.Slots.{slots_of};
ghost use Rattle.bq_eval_rules.specs.Acts.{Acts};
ghost use Rattle.bq_eval_rules.specs.Nests.{AnswersCalls};
ghost use Rattle.bq_eval_rules.specs.Round.{evals, own_of};
ghost use Rattle.bq_eval_rules.specs.Effects.{ExecutesLines};
ghost use Rattle.bq_eval_rules.specs.Readers.{evals_of};

use crate::answer::new_place;
use crate::called::Called;
use crate::calls::call;
use crate::context::Context;
use crate::flow::{Ending, ending_of};
use crate::reader::Reader;
use crate::runtime::Runtime;
use crate::targets::slot_of;
use bq_eval_frame::Frame;
use bq_parse_grammar::{Expr, SmallStmt};
use bq_resolve_scope::{Def, FileLine, Outside};
use bq_value::{EvalErr, FunctionValue, Value};
use std::marker::PhantomData;

impl<
    'a,
    R: Runtime,
    C: Copy + Fn(&Context<'_>, &mut R, Called<'_>) -> Result<Value, EvalErr>,
> Reader<'a, R, C> {
    /// Evaluates expressions, one after another.
    #[tactic(auto, unfolding(bq_eval_spec::specs::Expressions::values))]
    fn values(
        &self,
        frame: &Frame<'_>,
        runtime: &mut R,
        codes: &[Expr],
    ) -> Result<Vec<Value>, EvalErr>
        requires { AnswersCalls R.means R.seen self.now.context.now self.now.call C.pre C.post }
        ensures { Acts R.means (λ vs. vs.items) result (R.seen runtime.new) (expressions.values R.means (evals_of R.means self.now) codes.now (slots_of frame.now) [] (R.seen runtime.old)) }
    {
        let mut all = Vec::with_capacity(self.context.alloc, codes.len())?;
        for code in codes {
            all.push(self.value(frame, runtime, code)?)?;
        }
        Ok(all)
    }

    /// Carries out a `def`.
    #[tactic(auto, unfolding(bq_eval_spec::specs::Module::def_stmt))]
    fn def_stmt(&self, frame: &mut Frame<'_>, runtime: &mut R, def: &Def) -> Result<Ending, EvalErr>
        requires { AnswersCalls R.means R.seen self.now.context.now self.now.call C.pre C.post }
        ensures { ExecutesLines R.means R.seen (meaning.def_stmt R.means by_slots (own_of self.now.context.now.program.now) (evals_of R.means self.now) def.now) frame.old runtime.old result frame.new runtime.new }
    {
        runtime.step(1)?;
        let defaults = self.values(frame, runtime, def.defaults.as_slice())?;
        // No file has so many functions: they wouldn't fit into memory.
        if def.function > u32::MAX as usize {
            return Err(EvalErr::Memory);
        }
        let place = def.function as u32;
        let function = FunctionValue {
            module: self.context.program.number,
            place,
            name: def.name.name.share()?,
            defaults,
        };
        let value = Value::function(self.context.alloc, function)?;
        frame.fill(slot_of(&def.name), value)?;
        Ok(Ending::Next)
    }

    /// Carries out the statements of one line.
    #[tactic(auto, using(crate::proofs::Flowing::lines_end))]
    fn whole_line(
        &self,
        frame: &mut Frame<'_>,
        runtime: &mut R,
        stmts: &[SmallStmt],
    ) -> Result<Ending, EvalErr>
        requires { AnswersCalls R.means R.seen self.now.context.now self.now.call C.pre C.post }
        ensures { ExecutesLines R.means R.seen (statements.line R.means by_slots (evals_of R.means self.now) stmts.now) frame.old runtime.old result frame.new runtime.new }
    {
        let mut out = new_place();
        let flow = self.line(frame, runtime, stmts, &mut out);
        ending_of(flow, out)
    }

    /// Carries out a top-level statement, whose line a fault names.
    #[tactic(auto, unfolding(bq_eval_spec::specs::Module::top_level))]
    fn top_level(
        &self,
        frame: &mut Frame<'_>,
        runtime: &mut R,
        stmt: &FileLine,
    ) -> Result<Ending, EvalErr>
        requires { AnswersCalls R.means R.seen self.now.context.now self.now.call C.pre C.post }
        ensures { ExecutesLines R.means R.seen (meaning.top_level R.means by_slots (own_of self.now.context.now.program.now) (evals_of R.means self.now) stmt.now) frame.old runtime.old result frame.new runtime.new }
    {
        runtime.at_line(stmt.line);
        match &stmt.statement {
            Outside::Simple(stmts) => self.whole_line(frame, runtime, stmts.as_slice()),
            Outside::Def(def) => self.def_stmt(frame, runtime, def.get()),
        }
    }

    /// Carries out the statements of a file.
    #[tactic(auto, unfolding(bq_eval_spec::specs::Module::top_levels))]
    pub fn top_levels(
        &self,
        frame: &mut Frame<'_>,
        runtime: &mut R,
        stmts: &[FileLine],
    ) -> Result<Ending, EvalErr>
        requires { AnswersCalls R.means R.seen self.now.context.now self.now.call C.pre C.post }
        ensures { ExecutesLines R.means R.seen (meaning.top_levels R.means by_slots (own_of self.now.context.now.program.now) (evals_of R.means self.now) stmts.now) frame.old runtime.old result frame.new runtime.new }
    {
        for stmt in stmts {
            match self.top_level(frame, runtime, stmt)? {
                Ending::Next => {}
                Ending::Leave => return Ok(Ending::Leave),
                Ending::Again => return Ok(Ending::Again),
                Ending::Answer(value) => return Ok(Ending::Answer(value)),
            }
        }
        Ok(Ending::Next)
    }
}

/// Runs the statements of a file. Its frame has the globals.
pub fn run_file<R: Runtime>(
    context: &Context<'_>,
    frame: &mut Frame<'_>,
    runtime: &mut R,
    stmts: &[FileLine],
) -> Result<Ending, EvalErr>
    ensures { ExecutesLines R.means R.seen (meaning.top_levels R.means by_slots (own_of context.now.program.now) (evals R.means context.now) stmts.now) frame.old runtime.old result frame.new runtime.new }
{
    let reader = Reader {
        context,
        call: call::<R>,
        of: PhantomData,
    };
    reader.top_levels(frame, runtime, stmts)
}
