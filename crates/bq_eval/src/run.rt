//! The statements of a file.

ghost use Rattle.std.specs.Prelude.{◌≡◌};
ghost use Rattle.bq_eval_frame.specs.Slots.{slots_of};
ghost use Rattle.bq_eval_rules.specs.Acts.{Acts};
ghost use Rattle.bq_eval.specs.Outcomes.{file_run, program_run};

use crate::loads::first_globals;
use crate::module::ResolvedModule;
use bq_builtin_machine::MAX_ACTIVE;
use bq_eval_frame::Frame;
use bq_eval_rules::{Context, Globals, Program, Runtime, run_file};
use bq_resolve_scope::{FileLine, LoadStmt};
use bq_value::EvalErr;
use sqlite_items::Items;
use std::alloc::Global;

/// Runs statements, and returns their globals as those of one of the modules of a program.
#[tactic(auto, using(bq_eval_frame::proofs::Slots::none_filled), unfolding(crate::specs::Outcomes::program_run, bq_eval_spec::specs::Module::module_meaning, bq_eval_spec::specs::Module::eval_top, bq_eval_spec::specs::Calls::max_active, bq_eval_rules::specs::Round::evals, bq_eval_rules::specs::Round::outside_functions, bq_eval_rules::specs::Round::units_at))]
fn run_program<'f, R: Runtime>(
    alloc: Global,
    program: &Program<'_>,
    loads: &[LoadStmt],
    stmts: &[FileLine],
    runtime: &mut R,
) -> Result<Frame<'f>, EvalErr>
    ensures { Acts R.means slots_of result (R.seen runtime.new) (program_run R.means program.now loads.now stmts.now (R.seen runtime.old)) }
{
    let mut globals = Frame::new(alloc);
    first_globals(&mut globals, loads, program.loaded)?;
    let context = Context {
        alloc,
        left: MAX_ACTIVE,
        program,
        own: Globals::Absent,
        outside: true,
        globals: Globals::Absent,
        loaded: program.loaded,
    };
    let _flow = run_file(&context, &mut globals, runtime, stmts)?;
    Ok(globals)
}

/// Runs these statements of a file, and returns its globals.
#[tactic(auto, using(crate::proofs::Programs::module_of_program))]
fn run_statements<'f, R: Runtime>(
    alloc: Global,
    module: &ResolvedModule<'_>,
    stmts: &[FileLine],
    runtime: &mut R,
) -> Result<Frame<'f>, EvalErr>
    requires { stmts.now ≡ «module».now.file.now.statements }
    ensures { Acts R.means slots_of result (R.seen runtime.new) (file_run R.means «module».now (R.seen runtime.old)) }
{
    let file = module.file;
    let program = Program {
        number: module.number,
        functions: file.functions.as_slice(),
        loaded: module.imports,
        code: module.files,
        frozen: module.loaded,
    };
    let loads = file.loads.as_slice();
    run_program(alloc, &program, loads, stmts, runtime)
}

/// Puts the statements of a file back if it may be run again, and else drops them: it may where memory was refused.
fn settle(module: &ResolvedModule<'_>, stmts: Items<FileLine>, ran: &Result<Frame<'_>, EvalErr>)
    requires { stmts ≡ «module».now.file.now.statements }
{
    let is_over = !matches!(ran, Err(EvalErr::Memory));
    if module.once && is_over {
        return;
    }
    module.file.statements.put_back(stmts);
}

/// Runs a file, and returns its globals. Its statements are taken out of it, so that they can be dropped once they have run. A file
/// without them, since they are run already, is as one for which memory is refused.
pub(crate) fn run_module<'f, R: Runtime>(
    alloc: Global,
    module: &ResolvedModule<'_>,
    runtime: &mut R,
) -> Result<Frame<'f>, EvalErr>
    ensures { Acts R.means slots_of result (R.seen runtime.new) (file_run R.means «module».now (R.seen runtime.old)) }
{
    let Some(stmts) = module.file.statements.take() else {
        return Err(EvalErr::Memory);
    };
    let ran = run_statements(alloc, module, stmts.as_slice(), runtime);
    settle(module, stmts, &ran);
    ran
}
