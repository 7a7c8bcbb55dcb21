//! Files.

ghost use Rattle.std.specs.Prelude.{◌≡◌};
ghost use Rattle.bq_base.specs.Gives.{Gives};
ghost use Rattle.bq_base.specs.declared.fault.SourceErr.TheVariants.{Bad};
ghost use Rattle.bq_resolve_scope.specs.Files.{resolved};
ghost use Rattle.bq_parse.specs.Answers.{itself};

use crate::outside::top_levels;
use crate::walk::Walk;
use bq_base::{NameFault, SourceErr};
use bq_base_takeable::Takeable;
use bq_parse::ParsedFile;
use bq_resolve_scope::{FileNames, LoadStmt, ResolvedFile, Universe};
use std::alloc::Global;

/// Returns the file with what its names refer to written into it, or the first fault of its names in the order of its text, F20 to F24. It takes time and memory in
/// proportion to the file.
#[tactic(auto, unfolding(bq_resolve_scope::specs::Files::resolved))]
pub fn resolve(
    alloc: Global,
    file: ParsedFile,
    universe: &Universe,
) -> Result<ResolvedFile, SourceErr<NameFault>>
    ensures { Gives itself Bad result (resolved universe.now file) }
{
    let names = FileNames::new(alloc, universe, file.statements())?;
    let globals = names.globals(alloc)?;
    let mut walk = Walk::new(alloc);
    let statements = top_levels(alloc, &names, &mut walk, file.into_statements());
    // PROOF: `drop` is a single step.
    drop(names);
    let statements = match statements {
        Ok(statements) => statements,
        Err(why) => {
            // PROOF: `drop` is a single step.
            drop(walk);
            return Err(why);
        }
    };
    let (functions, loads) = walk.into_parts();
    Ok(ResolvedFile {
        statements: Takeable::of(statements),
        functions,
        globals,
        loads,
    })
}

/// Returns the loads of a file, in the order in which they are written.
pub fn loads(resolved: &ResolvedFile) -> &[LoadStmt]
    ensures { result.now ≡ resolved.now.loads }
{
    resolved.loads.as_slice()
}
