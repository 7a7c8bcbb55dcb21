//! Loads: what a file takes from other files.

ghost use Rattle.bq_parse_grammar.specs.declared.tree.SmallKind.TheVariants as small;
ghost use Rattle.bq_resolve_scope.specs.Statements as spec;
ghost use Rattle.bq_resolve.specs.Walks.{Writes};

use crate::identifier::fault_of;
use crate::walk::Walk;
use bq_base::{NameFault, SourceErr};
use bq_parse_grammar::Load;
use bq_resolve_scope::{FileNames, LoadStmt, LoadedSymbol};
use sqlite_items::Items;
use std::alloc::Global;

/// Resolves a load, which is carried along. A clause is F22 where another clause before it has its name, F21 where a statement of a .bzl
/// file bound it.
#[tactic(auto, unfolding(bq_resolve_scope::specs::Statements::load, bq_resolve_scope::specs::Statements::load_clause, bq_resolve_scope::specs::Visit::each))]
pub fn load(
    alloc: Global,
    file: &FileNames,
    walk: &mut Walk,
    line: u32,
    load: &Load,
) -> Result<(), SourceErr<NameFault>>
    ensures { Writes (spec.load file.now line load.now walk.old) result (small.Load load.now) walk.new }
{
    let mut clauses = Items::from_vec(Vec::with_capacity(alloc, load.clauses.len())?);
    for clause in load.clauses.as_slice() {
        let name = &clause.local;
        if walk.is_loaded(&name.name) {
            return Err(SourceErr::Bad(fault_of(NameFault::BoundTwice, name)?));
        }
        if walk.is_bound(file.kind(), &name.name) {
            return Err(SourceErr::Bad(fault_of(NameFault::Rebound, name)?));
        }
        walk.load(&name.name)?;
        clauses.push(LoadedSymbol {
            local: name.name.share()?,
            symbol: clause.symbol.share()?,
            global: file.global(&name.name),
        })?;
    }
    let label = load.label.share()?;
    walk.add_load(LoadStmt {
        label,
        line,
        clauses,
    })?;
    Ok(())
}
