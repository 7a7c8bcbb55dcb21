//! Statements of functions, with the resolver of those in blocks.

ghost use Rattle.bq_resolve_scope.specs.Statements as spec;
ghost use Rattle.bq_resolve.specs.Walks.{Writes};

use crate::blocks::BlockResolver;
use crate::scope::Scope;
use crate::walk::Walk;
use bq_base::{Fault, NameFault, SourceErr};
use bq_parse_grammar::Stmt;

/// Resolves a statement of a function that is at most `layers` layers deep; `looping` is true inside a `for` of the function.
pub fn stmt_to(
    scope: &Scope<'_>,
    layers: usize,
    looping: bool,
    walk: &mut Walk,
    statement: &mut Stmt,
) -> Result<(), SourceErr<NameFault>>
    ensures { Writes (spec.stmt_to scope.now.file.now layers scope.now.blocks.now looping statement.old walk.old) result statement.new walk.new }
{
    if layers == 0 {
        return Err(SourceErr::Bad(Fault::at(NameFault::Nesting, 0)));
    }
    BlockResolver {
        scope: *scope,
        layers: layers - 1,
        inner: stmt_to,
    }
    .stmt(looping, walk, statement)
}
