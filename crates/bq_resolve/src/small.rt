//! Statements without a block.

ghost use Rattle.std.specs.Prelude.{◌≡◌, [], Ok, Err, if◌then◌else◌};
ghost use Rattle.bq_base.specs.declared.fault.NameFault.TheVariants as f;
ghost use Rattle.bq_base.specs.declared.fault.SourceErr.TheVariants.{Bad};
ghost use Rattle.bq_base.specs.Fault.{fault_at};
ghost use Rattle.bq_parse_grammar.specs.declared.tree.SmallKind.TheVariants as small;
ghost use Rattle.bq_resolve_scope.specs.Visit as visit;
ghost use Rattle.bq_resolve_scope.specs.Statements as spec;
ghost use Rattle.bq_resolve.specs.Walks.{Writes};

use crate::load::load;
use crate::scope::Scope;
use crate::statement_parts::{expr, target};
use crate::walk::Walk;
use bq_base::{Fault, NameFault, SourceErr};
use bq_parse_grammar::{Expr, Items, Operator, SmallKind, SmallStmt, TargetExpr};

/// Returns F23, the fault of what stands where it may not.
pub fn misplaced<T>(line: u32) -> Result<T, SourceErr<NameFault>>
    ensures { result ≡ Err (Bad (fault_at f.BadFlow line)) }
{
    Err(SourceErr::Bad(Fault::at(NameFault::BadFlow, line)))
}

/// Returns F23 for what is allowed in loops alone.
fn in_loop(looping: bool, line: u32) -> Result<(), SourceErr<NameFault>>
    ensures { result ≡ (if looping then Ok tt else Err (Bad (fault_at f.BadFlow line))) }
{
    if looping {
        return Ok(());
    }
    misplaced(line)
}

/// `target = value`: the target comes first.
#[tactic(auto, unfolding(bq_resolve_scope::specs::Statements::assign))]
fn assign(
    scope: &Scope<'_>,
    walk: &mut Walk,
    left: &mut TargetExpr,
    value: &mut Expr,
) -> Result<(), SourceErr<NameFault>>
    ensures { Writes (spec.assign scope.now.file.now scope.now.blocks.now left.old value.old walk.old) result (small.Assign left.new value.new) walk.new }
{
    target(scope, walk, left)?;
    expr(scope, walk, value)
}

/// `target += value`
#[tactic(auto, unfolding(bq_resolve_scope::specs::Statements::augment))]
fn augment(
    scope: &Scope<'_>,
    walk: &mut Walk,
    left: &mut TargetExpr,
    operator: Operator,
    value: &mut Expr,
) -> Result<(), SourceErr<NameFault>>
    ensures { Writes (spec.augment scope.now.file.now scope.now.blocks.now left.old operator value.old walk.old) result (small.Augment left.new operator value.new) walk.new }
{
    target(scope, walk, left)?;
    expr(scope, walk, value)
}

/// Resolves `return`, which is allowed in functions alone.
#[tactic(auto, unfolding(bq_resolve_scope::specs::Statements::returned))]
fn returned(
    scope: &Scope<'_>,
    walk: &mut Walk,
    line: u32,
    value: &mut Option<Expr>,
) -> Result<(), SourceErr<NameFault>>
    ensures { Writes (spec.returned scope.now.file.now scope.now.blocks.now line value.old walk.old) result (small.Return value.new) walk.new }
{
    if scope.blocks.is_empty() {
        return misplaced(line);
    }
    match value {
        None => Ok(()),
        Some(value) => expr(scope, walk, value),
    }
}

/// Resolves a small statement; `looping` is true inside a `for` of the function.
#[tactic(auto, unfolding(bq_resolve_scope::specs::Statements::small_stmt, bq_resolve_scope::specs::Statements::load_in, bq_resolve_scope::specs::Statements::in_loop))]
fn small_stmt(
    scope: &Scope<'_>,
    looping: bool,
    walk: &mut Walk,
    statement: &mut SmallStmt,
) -> Result<(), SourceErr<NameFault>>
    ensures { Writes (spec.small_stmt scope.now.file.now scope.now.blocks.now looping statement.old walk.old) result statement.new walk.new }
{
    let line = statement.line;
    match &mut statement.kind {
        SmallKind::Expr(x) => expr(scope, walk, x),
        SmallKind::Assign(left, value) => assign(scope, walk, left.get_mut(), value),
        SmallKind::Augment(left, operator, value) => {
            augment(scope, walk, left.get_mut(), *operator, value)
        }
        SmallKind::Return(value) => returned(scope, walk, line, value),
        SmallKind::Break => in_loop(looping, line),
        SmallKind::Continue => in_loop(looping, line),
        SmallKind::Pass => Ok(()),
        // outside functions alone
        SmallKind::Load(statement) => {
            if scope.blocks.is_empty() {
                return load(scope.alloc, scope.file, walk, line, statement);
            }
            misplaced(line)
        }
    }
}

/// Resolves the small statements of one logical line.
pub fn line(
    scope: &Scope<'_>,
    looping: bool,
    walk: &mut Walk,
    statements: &mut Items<SmallStmt>,
) -> Result<(), SourceErr<NameFault>>
    ensures { Writes (visit.each (spec.small_stmt scope.now.file.now scope.now.blocks.now looping) [] statements.old walk.old) result statements.new walk.new }
{
    for at in 0..statements.len() {
        small_stmt(scope, looping, walk, statements.item_mut(at))?;
    }
    Ok(())
}
