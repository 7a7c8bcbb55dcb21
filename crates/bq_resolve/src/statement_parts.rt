//! The expressions and the targets of statements.

ghost use Rattle.bq_resolve_scope.specs.Expressions as expressions;
ghost use Rattle.bq_resolve_scope.specs.Statements as spec;
ghost use Rattle.bq_resolve.specs.Walks.{Writes};

use crate::expression::expr_to;
use crate::rules::Rules;
use crate::scope::Scope;
use crate::walk::Walk;
use bq_base::{NameFault, SourceErr};
use bq_parse_grammar::{Expr, TargetExpr};
use bq_resolve_scope::MAX_LAYERS;

/// Resolves an expression that is at most `depth` layers deep: `expr_to`, which only its own crate can pass on as a function.
fn nested(
    scope: &Scope<'_>,
    depth: usize,
    walk: &mut Walk,
    expr: &mut Expr,
) -> Result<(), SourceErr<NameFault>>
    ensures { Writes (expressions.expr_to depth scope.now.file.now scope.now.blocks.now expr.old walk.old) result expr.new walk.new }
{
    expr_to(scope, depth, walk, expr)
}

#[tactic(auto, unfolding(bq_resolve_scope::specs::Statements::expr, bq_resolve_scope::specs::Names::max_layers))]
pub fn expr(scope: &Scope<'_>, walk: &mut Walk, expr: &mut Expr) -> Result<(), SourceErr<NameFault>>
    ensures { Writes (spec.expr scope.now.file.now scope.now.blocks.now expr.old walk.old) result expr.new walk.new }
{
    expr_to(scope, MAX_LAYERS, walk, expr)
}

#[tactic(auto, unfolding(bq_resolve_scope::specs::Statements::target, bq_resolve_scope::specs::Names::max_layers))]
pub fn target(
    scope: &Scope<'_>,
    walk: &mut Walk,
    target: &mut TargetExpr,
) -> Result<(), SourceErr<NameFault>>
    ensures { Writes (spec.target scope.now.file.now scope.now.blocks.now target.old walk.old) result target.new walk.new }
{
    let rules = Rules {
        scope: *scope,
        depth: MAX_LAYERS,
        visit: nested,
    };
    rules.target_to(MAX_LAYERS, walk, target)
}
