//! All forms of expressions, with the resolver of those inside.

ghost use Rattle.std.specs.Prelude.{[]};
ghost use Rattle.bq_parse_grammar.specs.declared.tree.Argument.TheOpen.{Expr-F};
ghost use Rattle.bq_parse_grammar.specs.declared.tree.Expr.{out-Expr};
ghost use Rattle.bq_parse_grammar.specs.declared.tree.Expr.TheVariants as e;
ghost use Rattle.bq_resolve_scope.specs.Visit as visit;
ghost use Rattle.bq_resolve_scope.specs.Expressions as spec;
ghost use Rattle.bq_resolve.specs.Rules.{in_scope};
ghost use Rattle.bq_resolve.specs.Walks.{Writes, WritesNested};

use crate::identifier::fault_of;
use crate::rules::Rules;
use crate::scope::Scope;
use crate::walk::Walk;
use bq_base::{Fault, NameFault, SourceErr};
use bq_parse_grammar::{Boxed, Choice, Comparison, Expr, Identifier, Items, Operation};

impl<
    'a,
    F: Copy + Fn(&Scope<'_>, usize, &mut Walk, &mut Expr) -> Result<(), SourceErr<NameFault>>,
> Rules<'a, F> {
    /// Resolves the use of a name: it is of the innermost block that holds it, else F20.
    #[tactic(auto, unfolding(bq_resolve_scope::specs::Expressions::use_at))]
    fn name(&self, walk: &mut Walk, name: &mut Identifier) -> Result<(), SourceErr<NameFault>>
        ensures { Writes (in_scope spec.expr_by self.now.depth self.now.scope (Expr-F.Expr::Name name.old) walk.old) result (e.Name name.new) walk.new }
    {
        match self.scope.file.use_of(self.scope.blocks, &name.name) {
            Some(referent) => {
                name.referent = referent;
                Ok(())
            }
            None => Err(SourceErr::Bad(fault_of(NameFault::UnknownName, name)?)),
        }
    }

    #[tactic(auto, unfolding(bq_resolve_scope::specs::Expressions::operation))]
    fn operation(
        &self,
        walk: &mut Walk,
        operation: &mut Operation,
    ) -> Result<(), SourceErr<NameFault>>
        requires { WritesNested self.now.depth (F.pre self.now.visit) (F.post self.now.visit) }
        ensures { Writes (in_scope spec.operation self.now.depth self.now.scope operation.old walk.old) result operation.new walk.new }
    {
        self.expr(walk, &mut operation.operand)
    }

    fn operations(
        &self,
        walk: &mut Walk,
        operations: &mut Items<Operation>,
    ) -> Result<(), SourceErr<NameFault>>
        requires { WritesNested self.now.depth (F.pre self.now.visit) (F.post self.now.visit) }
        ensures { Writes (visit.each (in_scope spec.operation self.now.depth self.now.scope) [] operations.old walk.old) result operations.new walk.new }
    {
        for at in 0..operations.len() {
            self.operation(walk, operations.item_mut(at))?;
        }
        Ok(())
    }

    /// Resolves an operand, and the operations on it.
    fn binary(
        &self,
        walk: &mut Walk,
        first: &mut Boxed<Expr>,
        operations: &mut Items<Operation>,
    ) -> Result<(), SourceErr<NameFault>>
        requires { WritesNested self.now.depth (F.pre self.now.visit) (F.post self.now.visit) }
        ensures { Writes (in_scope spec.expr_by self.now.depth self.now.scope (Expr-F.Binary first.old operations.old) walk.old) result (e.Binary first.new operations.new) walk.new }
    {
        self.boxed(walk, first)?;
        self.operations(walk, operations)
    }

    fn compare(
        &self,
        walk: &mut Walk,
        left: &mut Boxed<Expr>,
        comparison: Comparison,
        right: &mut Boxed<Expr>,
    ) -> Result<(), SourceErr<NameFault>>
        requires { WritesNested self.now.depth (F.pre self.now.visit) (F.post self.now.visit) }
        ensures { Writes (in_scope spec.expr_by self.now.depth self.now.scope (Expr-F.Compare left.old comparison right.old) walk.old) result (e.Compare left.new comparison right.new) walk.new }
    {
        self.boxed(walk, left)?;
        self.boxed(walk, right)
    }

    /// Resolves choices, and the last value.
    fn conditional(
        &self,
        walk: &mut Walk,
        choices: &mut Items<Choice>,
        last: &mut Boxed<Expr>,
    ) -> Result<(), SourceErr<NameFault>>
        requires { WritesNested self.now.depth (F.pre self.now.visit) (F.post self.now.visit) }
        ensures { Writes (in_scope spec.expr_by self.now.depth self.now.scope (Expr-F.Conditional choices.old last.old) walk.old) result (e.Conditional choices.new last.new) walk.new }
    {
        self.choices(walk, choices)?;
        self.boxed(walk, last)
    }

    /// Resolves an expression, of any form.
    fn expr_by(&self, walk: &mut Walk, expr: &mut Expr) -> Result<(), SourceErr<NameFault>>
        requires { WritesNested self.now.depth (F.pre self.now.visit) (F.post self.now.visit) }
        ensures { Writes (in_scope spec.expr_by self.now.depth self.now.scope (out-Expr expr.old) walk.old) result expr.new walk.new }
    {
        match expr {
            Expr::Name(name) => self.name(walk, name),
            Expr::Int(_) => Ok(()),
            Expr::String(_) => Ok(()),
            Expr::List(items) => self.exprs(walk, items),
            Expr::Tuple(items) => self.exprs(walk, items),
            Expr::Dict(pairs) => self.pairs(walk, pairs),
            Expr::ListComprehension(element, clauses, frame) => {
                self.list_comprehension(walk, element, clauses, frame)
            }
            Expr::DictComprehension(pair, clauses, frame) => {
                self.dict_comprehension(walk, pair, clauses, frame)
            }
            Expr::Primary(operand, suffixes) => self.primary(walk, operand, suffixes),
            Expr::Unary(_, operand) => self.boxed(walk, operand),
            Expr::Binary(first, operations) => self.binary(walk, first, operations),
            Expr::Compare(left, comparison, right) => {
                self.compare(walk, left, *comparison, right)
            }
            Expr::Conditional(choices, last) => self.conditional(walk, choices, last),
            Expr::Lambda => Ok(()),
        }
    }
}

/// Resolves an expression that is at most `depth` layers deep.
#[tactic(auto, using(crate::proofs::ExpressionLayers::expr_layer), unfolding(bq_resolve_scope::specs::Expressions::expr_to))]
pub fn expr_to(
    scope: &Scope<'_>,
    depth: usize,
    walk: &mut Walk,
    expr: &mut Expr,
) -> Result<(), SourceErr<NameFault>>
    ensures { Writes (spec.expr_to depth scope.now.file.now scope.now.blocks.now expr.old walk.old) result expr.new walk.new }
{
    if depth == 0 {
        return Err(SourceErr::Bad(Fault::at(NameFault::Nesting, 0)));
    }
    Rules {
        scope: *scope,
        depth: depth - 1,
        visit: expr_to,
    }
    .expr_by(walk, expr)
}
