//! The rules of expressions take the resolver of those inside as a parameter, so that each rule is proved by itself.

ghost use Rattle.std.specs.Prelude.{[]};
ghost use Rattle.bq_resolve_scope.specs.Visit as visit;
ghost use Rattle.bq_resolve_scope.specs.Expressions as spec;
ghost use Rattle.bq_resolve.specs.Rules.{in_scope};
ghost use Rattle.bq_resolve.specs.Walks.{Writes, WritesNested};

use crate::scope::Scope;
use crate::walk::Walk;
use bq_base::{NameFault, SourceErr};
use bq_parse_grammar::{Boxed, Choice, Expr, Items, Pair};

#[derive(Clone, Copy)]
pub struct Rules<'a, F> {
    pub scope: Scope<'a>,
    /// How many layers inside are still looked at.
    pub depth: usize,
    pub visit: F,
}

impl<
    'a,
    F: Copy + Fn(&Scope<'_>, usize, &mut Walk, &mut Expr) -> Result<(), SourceErr<NameFault>>,
> Rules<'a, F> {
    /// Resolves an expression inside.
    pub fn expr(&self, walk: &mut Walk, expr: &mut Expr) -> Result<(), SourceErr<NameFault>>
        requires { WritesNested self.now.depth (F.pre self.now.visit) (F.post self.now.visit) }
        ensures { Writes (spec.expr_to self.now.depth self.now.scope.file.now self.now.scope.blocks.now expr.old walk.old) result expr.new walk.new }
    {
        (self.visit)(&self.scope, self.depth, walk, expr)
    }

    /// Resolves an expression inside, in its box.
    pub fn boxed(&self, walk: &mut Walk, expr: &mut Boxed<Expr>) -> Result<(), SourceErr<NameFault>>
        requires { WritesNested self.now.depth (F.pre self.now.visit) (F.post self.now.visit) }
        ensures { Writes (spec.expr_to self.now.depth self.now.scope.file.now self.now.scope.blocks.now expr.old walk.old) result expr.new walk.new }
    {
        self.expr(walk, expr.get_mut())
    }

    /// Resolves expressions, one after another.
    pub fn exprs(
        &self,
        walk: &mut Walk,
        exprs: &mut Items<Expr>,
    ) -> Result<(), SourceErr<NameFault>>
        requires { WritesNested self.now.depth (F.pre self.now.visit) (F.post self.now.visit) }
        ensures { Writes (visit.each (spec.expr_to self.now.depth self.now.scope.file.now self.now.scope.blocks.now) [] exprs.old walk.old) result exprs.new walk.new }
    {
        for at in 0..exprs.len() {
            self.expr(walk, exprs.item_mut(at))?;
        }
        Ok(())
    }

    /// `key: value`
    #[tactic(auto, unfolding(bq_resolve_scope::specs::Expressions::pair))]
    pub fn pair(&self, walk: &mut Walk, pair: &mut Pair) -> Result<(), SourceErr<NameFault>>
        requires { WritesNested self.now.depth (F.pre self.now.visit) (F.post self.now.visit) }
        ensures { Writes (in_scope spec.pair self.now.depth self.now.scope pair.old walk.old) result pair.new walk.new }
    {
        self.expr(walk, &mut pair.key)?;
        self.expr(walk, &mut pair.value)
    }

    pub fn pairs(
        &self,
        walk: &mut Walk,
        pairs: &mut Items<Pair>,
    ) -> Result<(), SourceErr<NameFault>>
        requires { WritesNested self.now.depth (F.pre self.now.visit) (F.post self.now.visit) }
        ensures { Writes (visit.each (in_scope spec.pair self.now.depth self.now.scope) [] pairs.old walk.old) result pairs.new walk.new }
    {
        for at in 0..pairs.len() {
            self.pair(walk, pairs.item_mut(at))?;
        }
        Ok(())
    }

    /// `value if condition`: the value stands before the condition.
    #[tactic(auto, unfolding(bq_resolve_scope::specs::Expressions::choice))]
    fn choice(&self, walk: &mut Walk, choice: &mut Choice) -> Result<(), SourceErr<NameFault>>
        requires { WritesNested self.now.depth (F.pre self.now.visit) (F.post self.now.visit) }
        ensures { Writes (in_scope spec.choice self.now.depth self.now.scope choice.old walk.old) result choice.new walk.new }
    {
        self.expr(walk, &mut choice.value)?;
        self.expr(walk, &mut choice.condition)
    }

    pub fn choices(
        &self,
        walk: &mut Walk,
        choices: &mut Items<Choice>,
    ) -> Result<(), SourceErr<NameFault>>
        requires { WritesNested self.now.depth (F.pre self.now.visit) (F.post self.now.visit) }
        ensures { Writes (visit.each (in_scope spec.choice self.now.depth self.now.scope) [] choices.old walk.old) result choices.new walk.new }
    {
        for at in 0..choices.len() {
            self.choice(walk, choices.item_mut(at))?;
        }
        Ok(())
    }
}
