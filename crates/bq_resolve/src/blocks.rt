//! Statements with blocks, over the resolver of the statements in them.

ghost use Rattle.std.specs.Prelude.{[], true};
ghost use Rattle.bq_parse_grammar.specs.declared.tree.Stmt.{out-Stmt};
ghost use Rattle.bq_parse_grammar.specs.declared.tree.Stmt.TheVariants as form;
ghost use Rattle.bq_resolve_scope.specs.Visit as visit;
ghost use Rattle.bq_resolve_scope.specs.Statements as spec;
ghost use Rattle.bq_resolve.specs.Walks.{Writes};
ghost use Rattle.bq_resolve.specs.Inner.{inner, with_inner, WritesStatement};

use crate::scope::Scope;
use crate::small::{line, misplaced};
use crate::statement_parts::{expr, target};
use crate::walk::Walk;
use bq_base::{NameFault, SourceErr};
use bq_parse_grammar::{Branch, Expr, Items, Stmt, TargetExpr};

/// The rules of blocks take the resolver of the statements in them as a parameter, so that each rule is proved by itself.
#[derive(Drop)]
pub struct BlockResolver<'a, F> {
    pub scope: Scope<'a>,
    /// How many layers of the statements inside are still looked at.
    pub layers: usize,
    pub inner: F,
}

impl<
    'a,
    F: Fn(&Scope<'_>, usize, bool, &mut Walk, &mut Stmt) -> Result<(), SourceErr<NameFault>>,
> BlockResolver<'a, F> {
    /// Resolves a statement inside; `looping` is true inside a `for` of the function.
    fn statement(
        &self,
        looping: bool,
        walk: &mut Walk,
        statement: &mut Stmt,
    ) -> Result<(), SourceErr<NameFault>>
        requires { WritesStatement self.now.layers (F.pre self.now.inner) (F.post self.now.inner) }
        ensures { Writes (inner self.now.scope self.now.layers looping statement.old walk.old) result statement.new walk.new }
    {
        (self.inner)(&self.scope, self.layers, looping, walk, statement)
    }

    /// Resolves the statements of a block.
    pub fn block(
        &self,
        looping: bool,
        walk: &mut Walk,
        statements: &mut Items<Stmt>,
    ) -> Result<(), SourceErr<NameFault>>
        requires { WritesStatement self.now.layers (F.pre self.now.inner) (F.post self.now.inner) }
        ensures { Writes (visit.each (inner self.now.scope self.now.layers looping) [] statements.old walk.old) result statements.new walk.new }
    {
        for at in 0..statements.len() {
            self.statement(looping, walk, statements.item_mut(at))?;
        }
        Ok(())
    }

    /// `if condition:`, or `elif`, and its block.
    #[tactic(auto, unfolding(bq_resolve_scope::specs::Statements::branch))]
    fn if_branch(
        &self,
        looping: bool,
        walk: &mut Walk,
        branch: &mut Branch,
    ) -> Result<(), SourceErr<NameFault>>
        requires { WritesStatement self.now.layers (F.pre self.now.inner) (F.post self.now.inner) }
        ensures { Writes (with_inner spec.branch self.now.scope self.now.layers looping branch.old walk.old) result branch.new walk.new }
    {
        expr(&self.scope, walk, &mut branch.condition)?;
        self.block(looping, walk, &mut branch.block)
    }

    fn branches(
        &self,
        looping: bool,
        walk: &mut Walk,
        branches: &mut Items<Branch>,
    ) -> Result<(), SourceErr<NameFault>>
        requires { WritesStatement self.now.layers (F.pre self.now.inner) (F.post self.now.inner) }
        ensures { Writes (visit.each (with_inner spec.branch self.now.scope self.now.layers looping) [] branches.old walk.old) result branches.new walk.new }
    {
        for at in 0..branches.len() {
            self.if_branch(looping, walk, branches.item_mut(at))?;
        }
        Ok(())
    }

    /// Resolves the branches of an `if`, and the block of its `else`.
    #[tactic(auto, unfolding(bq_resolve_scope::specs::Statements::if_stmt))]
    fn if_stmt(
        &self,
        looping: bool,
        walk: &mut Walk,
        branches: &mut Items<Branch>,
        otherwise: &mut Items<Stmt>,
    ) -> Result<(), SourceErr<NameFault>>
        requires { WritesStatement self.now.layers (F.pre self.now.inner) (F.post self.now.inner) }
        ensures { Writes (with_inner spec.if_stmt self.now.scope self.now.layers looping branches.old otherwise.old walk.old) result (form.If branches.new otherwise.new) walk.new }
    {
        self.branches(looping, walk, branches)?;
        self.block(looping, walk, otherwise)
    }

    /// Resolves a `for`.
    #[tactic(auto, unfolding(bq_resolve_scope::specs::Statements::for_stmt))]
    fn for_stmt(
        &self,
        walk: &mut Walk,
        variables: &mut TargetExpr,
        iterable: &mut Expr,
        body: &mut Items<Stmt>,
    ) -> Result<(), SourceErr<NameFault>>
        requires { WritesStatement self.now.layers (F.pre self.now.inner) (F.post self.now.inner) }
        ensures { Writes (with_inner spec.for_stmt self.now.scope self.now.layers true variables.old iterable.old body.old walk.old) result (form.For variables.new iterable.new body.new) walk.new }
    {
        target(&self.scope, walk, variables)?;
        expr(&self.scope, walk, iterable)?;
        self.block(true, walk, body)
    }

    /// Resolves a statement of a function.
    pub fn stmt(
        &self,
        looping: bool,
        walk: &mut Walk,
        statement: &mut Stmt,
    ) -> Result<(), SourceErr<NameFault>>
        requires { WritesStatement self.now.layers (F.pre self.now.inner) (F.post self.now.inner) }
        ensures { Writes (spec.stmt_by self.now.scope.file.now (inner self.now.scope self.now.layers) self.now.scope.blocks.now looping (out-Stmt statement.old) walk.old) result statement.new walk.new }
    {
        match statement {
            Stmt::Simple(small) => line(&self.scope, looping, walk, small),
            Stmt::If(branches, otherwise) => self.if_stmt(looping, walk, branches, otherwise),
            Stmt::For(variables, iterable, body) => {
                self.for_stmt(walk, variables, iterable, body)
            }
            Stmt::Def(name, _, _) => misplaced(name.line()),
        }
    }
}
