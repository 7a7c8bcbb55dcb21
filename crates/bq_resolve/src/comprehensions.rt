//! Comprehensions.

ghost use Rattle.std.specs.Prelude.{take, drop};
ghost use Rattle.bq_parse_grammar.specs.declared.tree.Clause.{out-Clause};
ghost use Rattle.bq_parse_grammar.specs.declared.tree.Expr.TheVariants as e;
ghost use Rattle.bq_resolve.specs.Walks.{Writes, WritesNested};
ghost use Rattle.bq_resolve.specs.Comprehensions.{clause_in, clauses_in, further_clauses, list_in_block, list_comprehension, dict_in_block, dict_comprehension};

use crate::rules::Rules;
use crate::scope::Scope;
use crate::walk::Walk;
use bq_base::{NameFault, SourceErr};
use bq_parse_grammar::{Boxed, Clause, ComprehensionFrame, Expr, Items, Pair};
use bq_resolve_scope::{Block, MAX_LAYERS, comprehension_names};

impl<
    'a,
    F: Copy + Fn(&Scope<'_>, usize, &mut Walk, &mut Expr) -> Result<(), SourceErr<NameFault>>,
> Rules<'a, F> {
    /// Resolves a clause: its iterable among the blocks `round`.
    #[tactic(auto, unfolding(bq_resolve_scope::specs::Names::max_layers))]
    fn clause(
        &self,
        round: &[Block],
        walk: &mut Walk,
        clause: &mut Clause,
    ) -> Result<(), SourceErr<NameFault>>
        requires { WritesNested self.now.depth (F.pre self.now.visit) (F.post self.now.visit) }
        ensures { Writes (clause_in self.now.depth self.now.scope round.now (out-Clause clause.old) walk.old) result clause.new walk.new }
    {
        match clause {
            Clause::For(target, iterable) => {
                self.target_to(MAX_LAYERS, walk, target)?;
                let round = self.scope.among(round);
                (self.visit)(&round, self.depth, walk, iterable)
            }
            Clause::If(condition) => self.expr(walk, condition),
        }
    }

    /// Resolves the clauses after the first, which lie inside.
    fn further_clauses(
        &self,
        walk: &mut Walk,
        clauses: &mut Items<Clause>,
    ) -> Result<(), SourceErr<NameFault>>
        requires { WritesNested self.now.depth (F.pre self.now.visit) (F.post self.now.visit) }
        ensures { Writes (further_clauses self.now.depth self.now.scope (take 1 clauses.old) (drop 1 clauses.old) walk.old) result clauses.new walk.new }
    {
        for at in 1..clauses.len() {
            self.clause(self.scope.blocks, walk, clauses.item_mut(at))?;
        }
        Ok(())
    }

    /// Resolves the clauses of a comprehension: its first iterable lies outside it.
    #[tactic(auto, using(crate::proofs::Each::clauses_none))]
    fn clauses(
        &self,
        round: &[Block],
        walk: &mut Walk,
        clauses: &mut Items<Clause>,
    ) -> Result<(), SourceErr<NameFault>>
        requires { WritesNested self.now.depth (F.pre self.now.visit) (F.post self.now.visit) }
        ensures { Writes (clauses_in self.now.depth self.now.scope round.now clauses.old walk.old) result clauses.new walk.new }
    {
        if clauses.is_empty() {
            return Ok(());
        }
        self.clause(round, walk, clauses.item_mut(0))?;
        self.further_clauses(walk, clauses)
    }

    /// `[element for .. in ..]`, in the frame that is open.
    #[tactic(auto, unfolding(bq_resolve_scope::specs::Expressions::in_block))]
    fn list_in_block(
        &self,
        walk: &mut Walk,
        element: &mut Boxed<Expr>,
        clauses: &mut Boxed<Items<Clause>>,
    ) -> Result<(), SourceErr<NameFault>>
        requires { WritesNested self.now.depth (F.pre self.now.visit) (F.post self.now.visit) }
        ensures { Writes (list_in_block self.now.depth self.now.scope element.old clauses.old walk.old) result (e.ListComprehension element.new clauses.new) walk.new }
    {
        let names = comprehension_names(self.scope.alloc, clauses.get().as_slice())?;
        let blocks = walk.open(self.scope.alloc, names, self.scope.blocks)?;
        let inside = Rules {
            scope: self.scope.among(blocks.as_slice()),
            depth: self.depth,
            visit: self.visit,
        };
        inside.expr(walk, element.get_mut())?;
        inside.clauses(self.scope.blocks, walk, clauses.get_mut())
    }

    /// `[element for .. in ..]`
    #[tactic(auto, unfolding(bq_resolve_scope::specs::Expressions::comprehension))]
    pub fn list_comprehension(
        &self,
        walk: &mut Walk,
        element: &mut Boxed<Expr>,
        clauses: &mut Boxed<Items<Clause>>,
        frame: &mut ComprehensionFrame,
    ) -> Result<(), SourceErr<NameFault>>
        requires { WritesNested self.now.depth (F.pre self.now.visit) (F.post self.now.visit) }
        ensures { Writes (list_comprehension self.now.depth self.now.scope element.old clauses.old walk.old) result (e.ListComprehension element.new clauses.new frame.new) walk.new }
    {
        if !self.scope.blocks.is_empty() {
            *frame = ComprehensionFrame::Shared;
            return self.list_in_block(walk, element, clauses);
        }
        let had = walk.frame(0);
        self.list_in_block(walk, element, clauses)?;
        *frame = ComprehensionFrame::Own(walk.frame(had));
        Ok(())
    }

    /// `{key: value for .. in ..}`, in the frame that is open.
    #[tactic(auto, unfolding(bq_resolve_scope::specs::Expressions::in_block))]
    fn dict_in_block(
        &self,
        walk: &mut Walk,
        pair: &mut Boxed<Pair>,
        clauses: &mut Boxed<Items<Clause>>,
    ) -> Result<(), SourceErr<NameFault>>
        requires { WritesNested self.now.depth (F.pre self.now.visit) (F.post self.now.visit) }
        ensures { Writes (dict_in_block self.now.depth self.now.scope pair.old clauses.old walk.old) result (e.DictComprehension pair.new clauses.new) walk.new }
    {
        let names = comprehension_names(self.scope.alloc, clauses.get().as_slice())?;
        let blocks = walk.open(self.scope.alloc, names, self.scope.blocks)?;
        let inside = Rules {
            scope: self.scope.among(blocks.as_slice()),
            depth: self.depth,
            visit: self.visit,
        };
        inside.pair(walk, pair.get_mut())?;
        inside.clauses(self.scope.blocks, walk, clauses.get_mut())
    }

    /// `{key: value for .. in ..}`
    #[tactic(auto, unfolding(bq_resolve_scope::specs::Expressions::comprehension))]
    pub fn dict_comprehension(
        &self,
        walk: &mut Walk,
        pair: &mut Boxed<Pair>,
        clauses: &mut Boxed<Items<Clause>>,
        frame: &mut ComprehensionFrame,
    ) -> Result<(), SourceErr<NameFault>>
        requires { WritesNested self.now.depth (F.pre self.now.visit) (F.post self.now.visit) }
        ensures { Writes (dict_comprehension self.now.depth self.now.scope pair.old clauses.old walk.old) result (e.DictComprehension pair.new clauses.new frame.new) walk.new }
    {
        if !self.scope.blocks.is_empty() {
            *frame = ComprehensionFrame::Shared;
            return self.dict_in_block(walk, pair, clauses);
        }
        let had = walk.frame(0);
        self.dict_in_block(walk, pair, clauses)?;
        *frame = ComprehensionFrame::Own(walk.frame(had));
        Ok(())
    }
}
