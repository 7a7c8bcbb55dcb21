//! Targets of assignments and loops.

ghost use Rattle.std.specs.Prelude.{[]};
ghost use Rattle.bq_resolve_scope.specs.Visit as visit;
ghost use Rattle.bq_resolve.specs.Rules.{target_in};
ghost use Rattle.bq_resolve.specs.Walks.{Writes, WritesNested};

use crate::identifier::bound_at;
use crate::rules::Rules;
use crate::scope::Scope;
use crate::walk::Walk;
use bq_base::{Fault, NameFault, SourceErr};
use bq_parse_grammar::{Expr, Items, TargetExpr};

impl<
    'a,
    F: Copy + Fn(&Scope<'_>, usize, &mut Walk, &mut Expr) -> Result<(), SourceErr<NameFault>>,
> Rules<'a, F> {
    #[cycle(targets)]
    fn targets_to(
        &self,
        layers: usize,
        walk: &mut Walk,
        targets: &mut Items<TargetExpr>,
    ) -> Result<(), SourceErr<NameFault>>
        requires { WritesNested self.now.depth (F.pre self.now.visit) (F.post self.now.visit) }
        ensures { Writes (visit.each (target_in self.now.depth self.now.scope layers) [] targets.old walk.old) result targets.new walk.new }
    {
        for at in 0..targets.len() {
            self.target_to(layers, walk, targets.item_mut(at))?;
        }
        Ok(())
    }

    /// Resolves a target that is at most `layers` layers deep.
    #[cycle(targets)]
    #[tactic(auto, using(crate::proofs::ExpressionLayers::target_layer), unfolding(bq_resolve_scope::specs::Expressions::target_to))]
    pub fn target_to(
        &self,
        layers: usize,
        walk: &mut Walk,
        target: &mut TargetExpr,
    ) -> Result<(), SourceErr<NameFault>>
        requires { WritesNested self.now.depth (F.pre self.now.visit) (F.post self.now.visit) }
        ensures { Writes (target_in self.now.depth self.now.scope layers target.old walk.old) result target.new walk.new }
    {
        if layers == 0 {
            return Err(SourceErr::Bad(Fault::at(NameFault::Nesting, 0)));
        }
        match target {
            TargetExpr::Name(name) => bound_at(&self.scope, walk, name),
            TargetExpr::Index(operand, index) => {
                self.boxed(walk, operand)?;
                self.boxed(walk, index)
            }
            TargetExpr::Tuple(targets) => self.targets_to(layers - 1, walk, targets),
            TargetExpr::List(targets) => self.targets_to(layers - 1, walk, targets),
        }
    }
}
