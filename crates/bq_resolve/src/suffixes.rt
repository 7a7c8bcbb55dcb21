//! Operands, and what is done to them.

ghost use Rattle.std.specs.Prelude.{take, drop};
ghost use Rattle.bq_parse_grammar.specs.declared.tree.Argument.{out-Argument};
ghost use Rattle.bq_parse_grammar.specs.declared.tree.Argument.TheOpen.{Suffix-F};
ghost use Rattle.bq_parse_grammar.specs.declared.tree.Suffix.{out-Suffix};
ghost use Rattle.bq_parse_grammar.specs.declared.tree.Suffix.TheVariants as form;
ghost use Rattle.bq_resolve_scope.specs.Visit as visit;
ghost use Rattle.bq_resolve_scope.specs.Expressions as spec;
ghost use Rattle.bq_resolve.specs.Rules.{in_scope};
ghost use Rattle.bq_resolve.specs.Walks.{Writes, WritesNested};

use crate::rules::Rules;
use crate::scope::Scope;
use crate::walk::Walk;
use bq_base::{NameFault, SourceErr};
use bq_parse_grammar::{Argument, Boxed, Expr, Items, Suffix};

impl<
    'a,
    F: Copy + Fn(&Scope<'_>, usize, &mut Walk, &mut Expr) -> Result<(), SourceErr<NameFault>>,
> Rules<'a, F> {
    fn argument(&self, walk: &mut Walk, argument: &mut Argument) -> Result<(), SourceErr<NameFault>>
        requires { WritesNested self.now.depth (F.pre self.now.visit) (F.post self.now.visit) }
        ensures { Writes (in_scope spec.argument_by self.now.depth self.now.scope (out-Argument argument.old) walk.old) result argument.new walk.new }
    {
        match argument {
            Argument::Positional(value) => self.expr(walk, value),
            Argument::Named(_, value) => self.expr(walk, value),
            Argument::Star(value) => self.expr(walk, value),
            Argument::StarStar(value) => self.expr(walk, value),
        }
    }

    #[tactic(auto, unfolding(bq_resolve_scope::specs::Expressions::arguments))]
    pub fn arguments(
        &self,
        walk: &mut Walk,
        arguments: &mut Items<Argument>,
    ) -> Result<(), SourceErr<NameFault>>
        requires { WritesNested self.now.depth (F.pre self.now.visit) (F.post self.now.visit) }
        ensures { Writes (in_scope spec.arguments self.now.depth self.now.scope arguments.old walk.old) result arguments.new walk.new }
    {
        for at in 0..arguments.len() {
            self.argument(walk, arguments.item_mut(at))?;
        }
        Ok(())
    }

    fn optional(
        &self,
        walk: &mut Walk,
        part: &mut Option<Boxed<Expr>>,
    ) -> Result<(), SourceErr<NameFault>>
        requires { WritesNested self.now.depth (F.pre self.now.visit) (F.post self.now.visit) }
        ensures { Writes (visit.optional (spec.expr_to self.now.depth self.now.scope.file.now self.now.scope.blocks.now) part.old walk.old) result part.new walk.new }
    {
        match part {
            None => Ok(()),
            Some(part) => self.boxed(walk, part),
        }
    }

    /// `[start:stop:step]`
    fn slice(
        &self,
        walk: &mut Walk,
        start: &mut Option<Boxed<Expr>>,
        stop: &mut Option<Boxed<Expr>>,
        step: &mut Option<Boxed<Expr>>,
    ) -> Result<(), SourceErr<NameFault>>
        requires { WritesNested self.now.depth (F.pre self.now.visit) (F.post self.now.visit) }
        ensures { Writes (in_scope spec.suffix_by self.now.depth self.now.scope (Suffix-F.Slice start.old stop.old step.old) walk.old) result (form.Slice start.new stop.new step.new) walk.new }
    {
        self.optional(walk, start)?;
        self.optional(walk, stop)?;
        self.optional(walk, step)
    }

    /// Resolves what is done to an operand. The name of a method refers to nothing: it is looked up in the operand's value.
    pub fn suffix(&self, walk: &mut Walk, suffix: &mut Suffix) -> Result<(), SourceErr<NameFault>>
        requires { WritesNested self.now.depth (F.pre self.now.visit) (F.post self.now.visit) }
        ensures { Writes (in_scope spec.suffix_by self.now.depth self.now.scope (out-Suffix suffix.old) walk.old) result suffix.new walk.new }
    {
        match suffix {
            Suffix::Call(arguments) => self.arguments(walk, arguments),
            Suffix::Method(_, arguments) => self.arguments(walk, arguments),
            Suffix::Attribute(_) => Ok(()),
            Suffix::Index(index) => self.boxed(walk, index),
            Suffix::Slice(start, stop, step) => self.slice(walk, start, stop, step),
        }
    }

    /// Resolves the suffixes from this place on; those before it are resolved.
    #[tactic(auto, unfolding(bq_resolve_scope::specs::Expressions::suffixes))]
    pub fn suffixes_from(
        &self,
        first: usize,
        walk: &mut Walk,
        suffixes: &mut Items<Suffix>,
    ) -> Result<(), SourceErr<NameFault>>
        requires { WritesNested self.now.depth (F.pre self.now.visit) (F.post self.now.visit) }
        ensures { Writes (in_scope spec.suffixes self.now.depth self.now.scope (take first suffixes.old) (drop first suffixes.old) walk.old) result suffixes.new walk.new }
    {
        for at in first..suffixes.len() {
            self.suffix(walk, suffixes.item_mut(at))?;
        }
        Ok(())
    }
}
