//! An operand with what is done to it, among them `native.NAME(..)` and `attr.NAME(..)`.

ghost use Rattle.std.specs.Prelude.{◌≡◌, ◌<◌, length};
ghost use Rattle.bq_parse_grammar.specs.declared.tree.Expr.{out-Expr};
ghost use Rattle.bq_parse_grammar.specs.declared.tree.Expr.TheVariants as e;
ghost use Rattle.bq_parse_grammar.specs.declared.tree.Suffix.{out-Suffix};
ghost use Rattle.bq_resolve_scope.specs.Expressions as spec;
ghost use Rattle.bq_resolve.specs.Members as members;
ghost use Rattle.bq_resolve.specs.Rules.{in_scope};
ghost use Rattle.bq_resolve.specs.Walks.{Writes, WritesNested};

use crate::identifier::fault_of;
use crate::rules::Rules;
use crate::scope::Scope;
use crate::walk::Walk;
use bq_base::{NameFault, SourceErr};
use bq_parse_grammar::{Boxed, Expr, FileKind, Items, Referent, Suffix};
use bq_predeclared::Predeclared;
use bq_resolve_scope::Namespace;

/// Returns the namespace that the operand is, in a .bzl file that binds no such name.
#[tactic(auto, unfolding(bq_resolve_scope::specs::Expressions::space_of))]
fn namespace_at(scope: &Scope<'_>, operand: &Expr) -> Option<Namespace>
    ensures { result ≡ members.space_at scope.now.file.now scope.now.blocks.now (out-Expr operand.now) }
{
    let Expr::Name(name) = operand else {
        return None;
    };
    match scope.file.kind() {
        FileKind::Build => None,
        FileKind::Bzl => {
            let space = Namespace::named(name.name.as_slice());
            if space.is_none() {
                return None;
            }
            match scope.file.use_of(scope.blocks, &name.name) {
                None => space,
                Some(_) => None,
            }
        }
    }
}

/// Makes a name refer to the member.
fn refer(operand: &mut Expr, member: Predeclared)
    ensures { operand.new ≡ members.as_member member (out-Expr operand.old) operand.old }
{
    if let Expr::Name(name) = operand {
        name.referent = Referent::Member(member);
    }
}

impl<
    'a,
    F: Copy + Fn(&Scope<'_>, usize, &mut Walk, &mut Expr) -> Result<(), SourceErr<NameFault>>,
> Rules<'a, F> {
    /// Resolves an operand that is no namespace, and what is done to it.
    #[tactic(auto, unfolding(bq_resolve_scope::specs::Expressions::operand))]
    fn operand(
        &self,
        walk: &mut Walk,
        operand: &mut Boxed<Expr>,
        suffixes: &mut Items<Suffix>,
    ) -> Result<(), SourceErr<NameFault>>
        requires { WritesNested self.now.depth (F.pre self.now.visit) (F.post self.now.visit) }
        ensures { Writes (in_scope spec.operand self.now.depth self.now.scope operand.old suffixes.old walk.old) result (e.Primary operand.new suffixes.new) walk.new }
    {
        self.boxed(walk, operand)?;
        self.suffixes_from(0, walk, suffixes)
    }

    /// Makes a method a call of the member, and resolves its arguments.
    fn member_suffix(
        &self,
        member: Predeclared,
        walk: &mut Walk,
        suffix: &mut Suffix,
    ) -> Result<(), SourceErr<NameFault>>
        requires { WritesNested self.now.depth (F.pre self.now.visit) (F.post self.now.visit) }
        ensures { Writes (in_scope members.member_suffix_by self.now.depth self.now.scope member (out-Suffix suffix.old) walk.old) result suffix.new walk.new }
    {
        match suffix {
            Suffix::Method(name, arguments) => {
                name.referent = Referent::Member(member);
                self.arguments(walk, arguments)
            }
            _ => self.suffix(walk, suffix),
        }
    }

    /// Resolves a call of the member of a namespace, and what is done to its result.
    fn member_call(
        &self,
        member: Predeclared,
        walk: &mut Walk,
        operand: &mut Boxed<Expr>,
        suffixes: &mut Items<Suffix>,
    ) -> Result<(), SourceErr<NameFault>>
        requires nested { WritesNested self.now.depth (F.pre self.now.visit) (F.post self.now.visit) }
        requires some { 0 < length suffixes.old }
        ensures { Writes (in_scope members.member_primary self.now.depth self.now.scope member operand.old suffixes.old walk.old) result (e.Primary operand.new suffixes.new) walk.new }
    {
        refer(operand.get_mut(), member);
        self.member_suffix(member, walk, suffixes.item_mut(0))?;
        self.suffixes_from(1, walk, suffixes)
    }

    /// Resolves an operand, and what is done to it: `native.name(..)` is the build function or rule `name`, `attr.name(..)` the function
    /// that makes an attribute, else F20 at `name`.
    #[tactic(auto, unfolding(bq_resolve_scope::specs::Expressions::primary, bq_resolve_scope::specs::Expressions::call_member))]
    pub fn primary(
        &self,
        walk: &mut Walk,
        operand: &mut Boxed<Expr>,
        suffixes: &mut Items<Suffix>,
    ) -> Result<(), SourceErr<NameFault>>
        requires { WritesNested self.now.depth (F.pre self.now.visit) (F.post self.now.visit) }
        ensures { Writes (in_scope spec.primary self.now.depth self.now.scope operand.old suffixes.old walk.old) result (e.Primary operand.new suffixes.new) walk.new }
    {
        if let Some(space) = namespace_at(&self.scope, operand.get()) {
            if let [Suffix::Method(name, _), ..] = suffixes.as_slice() {
                let Some(member) = self.scope.file.member(space, &name.name) else {
                    return Err(SourceErr::Bad(fault_of(NameFault::UnknownName, name)?));
                };
                return self.member_call(member, walk, operand, suffixes);
            }
        }
        self.operand(walk, operand, suffixes)
    }
}
