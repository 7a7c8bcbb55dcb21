//! Names that are bound, and faults at names.

ghost use Rattle.std.specs.Prelude.{◌≡◌, IfOk};
ghost use Rattle.bq_resolve_scope.specs.Visit.{fault_of};
ghost use Rattle.bq_resolve_scope.specs.Expressions as spec;
ghost use Rattle.bq_resolve.specs.Walks.{Writes};

use crate::scope::Scope;
use crate::walk::Walk;
use bq_base::{Fault, NameFault, SourceErr};
use bq_parse_grammar::{FileKind, Identifier, Referent};
use std::alloc::AllocError;

/// Returns a fault at a name.
pub fn fault_of(kind: NameFault, name: &Identifier) -> Result<Fault<NameFault>, AllocError>
    ensures { IfOk result (λ f. f ≡ fault_of kind name.now) }
{
    Ok(Fault {
        kind,
        line: name.line(),
        detail: name.name.share()?,
    })
}

/// Resolves a name that is bound: its block holds it. Outside functions and comprehensions, where there is no enclosing block, it is a
/// name of the file, which a .bzl file binds once.
#[tactic(auto, unfolding(bq_resolve_scope::specs::Expressions::bound_at, bq_resolve_scope::specs::Expressions::bind_global))]
pub fn bound_at(
    scope: &Scope<'_>,
    walk: &mut Walk,
    name: &mut Identifier,
) -> Result<(), SourceErr<NameFault>>
    ensures writes { Writes (spec.bound_at scope.now.file.now scope.now.blocks.now name.old walk.old) result name.new walk.new }
    ensures spelling { name.new.name ≡ name.old.name }
{
    if scope.blocks.is_empty() {
        let is_rebound = match scope.file.kind() {
            FileKind::Build => false,
            FileKind::Bzl => walk.bound.has(&name.name) || walk.loaded.has(&name.name),
        };
        if is_rebound {
            return Err(SourceErr::Bad(fault_of(NameFault::Rebound, name)?));
        }
        walk.bound.add(&name.name)?;
    }
    match scope.file.use_of(scope.blocks, &name.name) {
        Some(Referent::Local(slot)) => {
            name.referent = Referent::Local(slot);
            Ok(())
        }
        Some(Referent::Global(k)) => {
            name.referent = Referent::Global(k);
            Ok(())
        }
        _ => Err(SourceErr::Bad(fault_of(NameFault::UnknownName, name)?)),
    }
}
