//! What a pattern names that isn't there (Q5, Q6).

ghost use Rattle.std.specs.Prelude.{◌≡◌, ◌<◌, [], length, slice_index_or, IfOk};
ghost use Rattle.std.specs.List.Sorted.{IsStrictlySortedBy};
ghost use Rattle.bq_label.specs.Label.{full_form};
ghost use Rattle.bq_label.specs.Packages.{id_cmp};
ghost use Rattle.bq_query_lex.specs.declared.query_error.QueryErr.TheVariants.{NoSuchPackage};
ghost use Rattle.bq_query_lex.specs.QueryError.{Meets};
ghost use Rattle.bq_query_function.specs.Order.{texts_of, AreInOrder};
ghost use Rattle.bq_query_function.specs.Missing.{has_package, missing_label, missing_package};

use crate::order::target_of;
use crate::text::package_text;
use bq_base::Bytes;
use bq_label::{Label, PackageId, print_label};
use bq_package_target::Target;
use bq_query_lex::QueryErr;
use std::alloc::{AllocError, Global};

/// Returns whether there is such a package, by binary search.
fn has_package(packages: &[PackageId], id: &PackageId) -> bool
    requires { IsStrictlySortedBy id_cmp packages.now }
    ensures { result ≡ has_package packages.now id.now }
{
    match packages.binary_search_by(|package| {
        let by_repo = package.repo().as_slice().cmp(id.repo().as_slice());
        by_repo.then(package.package().as_slice().cmp(id.package().as_slice()))
    }) {
        Ok(_) => true,
        Err(_) => false,
    }
}

fn no_package(alloc: Global, text: Vec<u8>) -> Result<QueryErr, AllocError>
    ensures { IfOk result (λ e. e ≡ NoSuchPackage text.items) }
{
    Ok(QueryErr::NoSuchPackage(Bytes::from_vec(alloc, text)?))
}

/// Returns the target with this label. Fails with Q6 if its package isn't there, with Q5 if the target isn't.
pub fn target_named(
    alloc: Global,
    packages: &[PackageId],
    targets: &[Target],
    label: &Label,
) -> Result<usize, QueryErr>
    requires packages { IsStrictlySortedBy id_cmp packages.now }
    requires targets { AreInOrder targets.now }
    ensures fault { Meets (missing_label packages.now targets.now label.now) result }
    ensures found { IfOk result (λ at. (at < length targets.now) × (slice_index_or (texts_of targets.now) at [] ≡ full_form label.now)) }
{
    if !has_package(packages, label.package_id()) {
        return Err(no_package(alloc, print_label(alloc, label)?)?);
    }
    if let Some(at) = target_of(targets, label) {
        return Ok(at);
    }
    let text = print_label(alloc, label)?;
    Err(QueryErr::NoSuchTarget(Bytes::from_vec(alloc, text)?))
}

/// Fails with Q6 if the package of a pattern with this ending isn't there.
pub fn needs_package(
    alloc: Global,
    packages: &[PackageId],
    ending: &[u8],
    id: &PackageId,
) -> Result<(), QueryErr>
    requires { IsStrictlySortedBy id_cmp packages.now }
    ensures { Meets (missing_package packages.now ending.now id.now) result }
{
    if has_package(packages, id) {
        return Ok(());
    }
    let mut text = package_text(alloc, id)?;
    text.extend_from_slice(ending)?;
    Err(no_package(alloc, text)?)
}
