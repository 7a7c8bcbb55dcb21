//! The packages of a workspace.

ghost use Rattle.std.specs.Prelude.{◌≡◌, ◌++◌, IfOk, OnOk, map, option_to_list, option_and_then, position, slice_get};
ghost use Rattle.std.specs.List.Sorted.{IsStrictlySortedBy};
ghost use Rattle.bq_label.specs.Label.{package_of};
ghost use Rattle.bq_label.specs.Packages.{package_cmp};
ghost use Rattle.bq_label_set.specs.Labels.{same_label};
ghost use Rattle.bq_package_target.specs.PackageOrder.{id_of};
ghost use Rattle.bq_load.specs.Views.{result_view, outcome_view};
ghost use Rattle.bq_load.specs.Loaded.{package_by, package_in, packages_in};
ghost use Rattle.bq_load.specs.Packages.{labels_of, IsIn, AreOwn};

use crate::outcome::ModuleOutcome;
use bq_label::{BuildFile, Label, Packages};
use bq_label_set::LabelSet;
use bq_load_module::{FailedModule, LoadedModule};
use bq_package_target::{Package, is_of};
use std::alloc::{AllocError, Global};
use std::sync::Arc;

/// Shares the package that a file's evaluation made.
#[tactic(auto, using(crate::proofs::Ascending::is_own))]
fn share_own(label: &Label, made: &Package) -> Result<Package, AllocError>
    ensures shared { IfOk result (λ p. p ≡ made.now) }
    ensures own { IfOk result (λ p. id_of p ≡ package_of label.now) }
{
    if !is_of(label.package_id(), made.build_file()) {
        return Err(AllocError); // never: a file makes its own package
    }
    made.share()
}

/// Returns the package that the BUILD file of this label declared: one without targets if it failed.
pub(crate) fn package_by(
    alloc: Global,
    label: &Label,
    outcome: &Result<Arc<LoadedModule, Global>, FailedModule>,
) -> Result<Option<Package>, AllocError>
    ensures found { IfOk result (λ p. p ≡ package_by label.now (result_view outcome.now)) }
    ensures own { IfOk result (λ p. IsIn (package_of label.now) p) }
{
    match outcome {
        Err(_) => Ok(Some(Package::failed(alloc, label.share()?)?)),
        Ok(module) => match &module.package {
            None => Ok(None),
            Some(made) => Ok(Some(share_own(label, made)?)),
        },
    }
}

/// Returns the package of the module of this label.
fn package_at(
    alloc: Global,
    labels: &LabelSet,
    modules: &[ModuleOutcome],
    label: &Label,
) -> Result<Option<Package>, AllocError>
    ensures found { IfOk result (λ p. p ≡ option_and_then (λ o. package_by label.now o.result) (option_and_then (slice_get (map outcome_view modules.now)) (position (same_label label.now) labels.now))) }
    ensures own { IfOk result (λ p. IsIn (package_of label.now) p) }
{
    let Some(number) = labels.number(label)? else {
        return Ok(None);
    };
    match modules.get(number) {
        None => Ok(None),
        Some(module) => package_by(alloc, label, &module.result),
    }
}

/// Returns the package of a BUILD file.
#[tactic(auto, using(crate::proofs::Ascending::named_in, crate::proofs::Ascending::at_number))]
fn package_in(
    alloc: Global,
    labels: &LabelSet,
    modules: &[ModuleOutcome],
    build: &BuildFile,
) -> Result<Option<Package>, AllocError>
    requires { labels.now ≡ labels_of (map outcome_view modules.now) }
    ensures found { IfOk result (λ p. p ≡ package_in (map outcome_view modules.now) build.now) }
    ensures own { IfOk result (λ p. IsIn build.now.id p) }
{
    match build.label(alloc)? {
        None => Ok(None),
        Some(label) => package_at(alloc, labels, modules, &label),
    }
}

/// Appends a package, if there is one.
fn add(found: Option<Package>, all: &mut Vec<Package>) -> Result<(), AllocError>
    ensures { OnOk result (all.new.items ≡ all.old.items ++ option_to_list found) }
{
    match found {
        None => Ok(()),
        Some(package) => {
            all.push(package)?;
            Ok(())
        }
    }
}

/// Returns the packages of a workspace in their order, by its modules and the labels of these.
pub(crate) fn packages_in(
    alloc: Global,
    packages: &Packages,
    labels: &LabelSet,
    modules: &[ModuleOutcome],
) -> Result<Vec<Package>, AllocError>
    requires { labels.now ≡ labels_of (map outcome_view modules.now) }
    ensures all { IfOk result (λ ps. ps.items ≡ packages_in packages.now (map outcome_view modules.now)) }
    ensures own { OnOk result (AreOwn (map outcome_view modules.now) packages.now) }
    ensures ascend { IsStrictlySortedBy package_cmp packages.now }
{
    let builds = packages.all();
    let mut all = Vec::with_capacity(alloc, builds.len())?;
    for build in builds {
        let found = package_in(alloc, labels, modules, build)?;
        add(found, &mut all)?;
    }
    Ok(all)
}
