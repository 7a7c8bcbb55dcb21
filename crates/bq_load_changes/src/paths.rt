//! Which packages own the paths that came or went.

ghost use Rattle.std.specs.Prelude.{◌≡◌, ◌∷◌, ◌≤◌, [], true, length, Some, IfOk, IfSome};
ghost use Rattle.std.specs.Option.{option_copied};
ghost use Rattle.bq_label.specs.Packages.{is_package_id};
ghost use Rattle.bq_label.specs.Workspace.{paths_of};
ghost use Rattle.bq_load_changes.specs.Paths.{Follows, Notes, after_same, is_touched, may_be_module, with_package};

use bq_label::{BuildFile, File, PackageId, Packages};
use std::alloc::{AllocError, Global};

/// The most packages that are noted: each module is compared with all of them.
const MAX_TOUCHED: usize = 64;

/// Returns whether a file at this path may be a module.
#[tactic(auto, unfolding(crate::specs::Paths::may_be_module))]
fn may_be_module(path: &[u8]) -> bool
    ensures { result ≡ may_be_module path.now }
{
    path.ends_with(b".bzl") || (path.ends_with(b"BUILD") || path.ends_with(b"BUILD.bazel"))
}

/// Returns whether a BUILD file is of the package.
fn is_of(build: &BuildFile, id: &PackageId) -> bool
    ensures { result ≡ is_package_id id.now.repo id.now.package build.now }
{
    build.id.repo() == id.repo() && build.id.package() == id.package()
}

/// Returns whether one of these BUILD files is of the package.
pub(crate) fn is_touched(touched: &[BuildFile], id: &PackageId) -> bool
    ensures { result ≡ is_touched touched.now id.now }
{
    touched.iter().any(|build| is_of(build, id))
}

/// Adds a package, if there is one, to those that are noted, unless it is one of them.
fn add(touched: &mut Vec<BuildFile>, owner: Option<&BuildFile>) -> Result<(), AllocError>
    ensures { IfOk result (λ _. touched.new.items ≡ with_package touched.old.items (option_copied owner.entry)) }
{
    let Some(owner) = owner else {
        return Ok(());
    };
    if is_touched(touched, &owner.id) {
        return Ok(());
    }
    touched.push(owner.share()?)?;
    Ok(())
}

/// Notes the package that owns a path which came or went, if there is one. Returns whether it is noted: not if a module may be at the path,
/// or if too many packages are noted.
#[tactic(auto, using(crate::proofs::Noted::notes_path))]
fn note(packages: &Packages, path: &[u8], touched: &mut Vec<BuildFile>) -> Result<bool, AllocError>
    ensures { IfOk result (λ noted. noted ≡ true → Notes packages.now touched.old.items touched.new.items (path.now ∷ []) []) }
{
    if may_be_module(path) {
        return Ok(false);
    }
    add(touched, packages.owner_of(path))?;
    Ok(touched.len() <= MAX_TOUCHED)
}

/// Notes the packages that own the paths of these files. Returns whether all are noted.
#[tactic(auto, using(crate::proofs::Noted::notes_none))]
fn note_all(
    packages: &Packages,
    files: &[File],
    touched: &mut Vec<BuildFile>,
) -> Result<bool, AllocError>
    ensures { IfOk result (λ noted. noted ≡ true → Notes packages.now touched.old.items touched.new.items (paths_of files.now) []) }
{
    for file in files {
        if !note(packages, file.path.as_slice(), touched)? {
            return Ok(false);
        }
    }
    Ok(true)
}

/// Returns what follows in the list after a file of this path, if it begins with one.
fn after_same<'a>(path: &[u8], files: &'a [File]) -> Option<&'a [File]>
    ensures { IfSome result (λ rest. after_same path.now files.now ≡ Some rest.now) }
{
    let (file, rest) = files.split_first()?;
    if file.path.as_slice() != path {
        return None;
    }
    Some(rest)
}

/// Returns how many files at the front of the list come before this path.
fn count_before(path: &[u8], files: &[File]) -> usize
    ensures { result ≤ length files.now }
{
    for (at, file) in files.iter().enumerate() {
        if !file.path.as_slice().cmp(path).is_lt() {
            return at;
        }
    }
    files.len()
}

/// Goes on in the second list after a file of this path, and notes the packages of the paths before it, and of this path if there is no such
/// file. Returns what is left, if all are noted.
#[tactic(auto, using(crate::proofs::Noted::follows_same, crate::proofs::Noted::follows_later, crate::proofs::Noted::follows_noted))]
fn go_past<'a>(
    packages: &Packages,
    path: &[u8],
    files: &'a [File],
    touched: &mut Vec<BuildFile>,
) -> Result<Option<&'a [File]>, AllocError>
    ensures { IfOk result (λ r. IfSome r (λ rest. Follows packages.now touched.old.items touched.new.items (path.now ∷ []) files.now rest.now)) }
{
    if let Some(rest) = after_same(path, files) {
        return Ok(Some(rest));
    }
    let (before, later) = files.split_at(count_before(path, files));
    if !note_all(packages, before, touched)? {
        return Ok(None);
    }
    match after_same(path, later) {
        Some(rest) => Ok(Some(rest)),
        None if note(packages, path, touched)? => Ok(Some(later)),
        None => Ok(None),
    }
}

/// Returns packages, of which each owns a path that came or went between two lists of files, and which are all such packages. `None` if a
/// module came or went, or if the packages are too many.
#[tactic(auto, using(crate::proofs::Noted::follows_none, crate::proofs::Noted::follows_all))]
pub(crate) fn touched(
    alloc: Global,
    packages: &Packages,
    files: &[File],
    others: &[File],
) -> Result<Option<Vec<BuildFile>>, AllocError>
    ensures { IfOk result (λ r. IfSome r (λ all. Notes packages.now [] all.items (paths_of files.now) (paths_of others.now))) }
{
    let mut touched = Vec::new(alloc);
    let mut left = others;
    for file in files {
        let Some(rest) = go_past(packages, file.path.as_slice(), left, &mut touched)? else {
            return Ok(None);
        };
        left = rest;
    }
    if !note_all(packages, left, &mut touched)? {
        return Ok(None);
    }
    Ok(Some(touched))
}
