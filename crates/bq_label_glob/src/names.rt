//! The files of a package that some pattern matches and no excluded one.

ghost use Rattle.std.specs.Prelude.{◌≡◌, ◌≤◌, ◌&&◌, not, true, false, length, drop, Some, IfOk, MatchOption};
ghost use Rattle.std.specs.List.{filter};
ghost use Rattle.std.specs.List.Sorted.{IsPartitionPoint};
ghost use Rattle.bq_label.specs.Workspace.{paths_of};
ghost use Rattle.bq_label_glob.specs.Names.{directory, is_before, is_beneath, is_package, glob};
ghost use Rattle.bq_label_glob.specs.PatternSet.{is_match};

use crate::pattern::Pattern;
use crate::pattern_set::PatternSet;
use bq_base::Bytes;
use bq_label::{BuildFile, File, PackageId, Packages, Workspace};
use std::alloc::{AllocError, Global};

/// Returns what precedes the names of a package's files: `external/NAME/` outside the main repository, then the
/// package's path and a slash.
#[tactic(auto, unfolding(crate::specs::Names::directory, bq_label::specs::Packages::label_path))]
fn directory(alloc: Global, id: &PackageId) -> Result<Vec<u8>, AllocError>
    ensures { IfOk result (λ d. d.items ≡ directory id.now) }
{
    let mut above = Vec::new(alloc);
    if !id.repo().is_empty() {
        above.extend_from_slice(b"external/")?;
        above.extend_from_slice(id.repo().as_slice())?;
        above.push(b'/')?;
    }
    if !id.package().is_empty() {
        above.extend_from_slice(id.package().as_slice())?;
        above.push(b'/')?;
    }
    Ok(above)
}

/// Returns how many files are before the text.
fn files_before(workspace: &Workspace, text: &[u8]) -> usize
    ensures bound { result ≤ length workspace.now }
    ensures before { IsPartitionPoint (λ f. is_before text.now f ≡ true) (λ f. is_before text.now f ≡ false) workspace.now result }
{
    workspace
        .files()
        .partition_point(|file| file.path.as_slice().cmp(text).is_lt())
}

/// Returns the files whose paths go on after the directory. They follow one another, so it takes time logarithmic in
/// the number of files.
fn files_beneath<'a>(workspace: &'a Workspace, above: &[u8]) -> &'a [File]
    ensures { result.now ≡ filter (λ f. is_beneath above.now f.path) workspace.now }
{
    let rest = &workspace.files()[files_before(workspace, above)..];
    let len = rest.partition_point(|file| file.path.as_slice().starts_with(above));
    &rest[..len]
}

/// Returns what follows the directory in a path, if the path goes on after it.
fn name_after<'a>(above: &[u8], path: &'a [u8]) -> Option<&'a [u8]>
    ensures { MatchOption result (is_beneath above.now path.now ≡ false) (λ name. (is_beneath above.now path.now ≡ true) × (name.now ≡ drop (length above.now) path.now)) }
{
    if !path.starts_with(above) {
        return None;
    }
    Some(&path[above.len()..])
}

/// Returns whether a package is the one of this name.
fn is_package(id: &PackageId, found: &BuildFile) -> bool
    ensures { result ≡ is_package id.now (Some found.now) }
{
    found.id.repo().as_slice() == id.repo().as_slice()
        && found.id.package().as_slice() == id.package().as_slice()
}

/// Returns whether the path goes on after the directory, if there is one.
fn is_in_other(other: &Option<Vec<u8>>, path: &[u8]) -> bool
    ensures { MatchOption other.now (result ≡ false) (λ dir. result ≡ is_beneath dir.items path.now) }
{
    match other {
        Some(dir) => path.starts_with(dir),
        None => false,
    }
}

/// Returns whether some pattern matches the name, and no excluded one does.
fn is_wanted(include: &PatternSet, exclude: &PatternSet, name: &[u8]) -> bool
    ensures { result ≡ (is_match include.now name.now && not (is_match exclude.now name.now)) }
{
    include.is_match(name) && !exclude.is_match(name)
}

/// Returns the names in the package of its files that some pattern matches and no excluded one does, ascending by their
/// bytes. Files of the packages beneath it are theirs. The time is that of matching each file beneath the package
/// against each pattern with a star, and of finding the owners of those that match; patterns without a star are looked
/// up, and equal ones count once.
pub fn glob(
    alloc: Global,
    workspace: &Workspace,
    packages: &Packages,
    id: &PackageId,
    include: &[Pattern],
    exclude: &[Pattern],
) -> Result<Vec<Bytes>, AllocError>
    ensures { IfOk result (λ names. names.items ≡ glob (paths_of workspace.now) packages.now id.now include.now exclude.now) }
{
    let above = directory(alloc, id)?;
    let included = PatternSet::of(alloc, include)?;
    let excluded = PatternSet::of(alloc, exclude)?;
    let mut names = Vec::new(alloc);
    let mut other = None; // the directory of another package, beneath which this one owns nothing
    let files = files_beneath(workspace, &above);
    for file in files {
        let path = file.path.as_slice();
        if is_in_other(&other, path) {
            continue;
        }
        let Some(name) = name_after(&above, path) else {
            continue;
        };
        // most files match no pattern, and it takes longer to find an owner
        if !is_wanted(&included, &excluded, name) {
            continue;
        }
        let Some(owner) = packages.owner_of(path) else {
            continue;
        };
        if !is_package(id, owner) {
            other = Some(directory(alloc, &owner.id)?);
            continue;
        }
        names.push(Bytes::from_slice(alloc, name)?)?;
    }
    Ok(names)
}
