//! The packages of a workspace.

ghost use Rattle.std.specs.Prelude.{◌≡◌, ◌≤◌, List, length, Some, None, IfSome, IfNone, IfOk, slice_get, MatchResult, true};
ghost use Rattle.std.specs.List.{list_all};
ghost use Rattle.std.specs.List.Sorted.{IsStrictlySortedBy};
ghost use Rattle.std.specs.Option.{option_copied};
ghost use Rattle.bq_label.specs.Paths.{is_path};
ghost use Rattle.bq_label.specs.Label.{package_at, last_segment};
ghost use Rattle.bq_label.specs.Workspace.{paths_of};
ghost use Rattle.bq_label.specs.Packages.{is_build_file, directory_of, package_of_file, packages_of, build_label, package_cmp, id_cmp, package_named, owner_of, nearest_over, comes_before, common_in, HasNoneLonger};

use crate::label::Label;
use crate::package_id::PackageId;
use crate::path::is_path;
use crate::repository::split_repository;
use crate::split::{directory_of, last_segment};
use crate::workspace::{Workspace, common_len};
use bq_base::Bytes;
use std::alloc::{AllocError, Global};
use std::cmp::Ordering;
use std::marker::Model;

/// A package, and the path of the BUILD file that makes its directory one.
#[derive(Debug, Drop)]
pub struct BuildFile {
    pub id: PackageId,
    pub path: Bytes,
}

impl BuildFile {
    /// Returns another owner of the package. No byte is copied.
    pub fn share(&self) -> Result<BuildFile, AllocError>
        ensures { IfOk result (λ b. b ≡ self.now) }
    {
        Ok(BuildFile {
            id: self.id.share()?,
            path: self.path.share()?,
        })
    }

    /// Returns the BUILD file's name in its directory: `BUILD.bazel` or `BUILD`.
    pub fn name(&self) -> &[u8]
        ensures { result.now ≡ last_segment self.now.path }
    {
        last_segment(self.path.as_slice())
    }

    /// Returns the package's directory in the workspace, which is empty for the root of the main repository.
    pub fn directory(&self) -> &[u8]
        ensures { result.now ≡ directory_of self.now.path }
    {
        directory_of(self.path.as_slice())
    }

    /// Returns the BUILD file's own label, as `//a:BUILD.bazel`; `None` if the file's path doesn't end in a name.
    #[tactic(auto, unfolding(crate::specs::Packages::build_label))]
    pub fn label(&self, alloc: Global) -> Result<Option<Label>, AllocError>
        ensures { IfOk result (λ l. l ≡ build_label self.now) }
    {
        let name = self.name();
        if !is_path(name) {
            return Ok(None);
        }
        let name = Bytes::from_slice(alloc, name)?;
        Ok(Some(Label::new(self.id.share()?, name)))
    }
}

/// Returns whether the file at this path is its directory's BUILD file: `BUILD.bazel`, or `BUILD` with no `BUILD.bazel`
/// beside it.
fn is_build_file(alloc: Global, workspace: &Workspace, path: &[u8]) -> Result<bool, AllocError>
    ensures { IfOk result (λ w. w ≡ is_build_file (paths_of workspace.now) path.now) }
{
    let name = last_segment(path);
    if name == b"BUILD.bazel".as_slice() {
        return Ok(true);
    }
    if name != b"BUILD".as_slice() {
        return Ok(false);
    }
    let mut preferred = path.to_vec(alloc)?;
    preferred.extend_from_slice(b".bazel")?;
    Ok(workspace.file(&preferred).is_none())
}

/// Returns the package whose BUILD file is at this path.
#[tactic(auto, unfolding(crate::specs::Packages::package_of_file))]
fn package_of_file(
    alloc: Global,
    workspace: &Workspace,
    path: &Bytes,
) -> Result<Option<BuildFile>, AllocError>
    requires { is_path path.now ≡ true }
    ensures { IfOk result (λ b. b ≡ package_of_file (paths_of workspace.now) path.now) }
{
    if !is_build_file(alloc, workspace, path.as_slice())? {
        return Ok(None);
    }
    let Some(found) = split_repository(path.as_slice()) else {
        return Ok(None);
    };
    let repo = Bytes::from_slice(alloc, found.repo)?;
    let directory = Bytes::from_slice(alloc, directory_of(found.rest))?;
    Ok(Some(BuildFile {
        id: PackageId::from_parts(alloc, repo, directory)?,
        path: path.share()?,
    }))
}

/// Compares a package with a name: by the bytes of the repository, and then of the path.
fn compare(id: &PackageId, repo: &[u8], path: &[u8]) -> Ordering
    ensures { result ≡ id_cmp id.now (package_at repo.now path.now) }
{
    let by_repo = id.repo().as_slice().cmp(repo);
    by_repo.then(id.package().as_slice().cmp(path))
}

/// Returns the package of this name.
fn find_package<'a>(packages: &'a [BuildFile], repo: &[u8], path: &[u8]) -> Option<&'a BuildFile>
    requires { IsStrictlySortedBy package_cmp packages.now }
    ensures { option_copied result ≡ package_named packages.now (package_at repo.now path.now) }
{
    match packages.binary_search_by(|package| compare(&package.id, repo, path)) {
        Ok(at) => Some(&packages[at]),
        Err(_) => None,
    }
}

/// Returns whether the package comes before this name.
fn comes_before(id: &PackageId, repo: &[u8], path: &[u8]) -> bool
    ensures { result ≡ comes_before (package_at repo.now path.now) id.now }
{
    compare(id, repo, path).is_lt()
}

/// Returns how many bytes the package's path has in common with a path of a repository; 0 if it is of another one.
fn common_in(id: &PackageId, repo: &[u8], path: &[u8]) -> usize
    ensures { result ≡ common_in id.now repo.now path.now }
{
    if id.repo().as_slice() != repo {
        return 0;
    }
    common_len(id.package().as_slice(), path)
}

/// Returns the length of the longest directory above a path that may be a package of the repository: no longer one is.
///
/// A package above the path is at or before the last package before the path, which then begins with it too. So it isn't
/// longer than what these two have in common.
fn longest_above(packages: &[BuildFile], repo: &[u8], path: &[u8]) -> usize
    requires { IsStrictlySortedBy package_cmp packages.now }
    ensures bound { result ≤ length path.now }
    ensures none { HasNoneLonger packages.now repo.now path.now result }
{
    let before = packages.partition_point(|package| comes_before(&package.id, repo, path));
    if before == 0 {
        return 0;
    }
    common_in(&packages[before - 1].id, repo, path)
}

/// Returns the package whose directory is the nearest above a path of a repository.
fn nearest_above<'a>(packages: &'a [BuildFile], repo: &[u8], rest: &[u8]) -> Option<&'a BuildFile>
    requires { IsStrictlySortedBy package_cmp packages.now }
    ensures { option_copied result ≡ nearest_over packages.now repo.now rest.now }
{
    let mut at = rest.len();
    while at > 0 {
        at -= 1;
        if rest[at] != b'/' {
            continue;
        }
        let package = find_package(packages, repo, &rest[..at]);
        if package.is_some() {
            return package;
        }
        let longest = longest_above(packages, repo, &rest[..at]);
        if longest < at {
            at = longest + 1;
        }
    }
    find_package(packages, repo, &[])
}

/// The packages of a workspace. Contracts see the list of them, ascending by repository and then by path.
#[derive(Debug)]
pub struct Packages {
    packages: Vec<BuildFile>,
}

impl Drop for Packages {
    // PROOF: a drop that is written out is proved here alone, and a derived one in each crate that drops a list of packages
    fn drop(self) {
        let Packages { packages: _ } = self;
    }
}

impl Model for Packages {
    ghost use Rattle.std.specs.Prelude.{List};
    ghost use Rattle.std.specs.List.Sorted.{IsStrictlySortedBy};
    ghost use Rattle.bq_label.specs.declared.packages.BuildFile.{BuildFile};
    ghost use Rattle.bq_label.specs.Packages.{package_cmp};

    ghost Value = { List BuildFile };

    ghost view = { λ p. p.packages.items };

    ghost invariant = { λ p. IsStrictlySortedBy package_cmp p.packages.items };
}

impl Packages {
    /// Finds the packages of a workspace: the directories with a file `BUILD.bazel` or `BUILD`, of which the first
    /// takes precedence.
    pub fn of(alloc: Global, workspace: &Workspace) -> Result<Packages, AllocError>
        ensures { IfOk result (λ p. p ≡ packages_of workspace.now) }
    {
        let files = workspace.files();
        let mut found = Vec::new(alloc);
        for file in files {
            let Some(package) = package_of_file(alloc, workspace, &file.path)? else {
                continue;
            };
            found.push(package)?;
        }
        found.sort_unstable_by(|a, b| compare(
            &a.id,
            b.id.repo().as_slice(),
            b.id.package().as_slice(),
        ));
        Ok(Packages { packages: found })
    }

    /// Returns the packages, ascending by the bytes of their repositories and then of their paths.
    pub fn all(&self) -> &[BuildFile]
        ensures value { result.now ≡ self.now }
        ensures ascending { IsStrictlySortedBy package_cmp self.now }
    {
        self.packages.as_slice()
    }

    /// Returns the place in `all` of the package of this name, in time logarithmic in the number of packages.
    pub fn place(&self, id: &PackageId) -> Option<usize>
        ensures found { IfSome result (λ at. slice_get self.now at ≡ package_named self.now id.now) }
        ensures none { IfNone result (package_named self.now id.now ≡ None) }
    {
        let packages = self.all();
        let repo = id.repo().as_slice();
        let path = id.package().as_slice();
        match packages.binary_search_by(|package| compare(&package.id, repo, path)) {
            Ok(at) => Some(at),
            Err(_) => None,
        }
    }

    /// Returns the package of this name, in time logarithmic in the number of packages.
    pub fn named(&self, id: &PackageId) -> Option<&BuildFile>
        ensures { option_copied result ≡ package_named self.now id.now }
    {
        find_package(
            &self.packages,
            id.repo().as_slice(),
            id.package().as_slice(),
        )
    }

    /// Returns the package of a repository at a path, in time logarithmic in the number of packages.
    pub fn at(&self, repo: &[u8], path: &[u8]) -> Option<&BuildFile>
        ensures { option_copied result ≡ package_named self.now (package_at repo.now path.now) }
    {
        find_package(&self.packages, repo, path)
    }

    /// Returns the owner of a path: the package whose directory is the nearest above it in its repository. It takes
    /// time logarithmic in the number of packages, and again for each package that begins as the path does but isn't
    /// above it.
    #[tactic(auto, unfolding(crate::specs::Packages::owner_of))]
    pub fn owner_of(&self, path: &[u8]) -> Option<&BuildFile>
        ensures { option_copied result ≡ owner_of self.now path.now }
    {
        match split_repository(path) {
            Some(found) => nearest_above(&self.packages, found.repo, found.rest),
            None => None,
        }
    }
}
