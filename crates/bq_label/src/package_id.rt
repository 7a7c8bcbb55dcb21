//! A package's name.

ghost use Rattle.std.specs.Prelude.{◌≡◌, [], IfOk, MatchOption};

use crate::path::{is_path, is_repository};
use bq_base::Bytes;
use std::alloc::{AllocError, Global};
use std::marker::Model;
use std::sync::Arc;

/// What names a package.
#[derive(Debug, Drop)]
struct PackageNames {
    repo: Bytes,
    package: Bytes,
}

/// A package: its repository and its path there, with many owners, since each label of the package names it. Contracts see both as
/// bytes.
#[derive(Debug)]
pub struct PackageId {
    names: Arc<PackageNames>,
}

impl Drop for PackageId {
    // PROOF: a drop that is written out is proved here alone, and a derived one in each crate that drops one of them
    fn drop(self) {
        let PackageId { names: _ } = self;
    }
}

impl Model for PackageId {
    ghost use Rattle.bq_label.specs.Label.{PackageParts, IsPackage, package_at};

    ghost Value = { PackageParts };

    ghost view = { λ p. package_at p.names.value.repo p.names.value.package };

    ghost invariant = { λ p. IsPackage (package_at p.names.value.repo p.names.value.package) };
}

impl PackageId {
    ghost use Rattle.bq_label.specs.Label.{PackageParts, IsPackage, package_at};

    /// Makes the package of a repository, whose name is empty for the main one, at a path, which is empty for the root.
    /// Returns `None` if one of them isn't valid.
    #[tactic(auto, unfolding(crate::specs::Paths::is_package))]
    pub fn new(alloc: Global, repo: Bytes, package: Bytes) -> Result<Option<PackageId>, AllocError>
        ensures { IfOk result (λ found. MatchOption found (IsPackage (package_at repo «package») → ⊥) (λ p. (p ≡ package_at repo «package») × IsPackage p)) }
    {
        let path = package.as_slice();
        if is_repository(repo.as_slice()) && (path.is_empty() || is_path(path)) {
            Ok(Some(PackageId::from_parts(alloc, repo, package)?))
        } else {
            Ok(None)
        }
    }

    /// Makes a package of two names that are known to be valid.
    pub(crate) fn from_parts(
        alloc: Global,
        repo: Bytes,
        package: Bytes,
    ) -> Result<PackageId, AllocError>
        requires { IsPackage (package_at repo «package») }
        ensures { IfOk result (λ p. p ≡ package_at repo «package») }
    {
        Ok(PackageId {
            names: Arc::new(alloc, PackageNames { repo, package })?,
        })
    }

    /// Makes the root package of the main repository.
    #[tactic(auto, unfolding(crate::specs::Paths::is_repository, crate::specs::Paths::is_package))]
    pub fn root(alloc: Global) -> Result<PackageId, AllocError>
        ensures { IfOk result (λ p. p ≡ package_at [] []) }
    {
        PackageId::from_parts(alloc, Bytes::empty(), Bytes::empty())
    }

    /// Returns the repository's name, which is empty for the main one.
    pub fn repo(&self) -> &Bytes
        ensures value { result.now ≡ self.now.repo }
        ensures valid { IsPackage self.now }
    {
        &self.names.repo
    }

    /// Returns the path in the repository, which is empty for the root.
    pub fn package(&self) -> &Bytes
        ensures value { result.now ≡ self.now.package }
        ensures valid { IsPackage self.now }
    {
        &self.names.package
    }

    /// Returns another owner of the package. No byte is copied.
    pub fn share(&self) -> Result<PackageId, AllocError>
        ensures { IfOk result (λ p. p ≡ self.now) }
    {
        Ok(PackageId {
            names: self.names.clone()?,
        })
    }
}
