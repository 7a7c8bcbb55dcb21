//! A package and its targets.

ghost use Rattle.std.specs.Prelude.{◌≡◌, ◌++◌, length, IfOk, OnOk};

use crate::by_name::TargetsByName;
use crate::target::Target;
use bq_label::{Label, PackageId};
use sqlite_items::Items;
use std::alloc::{AllocError, Global};
use std::marker::Model;
use std::sync::Arc;

/// The package of a BUILD file. Contracts see the file's label and the targets in the order in which they are declared.
pub struct Package {
    build_file: Label,
    targets: Arc<TargetsByName>,
}

impl Drop for Package {
    // PROOF: a drop that is written out is proved here alone, and a derived one in each crate that drops a package
    fn drop(self) {
        let Package {
            build_file: _,
            targets: _,
        } = self;
    }
}

impl Model for Package {
    ghost use Rattle.bq_label.specs.Label.{package_of};
    ghost use Rattle.bq_package_target.specs.Package.{PackageTargets, AreTargetsOf};

    ghost Value = { PackageTargets };

    ghost view = { λ p. record { build_file = p.build_file; targets = p.targets.value } };

    ghost invariant = { λ p. AreTargetsOf (package_of p.build_file) p.targets.value };
}

impl Package {
    ghost use Rattle.bq_label.specs.Label.{package_of};
    ghost use Rattle.bq_package_target.specs.ByName.{by_name};
    ghost use Rattle.bq_package_target.specs.Package.{AreTargetsOf, no_targets};

    /// Makes the package of a BUILD file that has a fault. It has no targets.
    pub fn failed(alloc: Global, build_file: Label) -> Result<Package, AllocError>
        ensures { IfOk result (λ p. p ≡ no_targets build_file) }
    {
        Package::of(alloc, build_file, Items::new(alloc))
    }

    /// Makes the package of a BUILD file with these targets.
    pub(crate) fn of(
        alloc: Global,
        build_file: Label,
        targets: Items<Target>,
    ) -> Result<Package, AllocError>
        requires { AreTargetsOf (package_of build_file) targets }
        ensures { IfOk result (λ p. p ≡ record { build_file = build_file; targets = targets }) }
    {
        Ok(Package {
            build_file,
            targets: Arc::new(alloc, TargetsByName::of(alloc, targets)?)?,
        })
    }

    /// Returns another owner of the package. No target is copied.
    pub fn share(&self) -> Result<Package, AllocError>
        ensures { IfOk result (λ p. p ≡ self.now) }
    {
        Ok(Package {
            build_file: self.build_file.share()?,
            targets: self.targets.clone()?,
        })
    }

    /// Returns the label of the BUILD file.
    pub fn build_file(&self) -> &Label
        ensures { result.now ≡ self.now.build_file }
    {
        &self.build_file
    }

    pub fn id(&self) -> &PackageId
        ensures { result.now ≡ package_of self.now.build_file }
    {
        self.build_file.package_id()
    }

    /// Returns how many targets there are.
    pub fn len(&self) -> usize
        ensures { result ≡ length self.now.targets }
    {
        self.targets.len()
    }

    /// Appends the targets in the order of their names: these themselves if this is their only owner, else shares of them. No two of them have one name.
    pub fn append_by_name(self, all: &mut Vec<Target>) -> Result<(), AllocError>
        ensures appended { OnOk result (all.new.items ≡ all.old.items ++ by_name self.targets) }
        ensures valid { AreTargetsOf (package_of self.build_file) self.targets }
    {
        let Package {
            build_file: _,
            targets,
        } = self;
        match Arc::try_unwrap(targets) {
            Ok(targets) => targets.move_to(all),
            Err(shared) => shared.share_to(all),
        }
    }
}
