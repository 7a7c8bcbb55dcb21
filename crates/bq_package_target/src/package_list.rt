//! Packages in order.

ghost use Rattle.std.specs.Prelude.{◌≡◌, IfOk};
ghost use Rattle.bq_package_target.specs.PackageOrder.{PackagesAscend};

use crate::package::Package;
use std::alloc::{AllocError, Global};
use std::marker::Model;

/// Packages in the order of their repositories and paths, none of them twice. Contracts see the list of them.
pub struct PackageList {
    all: Vec<Package>,
}

impl Drop for PackageList {
    // PROOF: a drop that is written out is proved here alone, and a derived one in each crate that drops a list
    fn drop(self) {
        let PackageList { all: _ } = self;
    }
}

impl Model for PackageList {
    ghost use Rattle.std.specs.Prelude.{List};
    ghost use Rattle.bq_package_target.specs.Package.{PackageTargets};
    ghost use Rattle.bq_package_target.specs.PackageOrder.{PackagesAscend};

    ghost Value = { List PackageTargets };

    ghost view = { λ l. l.all.items };

    ghost invariant = { λ l. PackagesAscend l.all.items };
}

impl PackageList {
    /// Makes the list of packages that are in order.
    pub fn of(all: Vec<Package>) -> PackageList
        requires { PackagesAscend all.items }
        ensures { result ≡ all.items }
    {
        PackageList { all }
    }

    pub fn as_slice(&self) -> &[Package]
        ensures value { result.now ≡ self.now }
        ensures ascend { PackagesAscend self.now }
    {
        self.all.as_slice()
    }

    pub fn into_vec(self) -> Vec<Package>
        ensures value { result.items ≡ self }
        ensures ascend { PackagesAscend self }
    {
        let PackageList { all } = self;
        all
    }

    /// Returns another owner of the packages. No target is copied.
    pub fn share(&self, alloc: Global) -> Result<PackageList, AllocError>
        ensures { IfOk result (λ shares. shares ≡ self.now) }
    {
        let packages = self.all.as_slice();
        let mut all = Vec::with_capacity(alloc, packages.len())?;
        for package in packages {
            all.push(package.share()?)?;
        }
        Ok(PackageList { all })
    }
}
