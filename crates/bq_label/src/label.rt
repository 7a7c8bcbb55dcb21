//! Labels.

ghost use Rattle.std.specs.Prelude.{◌≡◌, IfOk, true};

use crate::package_id::PackageId;
use bq_base::Bytes;
use std::alloc::{AllocError, Global};
use std::marker::Model;

/// A label: a package and a name in it. Contracts see the bytes of the three parts.
#[derive(Debug)]
pub struct Label {
    package: PackageId,
    name: Bytes,
}

impl Drop for Label {
    // PROOF: a drop that is written out is proved here alone, and a derived one in each crate that drops a label
    fn drop(self) {
        let Label {
            package: _,
            name: _,
        } = self;
    }
}

impl Model for Label {
    ghost use Rattle.bq_label.specs.Label.{LabelParts, IsLabel, label_in};

    ghost Value = { LabelParts };

    ghost view = { λ l. label_in l.package l.name };

    ghost invariant = { λ l. IsLabel (label_in l.package l.name) };
}

impl Label {
    ghost use Rattle.bq_label.specs.Label.{label_in, package_of, IsLabel};
    ghost use Rattle.bq_label.specs.Paths.{is_path};

    /// Makes the label of a name in a package.
    pub fn new(package: PackageId, name: Bytes) -> Label
        requires { is_path name ≡ true }
        ensures { result ≡ label_in «package» name }
    {
        Label { package, name }
    }

    /// Returns the repository's name, which is empty for the main one.
    pub fn repo(&self) -> &Bytes
        ensures value { result.now ≡ self.now.repo }
        ensures valid { IsLabel self.now }
    {
        let _name = &self.name;
        self.package.repo()
    }

    /// Returns the package's path in its repository, which is empty for the root.
    pub fn package(&self) -> &Bytes
        ensures value { result.now ≡ self.now.package }
        ensures valid { IsLabel self.now }
    {
        let _name = &self.name;
        self.package.package()
    }

    /// Returns the name in the package.
    pub fn name(&self) -> &Bytes
        ensures value { result.now ≡ self.now.name }
        ensures valid { IsLabel self.now }
    {
        &self.name
    }

    pub fn package_id(&self) -> &PackageId
        ensures { result.now ≡ package_of self.now }
    {
        &self.package
    }

    /// Returns another owner of the label. No byte is copied.
    pub fn share(&self) -> Result<Label, AllocError>
        ensures { IfOk result (λ l. l ≡ self.now) }
    {
        Ok(Label {
            package: self.package.share()?,
            name: self.name.share()?,
        })
    }
}
