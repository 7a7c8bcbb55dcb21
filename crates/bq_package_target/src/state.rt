//! The package of a BUILD file that is being evaluated: what its accepted calls declare.

ghost use Rattle.std.specs.Prelude.{◌≡◌};

use crate::names::TargetNames;
use crate::shared_values::KeptValues;
use crate::target::Target;
use bq_label::Label;
use sqlite_items::Items;
use std::alloc::Global;
use std::marker::Model;

/// What the accepted calls of a BUILD file declare. Contracts see it as a package.
///
/// A call takes the state and returns it. If memory is refused, the state is dropped.
#[derive(Drop)]
pub struct PackageState {
    pub(crate) build_file: Label,
    pub(crate) targets: Items<Target>,
    /// The names of the targets.
    pub(crate) names: TargetNames,
    /// Long values of their attributes.
    pub(crate) kept: KeptValues,
}

impl Model for PackageState {
    ghost use Rattle.std.specs.Prelude.{◌≡◌};
    ghost use Rattle.bq_label.specs.Label.{package_of};
    ghost use Rattle.bq_package_target.specs.Package.{PackageTargets, IsState};

    ghost Value = { PackageTargets };

    ghost view = { λ s. record { build_file = s.build_file; targets = s.targets } };

    ghost invariant = { λ s. IsState (package_of s.build_file) s.targets s.names };
}

/// The result of a call: the package with what it declares, or as it was if the call is refused (F74).
#[derive(Drop)]
pub enum Declared {
    Accepted(PackageState),
    Refused(PackageState),
}

impl PackageState {
    ghost use Rattle.bq_package_target.specs.Package.{no_targets};

    /// Makes the package of a BUILD file that has declared nothing yet.
    pub fn new(alloc: Global, build_file: Label) -> PackageState
        ensures { result ≡ no_targets build_file }
    {
        PackageState {
            build_file,
            targets: Items::new(alloc),
            names: TargetNames::new(alloc),
            kept: KeptValues::new(alloc),
        }
    }
}
