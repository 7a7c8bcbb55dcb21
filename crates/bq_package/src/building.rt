//! What a host keeps.

ghost use Rattle.std.specs.Prelude.{◌≡◌};
ghost use Rattle.bq_label.specs.Label.{package_of};

use crate::place::Place;
use bq_package_target::{KeptValues, PackageState};
use bq_package_values::PackageScope;
use std::cell::Cell;

/// Carries out the calls of build functions and of rules, in a BUILD file or outside of one. Contracts see what it keeps by `held_by`.
#[derive(Drop)]
pub struct BuildHost<'a> {
    /// The package of the file that is evaluated, among the others.
    pub(crate) scope: PackageScope<'a>,
    pub(crate) building: Option<Building<'a>>,
    /// Long defaults of attributes. A default is read by a host that is shared, so they are in a cell.
    pub(crate) defaults: Cell<KeptValues>,
}

/// A package whose BUILD file is evaluated.
#[derive(Drop)]
pub struct Building<'a> {
    pub(crate) place: Place<'a>,
    pub(crate) package: PackageState,
    ghost own: { package_of «package».build_file ≡ place.scope.own.now },
}
