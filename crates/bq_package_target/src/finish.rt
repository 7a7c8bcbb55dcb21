//! Files that a BUILD file exports, and the package once it is evaluated.

ghost use Rattle.std.specs.Prelude.{◌≡◌, ◌++◌, true, map, IfOk, OnOk};
ghost use Rattle.std.specs.List.{list_any, list_all};
ghost use Rattle.bq_package_target.specs.Target.{is_of, names_of, source};
ghost use Rattle.bq_package_target.specs.Package.{is_taken, new_files};

use crate::files::Files;
use crate::names::TargetNames;
use crate::package::Package;
use crate::state::{Declared, PackageState};
use crate::target::Target;
use bq_label::Label;
use sqlite_items::{Items, at};
use std::alloc::{AllocError, Global};

/// Returns whether a rule, an output or a group has the label's name.
#[tactic(auto, unfolding(crate::specs::Package::is_taken))]
fn is_taken(targets: &[Target], names: &TargetNames, label: &Label) -> Result<bool, AllocError>
    requires { names.now ≡ names_of targets.now }
    ensures { IfOk result (λ taken. taken ≡ is_taken targets.now label.now) }
{
    match names.place(label.name())? {
        None => Ok(false),
        Some(place) => match at(targets, place) {
            None => Ok(false),
            Some(target) => Ok(!target.kind.is_source()),
        },
    }
}

/// Returns whether a rule, an output or a group has the name of one of the labels.
fn any_is_taken(
    targets: &[Target],
    names: &TargetNames,
    labels: &[Label],
) -> Result<bool, AllocError>
    requires { names.now ≡ names_of targets.now }
    ensures { IfOk result (λ taken. taken ≡ list_any (is_taken targets.now) labels.now) }
{
    for label in labels {
        if is_taken(targets, names, label)? {
            return Ok(true);
        }
    }
    Ok(false)
}

/// Adds the files of labels whose names aren't taken. Returns the names that are taken then.
fn add_files(
    alloc: Global,
    targets: &mut Items<Target>,
    names: TargetNames,
    labels: &[Label],
    line: u32,
) -> Result<TargetNames, AllocError>
    ensures targets { OnOk result (targets.new ≡ targets.old ++ map (λ l. source l line) (new_files names labels.now)) }
    ensures names { IfOk result (λ after. after ≡ names ++ map (λ l. l.name) (new_files names labels.now)) }
{
    let mut files = Files {
        names,
        found: Items::new(alloc),
    };
    files.add_all(labels, line)?;
    let Files { names, found } = files;
    targets.append(found)?;
    Ok(names)
}

impl PackageState {
    ghost use Rattle.bq_label.specs.Label.{package_of};
    ghost use Rattle.bq_package_target.specs.Package.{files, finished};
    ghost use Rattle.bq_package_target.specs.Calls.{exported};
    ghost use Rattle.bq_package_target.specs.declared.state.Declared.TheVariants.{Accepted};

    /// Returns whether a rule, an output or a group has one of the names.
    fn is_any_taken(&self, labels: &[Label]) -> Result<bool, AllocError>
        ensures { IfOk result (λ taken. taken ≡ list_any (is_taken self.now.targets) labels.now) }
    {
        any_is_taken(self.targets.as_slice(), &self.names, labels)
    }

    /// Adds the source files of labels whose names aren't taken.
    fn accept(self, alloc: Global, labels: &[Label], line: u32) -> Result<Declared, AllocError>
        requires { list_all (is_of (package_of self.build_file)) labels.now ≡ true }
        ensures { IfOk result (λ d. d ≡ Accepted (record { build_file = self.build_file; targets = self.targets ++ files line self.targets labels.now })) }
    {
        let PackageState {
            build_file,
            mut targets,
            names,
            kept,
        } = self;
        let names = add_files(alloc, &mut targets, names, labels, line)?;
        Ok(Declared::Accepted(PackageState {
            build_file,
            targets,
            names,
            kept,
        }))
    }

    /// Declares source files. A file may be declared again; the call is refused, F74, if a rule, an output or a group
    /// has one of the names.
    #[tactic(auto, unfolding(crate::specs::Calls::exported))]
    pub fn export(self, alloc: Global, labels: &[Label], line: u32) -> Result<Declared, AllocError>
        requires { list_all (is_of (package_of self.build_file)) labels.now ≡ true }
        ensures { IfOk result (λ d. d ≡ exported self labels.now line) }
    {
        if self.is_any_taken(labels)? {
            return Ok(Declared::Refused(self));
        }
        self.accept(alloc, labels, line)
    }

    /// Returns the package once its BUILD file is evaluated: what the accepted calls declare, then the BUILD file and
    /// the files of the package that these targets name and nothing declares.
    pub fn finish(self, alloc: Global) -> Result<Package, AllocError>
        ensures { IfOk result (λ p. p ≡ finished self) }
    {
        let PackageState {
            build_file,
            mut targets,
            names,
            kept: _,
        } = self;
        let mut files = Files {
            names,
            found: Items::new(alloc),
        };
        files.add(&build_file, 0)?;
        files.add_named(build_file.package_id(), targets.as_slice())?;
        let Files { names: _, found } = files;
        targets.append(found)?;
        Package::of(alloc, build_file, targets)
    }
}
