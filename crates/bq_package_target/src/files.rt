//! The files that labels name and nothing declares.

ghost use Rattle.std.specs.Prelude.{◌≡◌, [], ◌∷◌, OnOk};
ghost use Rattle.std.specs.List.{flat_map};
ghost use Rattle.bq_package_target.specs.Target.{is_of};
ghost use Rattle.bq_package_target.specs.Value.{labels_in};

use crate::attribute_list::AttributeList;
use crate::names::TargetNames;
use crate::target::{Target, TargetKind};
use crate::value::GivenAttribute;
use bq_label::{Label, PackageId};
use sqlite_items::Items;
use std::alloc::AllocError;

/// Files found so far, and the names that are taken by them and by others.
#[derive(Drop)]
pub struct Files {
    pub names: TargetNames,
    pub found: Items<Target>,
}

/// Returns whether the label is of the package.
#[tactic(auto, unfolding(crate::specs::Target::is_of))]
pub fn is_of(own: &PackageId, label: &Label) -> bool
    ensures { result ≡ is_of own.now label.now }
{
    label.repo() == own.repo() && label.package() == own.package()
}

impl Files {
    ghost use Rattle.bq_package_target.specs.Files.{Finds, FindsOwn};

    /// Adds the file of a label, if its name isn't taken.
    pub fn add(&mut self, label: &Label, line: u32) -> Result<(), AllocError>
        ensures { OnOk result (Finds line (label.now ∷ []) self.old self.new) }
    {
        if !self.names.add(label.name())? {
            return Ok(());
        }
        let label = label.share()?;
        self.found.push(Target {
            label,
            kind: TargetKind::Source,
            attributes: AttributeList::none(),
            line,
        })?;
        Ok(())
    }

    /// Adds the files of labels.
    pub fn add_all(&mut self, labels: &[Label], line: u32) -> Result<(), AllocError>
        ensures { OnOk result (Finds line labels.now self.old self.new) }
    {
        for label in labels {
            self.add(label, line)?;
        }
        Ok(())
    }

    /// Adds the file of a label, if it is of the package.
    fn add_own(&mut self, own: &PackageId, label: &Label) -> Result<(), AllocError>
        ensures { OnOk result (FindsOwn own.now (label.now ∷ []) self.old self.new) }
    {
        if !is_of(own, label) {
            return Ok(());
        }
        self.add(label, 0)
    }

    fn add_own_labels(&mut self, own: &PackageId, labels: &[Label]) -> Result<(), AllocError>
        ensures { OnOk result (FindsOwn own.now labels.now self.old self.new) }
    {
        for label in labels {
            self.add_own(own, label)?;
        }
        Ok(())
    }

    fn add_attributes(
        &mut self,
        own: &PackageId,
        attributes: &[GivenAttribute],
    ) -> Result<(), AllocError>
        ensures { OnOk result (FindsOwn own.now (labels_in attributes.now) self.old self.new) }
    {
        for given in attributes {
            self.add_own_labels(own, given.value.labels())?;
        }
        Ok(())
    }

    /// Adds the files of the package that targets name.
    pub fn add_named(&mut self, own: &PackageId, targets: &[Target]) -> Result<(), AllocError>
        ensures { OnOk result (FindsOwn own.now (flat_map (λ t. labels_in t.attributes) targets.now) self.old self.new) }
    {
        for target in targets {
            self.add_attributes(own, target.attributes.as_slice())?;
        }
        Ok(())
    }
}
