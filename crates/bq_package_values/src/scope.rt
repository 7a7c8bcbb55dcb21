//! The package that a BUILD file declares targets in, among the others.

ghost use Rattle.std.specs.Prelude.{◌≡◌, ◌↔◌, false, IfOk, IsTrue};
ghost use Rattle.std.specs.Option.{ForSome};
ghost use Rattle.std.specs.List.{list_any};
ghost use Rattle.bq_label.specs.Label.{IsPackage};
ghost use Rattle.bq_label.specs.Paths.{is_slash};
ghost use Rattle.bq_package_values.specs.Scope.{crosses, own_label_crosses, ShortNamesCross};

use bq_base::Bytes;
use bq_label::{Label, PackageId, Packages, label_path};
use bq_package_target::is_of;
use std::alloc::{AllocError, Global};

/// A package among the others.
#[derive(Clone, Copy)]
pub struct PackageScope<'a> {
    pub own: &'a PackageId,
    pub packages: &'a Packages,
    /// Whether another package owns the paths of this package's names without a slash: it owns them all, or none. So
    /// no such name is looked up among the packages.
    short_cross: bool,
    ghost short: { ShortNamesCross own.now packages.now short_cross },
}

fn has_slash(name: &[u8]) -> bool
    ensures { result ≡ list_any is_slash name.now }
{
    name.iter().any(|byte| *byte == b'/')
}

/// Returns whether two labels are equal. The names are compared first, since they differ most often.
fn is_same(a: &Label, b: &Label) -> bool
    ensures { IsTrue result ↔ (a.now ≡ b.now) }
{
    a.name() == b.name() && is_of(a.package_id(), b)
}

/// Returns whether another package than the label's owns the path that the label names.
#[tactic(auto, unfolding(crate::specs::Scope::crosses))]
fn crosses(alloc: Global, packages: &Packages, label: &Label) -> Result<bool, AllocError>
    ensures { IfOk result (λ found. found ≡ crosses packages.now label.now) }
{
    let path = label_path(alloc, label)?;
    match packages.owner_of(&path) {
        None => Ok(false),
        Some(owner) => Ok(!is_of(&owner.id, label)),
    }
}

impl<'a> PackageScope<'a> {
    /// Makes the scope of a package. Its name `BUILD` stands for all names without a slash.
    #[tactic(auto, using(crate::proofs::Crossings::build_is_path, crate::proofs::Crossings::short_by_build))]
    pub fn new(
        alloc: Global,
        own: &'a PackageId,
        packages: &'a Packages,
    ) -> Result<PackageScope<'a>, AllocError>
        ensures own { IfOk result (λ s. s.own.now ≡ own.now) }
        ensures packages { IfOk result (λ s. s.packages.now ≡ packages.now) }
    {
        let name = Bytes::from_slice(alloc, b"BUILD")?;
        let label = Label::new(own.share()?, name);
        let short_cross = crosses(alloc, packages, &label)?;
        Ok(PackageScope {
            own,
            packages,
            short_cross,
        })
    }

    /// Returns whether the package's names without a slash cross into another package.
    pub(crate) fn short_names_cross(&self) -> bool
        ensures cross { ShortNamesCross self.now.own.now self.now.packages.now result }
        ensures valid { IsPackage self.now.own.now }
    {
        let _ = self.own.repo(); // for the proof: a package is valid
        self.short_cross
    }

    /// Returns whether the label is of this package, and another package owns the path that it names.
    #[tactic(auto, unfolding(crate::specs::Scope::own_label_crosses))]
    pub(crate) fn own_label_crosses(&self, alloc: Global, label: &Label) -> Result<bool, AllocError>
        ensures { IfOk result (λ found. found ≡ own_label_crosses self.now.own.now self.now.packages.now label.now) }
    {
        if !is_of(self.own, label) {
            return Ok(false);
        }
        if !has_slash(label.name().as_slice()) {
            return Ok(self.short_cross);
        }
        crosses(alloc, self.packages, label)
    }

    /// Returns whether the label is so. Where it equals the one before it, which isn't, it isn't either: so a long label that
    /// a list repeats is looked up once.
    fn next_crosses(
        &self,
        alloc: Global,
        before: Option<&Label>,
        label: &Label,
    ) -> Result<bool, AllocError>
        requires { ForSome before (λ b. own_label_crosses self.now.own.now self.now.packages.now b.now ≡ false) }
        ensures { IfOk result (λ found. found ≡ own_label_crosses self.now.own.now self.now.packages.now label.now) }
    {
        match before {
            Some(before) if is_same(before, label) => Ok(false),
            _ => self.own_label_crosses(alloc, label),
        }
    }

    /// Returns whether one of the labels is so.
    pub(crate) fn any_own_label_crosses(
        &self,
        alloc: Global,
        labels: &[Label],
    ) -> Result<bool, AllocError>
        ensures { IfOk result (λ found. found ≡ list_any (own_label_crosses self.now.own.now self.now.packages.now) labels.now) }
    {
        let mut before = None;
        for label in labels {
            if self.next_crosses(alloc, before, label)? {
                return Ok(true);
            }
            before = Some(label);
        }
        Ok(false)
    }
}
