//! Labels whose path another package owns.

ghost use Rattle.std.specs.Prelude.{◌≡◌, IfOk};
ghost use Rattle.bq_load_front.specs.Crossing.{crosses};

use bq_label::{Label, Packages, label_path};
use std::alloc::{AllocError, Global};

/// Returns whether another package than the label's owns the path that the label names.
#[tactic(auto, unfolding(crate::specs::Crossing::crosses, crate::specs::Crossing::is_of))]
pub fn crosses(alloc: Global, packages: &Packages, label: &Label) -> Result<bool, AllocError>
    ensures { IfOk result (λ found. found ≡ crosses packages.now label.now) }
{
    let path = label_path(alloc, label)?;
    match packages.owner_of(&path) {
        None => Ok(false),
        Some(owner) => Ok(label.repo() != owner.id.repo() || label.package() != owner.id.package()),
    }
}
