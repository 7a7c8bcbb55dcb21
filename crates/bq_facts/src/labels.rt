//! The labels of numbered targets.

ghost use Rattle.std.specs.Prelude.{◌≡◌, ◌<◌, length, IfOk};
ghost use Rattle.std.specs.List.{All};
ghost use Rattle.bq_facts.specs.Labels.{labels_at};

use bq_label::Label;
use bq_package_target::Target;
use std::alloc::{AllocError, Global};

/// Returns the labels of the targets with these numbers.
pub fn labels_at(
    alloc: Global,
    targets: &[Target],
    numbers: &[usize],
) -> Result<Vec<Label>, AllocError>
    requires { All (λ at. at < length targets.now) numbers.now }
    ensures { IfOk result (λ ls. ls.items ≡ labels_at targets.now numbers.now) }
{
    let mut labels = Vec::with_capacity(alloc, numbers.len())?;
    for at in numbers {
        labels.push(targets[*at].label.share()?)?;
    }
    Ok(labels)
}
