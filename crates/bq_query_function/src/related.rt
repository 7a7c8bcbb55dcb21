//! The targets to which those of a set are related. A relation adds the targets to which one target is related; what holds of the set is
//! proved here once for all of them.

ghost use Rattle.std.specs.Prelude.{◌≡◌, Bool, length, IfOk, OnOk};
ghost use Rattle.bq_package_target.specs.declared.target.Target.{Target};
ghost use Rattle.bq_query_graph.specs.Marks.{IsSet, Marked};
ghost use Rattle.bq_query_function.specs.Order.{AreInOrder};
ghost use Rattle.bq_query_function.specs.Words.{Adds};
ghost use Rattle.bq_query_function.specs.Labels.{Related};

use crate::set::no_target;
use bq_package_target::Target;
use std::alloc::{AllocError, Global};

/// A relation of targets.
pub trait Relation {
    ghost relates: { Self → Target → Target → Bool };

    /// Adds the targets to which a target is related.
    fn add_related(
        &self,
        alloc: Global,
        targets: &[Target],
        target: &Target,
        marks: &mut Vec<bool>,
    ) -> Result<(), AllocError>
        requires order { AreInOrder targets.now }
        requires long { length marks.old.items ≡ length targets.now }
        ensures { OnOk result (Adds (relates self.now target.now) targets.now marks.old.items marks.new.items) };
}

/// Returns the targets to which one of `x` is related.
pub fn related<R: Relation>(
    alloc: Global,
    targets: &[Target],
    relation: &R,
    x: &[bool],
) -> Result<Vec<bool>, AllocError>
    requires order { AreInOrder targets.now }
    requires long { length x.now ≡ length targets.now }
    ensures { IfOk result (λ r. IsSet (length targets.now) r.items (Related (R.relates relation.now) targets.now (Marked x.now))) }
{
    let mut marks = no_target(alloc, targets.len())?;
    for at in 0..targets.len() {
        if !x[at] {
            continue;
        }
        relation.add_related(alloc, targets, &targets[at], &mut marks)?;
    }
    Ok(marks)
}
