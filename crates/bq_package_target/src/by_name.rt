//! The targets of a package in the order of their names.

ghost use Rattle.std.specs.Prelude.{◌≡◌, ◌++◌, length, bytes_eq, IfOk, OnOk};
ghost use Rattle.std.specs.List.{IsDistinct};
ghost use Rattle.bq_package_target.specs.Target.{names_of};

use crate::target::Target;
use sqlite_items::Items;
use std::alloc::{AllocError, Global};
use std::marker::Model;

/// A target with its place among those that are declared.
#[derive(Drop)]
pub(crate) struct PlacedTarget {
    target: Target,
    place: usize,
}

/// Targets in the order of their names: whoever evaluates a package sorts them, so that who joins packages has only to move them.
/// Contracts see them in the order in which they are declared.
pub(crate) struct TargetsByName {
    placed: Vec<PlacedTarget>,
}

impl Drop for TargetsByName {
    // PROOF: a drop that is written out is proved here alone, and a derived one in each function that drops targets
    fn drop(self) {
        let TargetsByName { placed: _ } = self;
    }
}

impl Model for TargetsByName {
    ghost use Rattle.std.specs.Prelude.{List};
    ghost use Rattle.bq_package_target.specs.declared.target.Target.{Target};
    ghost use Rattle.bq_package_target.specs.ByName.{as_declared, ComeByName};

    ghost Value = { List Target };

    ghost view = { λ ts. as_declared ts.placed.items };

    ghost invariant = { λ ts. ComeByName ts.placed.items };
}

impl TargetsByName {
    ghost use Rattle.bq_package_target.specs.ByName.{by_name};

    /// Sorts targets.
    pub(crate) fn of(alloc: Global, targets: Items<Target>) -> Result<TargetsByName, AllocError>
        requires { IsDistinct bytes_eq (names_of targets) }
        ensures { IfOk result (λ ts. ts ≡ targets) }
    {
        let mut targets = targets;
        let mut placed = Vec::with_capacity(alloc, targets.len())?;
        while let Some(target) = targets.pop() {
            placed.push(PlacedTarget {
                target,
                place: targets.len(),
            })?;
        }
        // back to the order of the calls, in which many a list of sources ascends
        placed.reverse();
        placed.sort_unstable_by(|a, b| a.target.label.name().cmp(b.target.label.name()));
        Ok(TargetsByName { placed })
    }

    pub(crate) fn len(&self) -> usize
        ensures { result ≡ length self.now }
    {
        self.placed.len()
    }

    /// Moves the targets to the end of others, in the order of their names.
    pub(crate) fn move_to(self, all: &mut Vec<Target>) -> Result<(), AllocError>
        ensures { OnOk result (all.new.items ≡ all.old.items ++ by_name self) }
    {
        let TargetsByName { placed } = self;
        for each in placed {
            all.push(each.target)?;
        }
        Ok(())
    }

    /// Puts shares of the targets to the end of others, in the order of their names.
    pub(crate) fn share_to(&self, all: &mut Vec<Target>) -> Result<(), AllocError>
        ensures { OnOk result (all.new.items ≡ all.old.items ++ by_name self.now) }
    {
        let placed = self.placed.as_slice();
        for each in placed {
            all.push(each.target.share()?)?;
        }
        Ok(())
    }
}
