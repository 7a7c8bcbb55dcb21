//! Patterns that match no file of a package.

ghost use Rattle.std.specs.Prelude.{◌≡◌, [], ◌∷◌, IfOk};
ghost use Rattle.std.specs.List.{list_any};
ghost use Rattle.bq_label.specs.Workspace.{paths_of};
ghost use Rattle.bq_label_glob.specs.Names.{glob};
ghost use Rattle.bq_label_glob.specs.Matching.{is_nothing};

use crate::names::glob;
use crate::pattern::Pattern;
use crate::unmatched::any_matches_none;
use bq_label::{PackageId, Packages, Workspace};
use std::alloc::{AllocError, Global};

/// Returns whether one of the patterns, by itself, matches no file of the package. The files are looked through once, for
/// all patterns, and then each pattern is looked for among the names of those that some pattern matches.
pub fn any_is_idle(
    alloc: Global,
    workspace: &Workspace,
    packages: &Packages,
    id: &PackageId,
    patterns: &[Pattern],
) -> Result<bool, AllocError>
    ensures { IfOk result (λ idle. idle ≡ list_any (λ p. is_nothing (glob (paths_of workspace.now) packages.now id.now (p ∷ []) [])) patterns.now) }
{
    let names = glob(alloc, workspace, packages, id, patterns, &[])?;
    any_matches_none(alloc, patterns, &names)
}
