//! Target patterns (Bazel, "Target patterns").

use bq_label::{Label, PackageId};

/// Which targets a word names, as it was read.
#[derive(Drop)]
pub enum TargetPattern {
    /// `//p:n`: the target with this label.
    Target(Label),
    /// `//p:all`: the rules of the package.
    Rules(PackageId),
    /// `//p:*`, `//p:all-targets`: all targets of the package.
    All(PackageId),
    /// `//p/...`, `//p/...:all`: the rules of the package and of those beneath it.
    RulesBeneath(PackageId),
    /// `//p/...:*`, `//p/...:all-targets`: all targets of the package and of those beneath it.
    AllBeneath(PackageId),
}
