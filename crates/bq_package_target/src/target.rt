//! Targets (Bazel, "Repositories, packages, and targets"): rules, files and groups of packages.

ghost use Rattle.std.specs.Prelude.{◌≡◌, IfOk};
ghost use Rattle.bq_package_target.specs.Target.{is_source, generated};

use crate::attribute_list::AttributeList;
use bq_base::Bytes;
use bq_label::Label;
use bq_value_datum::RuleClass;
use std::alloc::AllocError;

/// What a target is.
#[derive(Drop)]
pub enum TargetKind {
    /// A rule, with the name of its kind, as `genrule`, and the attributes that it has of its own.
    Rule(Bytes, RuleClass),
    /// A file of the workspace.
    Source,
    /// A file that this rule makes.
    Generated(Label),
    /// A group of packages. Its attribute `includes` has the groups that it includes.
    Group,
}

/// A target of a package.
pub struct Target {
    pub label: Label,
    pub kind: TargetKind,
    /// What its call gives, and the defaults of what it doesn't give; a file has none.
    pub attributes: AttributeList,
    /// The line of the call that declares it, or 0 if none does.
    pub line: u32,
}

impl Drop for Target {
    // PROOF: a drop that is written out is proved here alone, and a derived one in each crate that drops a target
    fn drop(self) {
        let Target {
            label: _,
            kind: _,
            attributes: _,
            line: _,
        } = self;
    }
}

impl TargetKind {
    pub fn is_source(&self) -> bool
        ensures { result ≡ is_source self.now }
    {
        match self {
            TargetKind::Source => true,
            _ => false,
        }
    }
}

impl Target {
    /// Makes a file that a rule makes.
    pub(crate) fn generated(rule: &Target, label: &Label) -> Result<Target, AllocError>
        ensures { IfOk result (λ t. t ≡ generated rule.now label.now) }
    {
        let label = label.share()?;
        Ok(Target {
            label,
            kind: TargetKind::Generated(rule.label.share()?),
            attributes: AttributeList::none(),
            line: rule.line,
        })
    }
}
