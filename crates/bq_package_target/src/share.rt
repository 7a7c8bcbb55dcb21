//! Shares of targets: only their texts of up to 22 bytes are copied.

ghost use Rattle.std.specs.Prelude.{◌≡◌, IfOk};

use crate::target::{Target, TargetKind};
use crate::value::GivenAttribute;
use std::alloc::AllocError;

impl GivenAttribute {
    /// Shares the attribute with its value.
    pub fn share(&self) -> Result<GivenAttribute, AllocError>
        ensures { IfOk result (λ a. a ≡ self.now) }
    {
        Ok(GivenAttribute {
            name: self.name.share()?,
            value: self.value.share()?,
        })
    }
}

impl TargetKind {
    /// Shares the kind.
    pub fn share(&self) -> Result<TargetKind, AllocError>
        ensures { IfOk result (λ k. k ≡ self.now) }
    {
        Ok(match self {
            TargetKind::Rule(name, class) => TargetKind::Rule(name.share()?, class.share()?),
            TargetKind::Source => TargetKind::Source,
            TargetKind::Generated(rule) => TargetKind::Generated(rule.share()?),
            TargetKind::Group => TargetKind::Group,
        })
    }
}

impl Target {
    /// Shares the target.
    pub fn share(&self) -> Result<Target, AllocError>
        ensures { IfOk result (λ t. t ≡ self.now) }
    {
        Ok(Target {
            label: self.label.share()?,
            kind: self.kind.share()?,
            attributes: self.attributes.share()?,
            line: self.line,
        })
    }
}
