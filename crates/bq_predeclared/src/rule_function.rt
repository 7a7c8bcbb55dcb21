//! The functions that declare rules (Bazel, "Rules"; "attr"): a .bzl file has `rule` by its name, the others as `attr.NAME`.

ghost use Rattle.std.specs.Prelude.{◌≡◌};
ghost use Rattle.bq_predeclared.specs.RuleFunctions.{attr_named, rule_function_name};

use crate::attribute_type::{AttributeType, type_named};

/// A function that declares rules.
#[derive(Clone, Copy, Debug, PartialEq, Eq)]
pub enum RuleFunction {
    /// `rule`
    Rule,
    /// `attr.NAME`, which makes an attribute of the type of that name.
    Attr(AttributeType),
}

impl RuleFunction {
    /// Its name: `rule`, or the one after `attr.`.
    pub fn name(self) -> &'static [u8]
        ensures { result.now ≡ rule_function_name self }
    {
        match self {
            RuleFunction::Rule => b"rule",
            RuleFunction::Attr(kind) => kind.name(),
        }
    }
}

/// Returns the function `attr.NAME` of this name.
#[tactic(auto, unfolding(crate::specs::RuleFunctions::attr_named))]
pub fn attr_named(name: &[u8]) -> Option<RuleFunction>
    ensures { result ≡ attr_named name.now }
{
    match type_named(name) {
        None => None,
        Some(kind) => {
            if !kind.has_function() {
                return None;
            }
            Some(RuleFunction::Attr(kind))
        }
    }
}
