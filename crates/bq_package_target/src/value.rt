//! Attributes with the values that calls give them, and the types of the attributes of a rule.

ghost use Rattle.std.specs.Prelude.{◌≡◌};
ghost use Rattle.bq_package_target.specs.Value.{attribute_type};

use bq_base::Bytes;
use bq_predeclared::AttributeType;
use bq_value_datum::{AttributeValue, RuleClass, common_attribute};

/// An attribute with the value that a call gives it, or that it has by default.
pub struct GivenAttribute {
    pub name: Bytes,
    pub value: AttributeValue,
}

impl Drop for GivenAttribute {
    // PROOF: a drop that is written out is proved here alone, and a derived one in each crate that drops an attribute
    fn drop(self) {
        let GivenAttribute { name: _, value: _ } = self;
    }
}

/// Returns the type of an attribute of a rule: one that all rules have, or one of its own, if the rule has such an
/// attribute.
#[tactic(auto, unfolding(crate::specs::Value::attribute_type))]
pub fn attribute_type(class: &RuleClass, name: &[u8]) -> Option<AttributeType>
    ensures { result ≡ attribute_type class.now name.now }
{
    match common_attribute(name) {
        Some(kind) => Some(kind),
        None => match class.get(name) {
            None => None,
            Some(attribute) => Some(attribute.kind),
        },
    }
}
