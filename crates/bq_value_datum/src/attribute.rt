//! What a rule says of one of its attributes.

ghost use Rattle.std.specs.Prelude.{◌≡◌, IfOk};
ghost use Rattle.bq_value_datum.specs.AttributeSame.{same_default, same_attribute};

use crate::attribute_value::AttributeValue;
use bq_predeclared::AttributeType;
use std::alloc::AllocError;

/// What a rule says of one of its attributes.
#[derive(Drop)]
pub struct Attribute {
    pub kind: AttributeType,
    /// Whether a call has to give it a value.
    pub is_mandatory: bool,
    /// Its value if a call doesn't give one.
    pub default: Option<AttributeValue>,
}

impl Attribute {
    /// Shares the attribute. Only texts of up to 22 bytes are copied, and no list.
    pub fn share(&self) -> Result<Attribute, AllocError>
        ensures { IfOk result (λ a. a ≡ self.now) }
    {
        let default = match &self.default {
            None => None,
            Some(value) => Some(value.share()?),
        };
        Ok(Attribute {
            kind: self.kind,
            is_mandatory: self.is_mandatory,
            default,
        })
    }

    /// Returns whether both have one type and one default, and both are mandatory or neither is.
    pub fn is_same(&self, other: &Attribute) -> bool
        ensures { result ≡ same_attribute self.now other.now }
    {
        self.kind.name() == other.kind.name()
            && self.is_mandatory == other.is_mandatory
            && is_same_default(&self.default, &other.default)
    }
}

fn is_same_default(a: &Option<AttributeValue>, b: &Option<AttributeValue>) -> bool
    ensures { result ≡ same_default a.now b.now }
{
    match a {
        None => b.is_none(),
        Some(x) => match b {
            None => false,
            Some(y) => x.is_same(y),
        },
    }
}
