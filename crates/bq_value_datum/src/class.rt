//! The attributes of a rule.

ghost use Rattle.std.specs.Prelude.{◌≡◌, [], length, bytes_eq, option_copied, option_map, slice_get, IfOk};
ghost use Rattle.std.specs.Map.{lookup};

use crate::attribute::Attribute;
use crate::attributes::Attributes;
use bq_label::Bytes;
use sqlite_items::at;
use std::alloc::{AllocError, Global};
use std::marker::Model;
use std::sync::Arc;

/// The attributes that a rule has of its own, in order, with many owners. Contracts see the list of them, each with its name.
pub struct RuleClass {
    attributes: Arc<Attributes>,
}

impl Drop for RuleClass {
    // PROOF: a drop that is written out is proved here alone, and a derived one in each crate that drops a class
    fn drop(self) {
        let RuleClass { attributes: _ } = self;
    }
}

impl Model for RuleClass {
    ghost use Rattle.bq_value_datum.specs.Class.{Class};
    ghost use Rattle.bq_value_datum.specs.AttributeCodes.{coded_class};

    ghost Value = { Class };

    ghost coded = { coded_class };

    ghost view = { λ c. c.attributes.value };
}

impl RuleClass {
    /// Makes the class of a rule that has these of its own.
    pub fn of(alloc: Global, attributes: Attributes) -> Result<RuleClass, AllocError>
        ensures { IfOk result (λ c. c ≡ attributes) }
    {
        Ok(RuleClass {
            attributes: Arc::new(alloc, attributes)?,
        })
    }

    /// Of a rule that has none of its own.
    pub fn empty(alloc: Global) -> Result<RuleClass, AllocError>
        ensures { IfOk result (λ c. c ≡ []) }
    {
        RuleClass::of(alloc, Attributes::new(alloc))
    }

    /// Returns another owner of the class. Nothing is copied.
    pub fn share(&self) -> Result<RuleClass, AllocError>
        ensures { IfOk result (λ c. c ≡ self.now) }
    {
        Ok(RuleClass {
            attributes: self.attributes.clone()?,
        })
    }

    /// Returns the number of attributes.
    #[tactic(auto, using(crate::proofs::NamedAttributes::as_many))]
    pub fn len(&self) -> usize
        ensures { result ≡ length self.now }
    {
        self.attributes.attributes.len()
    }

    /// Returns the attribute of this name.
    #[tactic(auto, using(crate::proofs::NamedAttributes::unnamed, crate::proofs::NamedAttributes::named))]
    pub fn get(&self, name: &[u8]) -> Option<&Attribute>
        ensures { option_copied result ≡ lookup (bytes_eq name.now) self.now }
    {
        let own: &Attributes = &self.attributes;
        match own.names.place(name) {
            None => None,
            Some(place) => at(&own.attributes, place),
        }
    }

    /// Returns the attribute at a place, with its name.
    #[tactic(auto, using(crate::proofs::NamedAttributes::no_name_at, crate::proofs::NamedAttributes::no_attribute_at, crate::proofs::NamedAttributes::both_at))]
    pub fn entry(&self, place: usize) -> Option<(&Bytes, &Attribute)>
        ensures { option_map (λ e. (e.0.now, e.1.now)) result ≡ slice_get self.now place }
    {
        let own: &Attributes = &self.attributes;
        let name = at(own.names.as_slice(), place)?;
        let attribute = at(&own.attributes, place)?;
        Some((name, attribute))
    }
}
