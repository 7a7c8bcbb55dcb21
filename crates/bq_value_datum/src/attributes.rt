//! Attributes by their names.

ghost use Rattle.std.specs.Prelude.{◌≡◌, [], IfOk};
ghost use Rattle.bq_value_datum.specs.Class.{extended};

use crate::attribute::Attribute;
use bq_base_texts::NameSet;
use bq_label::Bytes;
use std::alloc::{AllocError, Global};
use std::marker::Model;

/// Attributes in the order in which they were added, with one owner. Contracts see the list of them, each with its
/// name.
pub struct Attributes {
    pub(crate) names: NameSet,
    /// The attribute of each name, in the same order.
    pub(crate) attributes: Vec<Attribute>,
}

impl Drop for Attributes {
    // PROOF: a drop that is written out is proved here alone, and a derived one in each crate that drops attributes
    fn drop(self) {
        let Attributes {
            names: _,
            attributes: _,
        } = self;
    }
}

impl Model for Attributes {
    ghost use Rattle.std.specs.Prelude.{◌≡◌, length};
    ghost use Rattle.std.specs.List.{zip};
    ghost use Rattle.bq_value_datum.specs.Class.{Class};
    ghost use Rattle.bq_value_datum.specs.AttributeCodes.{coded_class};

    ghost Value = { Class };

    ghost coded = { coded_class };

    ghost view = { λ a. zip a.names a.attributes.items };

    ghost invariant = { λ a. length a.names ≡ length a.attributes.items };
}

impl Attributes {
    /// Makes an empty list.
    pub fn new(alloc: Global) -> Attributes
        ensures { result ≡ [] }
    {
        Attributes {
            names: NameSet::new(alloc),
            attributes: Vec::new(alloc),
        }
    }

    /// Appends an attribute; `None` if one has the name.
    #[tactic(auto, unfolding(crate::specs::Class::extended), using(crate::proofs::NamedAttributes::has_name, crate::proofs::NamedAttributes::pushed))]
    pub fn with(
        self,
        alloc: Global,
        name: &[u8],
        attribute: Attribute,
    ) -> Result<Option<Attributes>, AllocError>
        ensures { IfOk result (λ c. c ≡ extended self name.now attribute) }
    {
        let Attributes {
            mut names,
            mut attributes,
        } = self;
        let name = Bytes::from_slice(alloc, name)?;
        if !names.add(&name)? {
            return Ok(None);
        }
        attributes.push(attribute)?;
        Ok(Some(Attributes { names, attributes }))
    }
}
