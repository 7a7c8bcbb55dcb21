//! The attributes of a target, as a list with many owners.

ghost use Rattle.std.specs.Prelude.{◌≡◌, [], IfOk};

use crate::value::GivenAttribute;
use sqlite_items::Items;
use std::alloc::{AllocError, Global};
use std::marker::Model;
use std::sync::Arc;

/// The attributes of a target: those that its call gives, and the defaults of the others. Contracts see the list of them.
#[derive(Drop)]
pub struct AttributeList {
    /// None where there is no attribute: most targets are files, for which nothing is allocated so.
    given: Option<Arc<Items<GivenAttribute>>>,
}

impl Model for AttributeList {
    ghost use Rattle.std.specs.Prelude.{List};
    ghost use Rattle.bq_package_target.specs.declared.value.GivenAttribute.{GivenAttribute};
    ghost use Rattle.bq_package_target.specs.AttributeList.{attributes_in};

    ghost Value = { List GivenAttribute };

    ghost view = { λ l. attributes_in l.given };
}

impl AttributeList {
    /// Makes the list of no attributes.
    pub fn none() -> AttributeList
        ensures { result ≡ [] }
    {
        AttributeList { given: None }
    }

    /// Makes the list of these attributes.
    #[tactic(auto, using(crate::proofs::Empty::none_left))]
    pub fn of(alloc: Global, given: Items<GivenAttribute>) -> Result<AttributeList, AllocError>
        ensures { IfOk result (λ l. l ≡ given) }
    {
        if given.len() == 0 {
            return Ok(AttributeList::none());
        }
        Ok(AttributeList {
            given: Some(Arc::new(alloc, given)?),
        })
    }

    /// Returns the attributes.
    pub fn as_slice(&self) -> &[GivenAttribute]
        ensures { result.now ≡ self.now }
    {
        match &self.given {
            Some(given) => given.as_slice(),
            None => &[],
        }
    }

    /// Returns another owner of the list. Nothing is copied.
    pub fn share(&self) -> Result<AttributeList, AllocError>
        ensures { IfOk result (λ l. l ≡ self.now) }
    {
        let Some(given) = &self.given else {
            return Ok(AttributeList::none());
        };
        Ok(AttributeList {
            given: Some(given.clone()?),
        })
    }
}
