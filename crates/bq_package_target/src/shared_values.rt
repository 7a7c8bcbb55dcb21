//! Long values that stand once, however many targets or defaults have them.

ghost use Rattle.std.specs.Prelude.{◌≡◌, IfOk, OnOk};

use crate::attribute_list::AttributeList;
use crate::value::GivenAttribute;
use bq_base::Bytes;
use bq_label::Label;
use bq_value_datum::AttributeValue;
use sqlite_items::Items;
use std::alloc::{AllocError, Global};
use std::collections::BTreeMap;
use std::hash::{FoldHasher, Hasher};

/// A list of more elements is long.
const FEW: usize = 16;

/// A text of more bytes is long.
const SHORT: usize = 64;

/// Long values of attributes, each under its hash. Of values whose hashes collide the first is kept, and the others stand as
/// often as they are given.
#[derive(Drop)]
pub struct KeptValues {
    by_hash: BTreeMap<u64, AttributeValue>,
}

fn is_long_label(label: &Label) -> bool {
    label.name().len() > SHORT
}

fn are_long(labels: &[Label]) -> bool {
    labels.len() > FEW || labels.iter().any(is_long_label)
}

/// Returns whether a value takes much more memory than a share of it. Outputs aren't kept: no two of them are equal.
fn is_long(value: &AttributeValue) -> bool {
    value.strings().len() > FEW || are_long(value.labels())
}

fn write_label(hasher: &mut FoldHasher, label: &Label) {
    hasher.write(label.name().as_slice());
    hasher.write(label.package().as_slice());
    hasher.write(label.repo().as_slice());
}

fn write_labels(hasher: &mut FoldHasher, labels: &[Label]) {
    for label in labels {
        write_label(hasher, label);
    }
}

fn write_texts(hasher: &mut FoldHasher, texts: &[Bytes]) {
    for text in texts {
        hasher.write(text.as_slice());
    }
}

fn hash(value: &AttributeValue) -> u64 {
    let mut hasher = FoldHasher::default();
    write_texts(&mut hasher, value.strings());
    write_labels(&mut hasher, value.labels());
    hasher.finish()
}

/// Returns whether an attribute has a long value.
fn has_long(attributes: &[GivenAttribute]) -> bool {
    attributes.iter().any(|given| is_long(&given.value))
}

impl KeptValues {
    /// Makes the values of a module in which none is kept yet.
    pub fn new(alloc: Global) -> KeptValues {
        KeptValues {
            by_hash: BTreeMap::new(alloc),
        }
    }

    /// Returns a share of a value, or of an equal one that is kept. A value whose hash is new is kept.
    #[tactic(auto, using(bq_value_datum::specs::AttributeValue::value_true))]
    fn share(&mut self, value: &AttributeValue) -> Result<AttributeValue, AllocError>
        ensures { IfOk result (λ v. v ≡ value.now) }
    {
        let hash = hash(value);
        if let Some(kept) = self.by_hash.get(&hash) {
            if kept.is_same(value) {
                return kept.share();
            }
            return value.share();
        }
        self.by_hash.insert(hash, value.share()?)?;
        value.share()
    }

    /// Returns the value or, if it is long, a share of an equal one that is kept.
    pub fn share_if_long(&mut self, value: AttributeValue) -> Result<AttributeValue, AllocError>
        ensures { IfOk result (λ v. v ≡ value) }
    {
        if !is_long(&value) {
            return Ok(value);
        }
        self.share(&value)
    }

    /// Returns a share of an attribute. Its value, if it is long, is a share of an equal one that is kept.
    fn share_given(&mut self, given: &GivenAttribute) -> Result<GivenAttribute, AllocError>
        ensures { IfOk result (λ a. a ≡ given.now) }
    {
        let value = if is_long(&given.value) {
            self.share(&given.value)?
        } else {
            given.value.share()?
        };
        Ok(GivenAttribute {
            name: given.name.share()?,
            value,
        })
    }

    /// Has long values of attributes be shares of equal ones that are kept.
    pub(crate) fn share_long(
        &mut self,
        alloc: Global,
        attributes: &mut AttributeList,
    ) -> Result<(), AllocError>
        ensures { OnOk result (attributes.new ≡ attributes.old) }
    {
        let all = attributes.as_slice();
        if !has_long(all) {
            return Ok(());
        }
        let mut shared = Vec::with_capacity(alloc, all.len())?;
        for given in all {
            shared.push(self.share_given(given)?)?;
        }
        *attributes = AttributeList::of(alloc, Items::from_vec(shared))?;
        Ok(())
    }
}
