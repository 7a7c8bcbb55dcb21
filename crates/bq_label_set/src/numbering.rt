//! The numbers of labels.

ghost use Rattle.std.specs.Prelude.{◌≡◌, ◌≢◌, ℕ, OnOk, refl};
ghost use Rattle.std.specs.Cmp.{po, partial_equiv_from_equiv, eq_by_cmp_equiv};
ghost use Rattle.std.specs.Ordering.{eq_by_cmp, as_partial_cmp};
ghost use Rattle.bq_label.specs.Label.{LabelParts};
ghost use Rattle.bq_label_set.specs.Numbering.{label_cmp, label_cmp_total, hash_of, HasNumber};

use bq_label::Label;
use std::alloc::AllocError;
use std::cmp::Ordering;
use std::collections::BTreeMap;
use std::hash::{FoldHasher, Hasher};
use std::marker::Model;

/// A label that is looked up in a tree, by its name first, since names differ most often.
#[derive(Drop)]
pub struct LabelKey {
    pub label: Label,
}

impl Model for LabelKey {
    ghost use Rattle.bq_label.specs.Label.{LabelParts};

    ghost Value = { LabelParts };

    ghost view = { λ k. k.label };
}

impl PartialEq for LabelKey {
    ghost eq = { eq_by_cmp label_cmp };

    ghost laws = { partial_equiv_from_equiv (eq_by_cmp_equiv label_cmp_total) };

    fn eq(&self, other: &LabelKey) -> bool {
        self.cmp(other).is_eq()
    }
}

impl Eq for LabelKey {
    ghost laws = { eq_by_cmp_equiv label_cmp_total };
}

impl PartialOrd for LabelKey {
    ghost partial_cmp = { as_partial_cmp label_cmp };

    ghost laws = { po label_cmp_total (λ x y. refl) };

    fn partial_cmp(&self, other: &LabelKey) -> Option<Ordering> {
        Some(self.cmp(other))
    }
}

impl Ord for LabelKey {
    ghost cmp = { label_cmp };

    ghost total = { label_cmp_total };

    ghost matches_partial_cmp = { λ x y. refl };

    ghost matches_eq = { λ x y. refl };

    fn cmp(&self, other: &LabelKey) -> Ordering {
        self.label
            .name()
            .cmp(other.label.name())
            .then_with(|| self.label.package().cmp(other.label.package()))
            .then_with(|| self.label.repo().cmp(other.label.repo()))
    }
}

/// For each label that was put the numbers that it may have, of which one was put with it.
#[derive(Drop)]
pub struct LabelNumbers {
    /// The number of the first label of each hash.
    pub by_hash: BTreeMap<u64, usize>,
    /// The numbers of all other labels: the few whose hashes collide, unless a stranger searched for such labels.
    pub colliding: BTreeMap<LabelKey, usize>,
}

pub fn hash(label: &Label) -> u64
    ensures { result ≡ hash_of label.now }
{
    let mut hasher = FoldHasher::default();
    hasher.write(label.name().as_slice());
    hasher.write(label.package().as_slice());
    hasher.write(label.repo().as_slice());
    hasher.finish()
}

impl LabelNumbers {
    /// Puts the number of a label. Other labels keep theirs, even where memory runs out.
    #[tactic(auto, using(crate::proofs::Put::first_put, crate::proofs::Put::others_first, crate::proofs::Put::colliding_put, crate::proofs::Put::others_colliding, crate::proofs::Put::first_refused, crate::proofs::Put::colliding_refused))]
    pub fn put(&mut self, label: &Label, number: usize) -> Result<(), AllocError>
        ensures put { OnOk result (HasNumber self.new.by_hash self.new.colliding label.now number) }
        ensures others { (other : LabelParts) (i : ℕ) → other ≢ label.now → HasNumber self.old.by_hash self.old.colliding other i → HasNumber self.new.by_hash self.new.colliding other i }
    {
        let hash = hash(label);
        if self.by_hash.get(&hash).is_none() {
            self.by_hash.insert(hash, number)?;
            return Ok(());
        }
        let key = LabelKey {
            label: label.share()?,
        };
        self.colliding.insert(key, number)?;
        Ok(())
    }
}
