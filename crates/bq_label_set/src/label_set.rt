//! Sets of labels.

ghost use Rattle.std.specs.Prelude.{◌≡◌, ◌<◌, [], ℕ, Some, length, position, slice_get, IfOk, IfSome, IfNone, OnOk, not};
ghost use Rattle.std.specs.Option.{option_copied};
ghost use Rattle.bq_label_set.specs.Labels.{same_label, has_label, with_label, with_labels};

use crate::numbering::{LabelKey, LabelNumbers, hash};
use bq_label::Label;
use std::alloc::{AllocError, Global};
use std::collections::BTreeMap;
use std::marker::Model;

/// Labels, none of them twice, in the order in which they were first added. Contracts see the list of them.
#[derive(Drop)]
pub struct LabelSet {
    labels: Vec<Label>,
    numbers: LabelNumbers,
}

impl Model for LabelSet {
    ghost use Rattle.std.specs.Prelude.{List};
    ghost use Rattle.bq_label.specs.Label.{LabelParts};
    ghost use Rattle.bq_label_set.specs.Numbering.{AreNumbered};

    ghost Value = { List LabelParts };

    ghost view = { λ s. s.labels.items };

    ghost invariant = { λ s. AreNumbered s.labels.items s.numbers.by_hash s.numbers.colliding };
}

impl LabelSet {
    #[tactic(auto, using(crate::proofs::Numbered::nothing_numbered))]
    pub fn new(alloc: Global) -> LabelSet
        ensures { result ≡ [] }
    {
        LabelSet {
            labels: Vec::new(alloc),
            numbers: LabelNumbers {
                by_hash: BTreeMap::new(alloc),
                colliding: BTreeMap::new(alloc),
            },
        }
    }

    /// Returns the number where the label has it.
    #[tactic(auto, unfolding(crate::specs::Labels::same_label), using(crate::proofs::Numbered::no_number, crate::proofs::Numbered::past, crate::proofs::Numbered::other_there, crate::proofs::Numbered::same_there))]
    fn checked(&self, number: Option<usize>, label: &Label) -> Option<usize>
        ensures there { IfSome result (λ i. (number ≡ Some i) × (slice_get self.now i ≡ Some label.now)) }
        ensures nowhere { IfNone result ((i : ℕ) → number ≡ Some i → slice_get self.now i ≡ Some label.now → ⊥) }
    {
        let number = number?;
        let held = self.labels.get(number)?;
        // The names are compared first, since they differ most often.
        if held.name() != label.name()
            || held.package() != label.package()
            || held.repo() != label.repo()
        {
            return None;
        }
        Some(number)
    }

    /// Appends a label; true if it is new.
    #[tactic(auto, unfolding(crate::specs::Labels::with_label), using(crate::proofs::Numbered::still_numbered, crate::proofs::Numbered::one_more))]
    pub fn add(&mut self, label: &Label) -> Result<bool, AllocError>
        ensures added { IfOk result (λ added. added ≡ not (has_label self.old label.now)) }
        ensures after { OnOk result (self.new ≡ with_label self.old label.now) }
    {
        if self.has(label)? {
            return Ok(false);
        }
        self.numbers.put(label, self.labels.len())?;
        self.labels.push(label.share()?)?;
        Ok(true)
    }

    /// Returns whether this is one of them. It fails where 2^63 owners of the label are alive: the look-up shares it.
    #[tactic(auto, using(crate::proofs::Numbered::has_number))]
    pub fn has(&self, label: &Label) -> Result<bool, AllocError>
        ensures { IfOk result (λ has. has ≡ has_label self.now label.now) }
    {
        Ok(self.number(label)?.is_some())
    }

    /// Appends each of these labels that is new.
    #[tactic(auto, unfolding(crate::specs::Labels::with_labels))]
    pub fn add_all(&mut self, labels: &[Label]) -> Result<(), AllocError>
        ensures { OnOk result (self.new ≡ with_labels self.old labels.now) }
    {
        for label in labels {
            self.add(label)?;
        }
        Ok(())
    }

    /// Returns the labels by their numbers.
    pub fn as_slice(&self) -> &[Label]
        ensures { result.now ≡ self.now }
    {
        self.labels.as_slice()
    }

    /// Returns the label of a number.
    pub fn get(&self, number: usize) -> Option<&Label>
        ensures { option_copied result ≡ slice_get self.now number }
    {
        self.labels.get(number)
    }

    /// Returns the number of a label: its place in the order in which they were added. It fails as `has` does.
    #[tactic(auto, using(crate::proofs::Numbered::number_within, crate::proofs::Numbered::at_number, crate::proofs::Numbered::late_number, crate::proofs::Numbered::late_within))]
    pub fn number(&self, label: &Label) -> Result<Option<usize>, AllocError>
        ensures number { IfOk result (λ number. number ≡ position (same_label label.now) self.now) }
        ensures within { IfOk result (λ number. IfSome number (λ n. n < length self.now)) }
    {
        let first = self.numbers.by_hash.get(&hash(label)).copied();
        if let Some(number) = self.checked(first, label) {
            return Ok(Some(number));
        }
        // Hashes of labels that nobody searched for don't collide.
        if self.numbers.colliding.is_empty() {
            return Ok(None);
        }
        let key = LabelKey {
            label: label.share()?,
        };
        let late = self.numbers.colliding.get(&key).copied();
        Ok(self.checked(late, label))
    }
}
