//! The names of a comprehension.

ghost use Rattle.std.specs.Prelude.{◌≡◌, [], ◌∷◌, Some, IfOk, map, option_copied};
ghost use Rattle.bq_eval_frame.specs.Slots.{layered, layers_of};

use crate::slot_list::slot_in;
use crate::sparse::SparseSlots;
use bq_value::Value;
use std::alloc::{AllocError, Global};

/// What the clauses of a comprehension bind, and what it only reads.
#[derive(Drop)]
pub struct Inner<'a> {
    pub bound: SparseSlots,
    /// What the comprehensions around it bind, the innermost first.
    pub around: Vec<&'a SparseSlots>,
    /// The slots of the function.
    pub function: &'a [Option<Value>],
}

impl<'a> Inner<'a> {
    /// Returns the value in a slot.
    #[tactic(auto, unfolding(crate::specs::Slots::layered))]
    pub fn get(&self, slot: usize) -> Option<&Value>
        ensures { option_copied result ≡ layered (self.now.bound ∷ map (λ b. b.now) self.now.around.items) self.now.function.now slot }
    {
        if let Some(value) = self.bound.get(slot) {
            return Some(value);
        }
        self.outer(slot)
    }

    /// Returns the value that a slot has around the comprehension.
    #[tactic(auto, unfolding(crate::specs::Slots::layered))]
    fn outer(&self, slot: usize) -> Option<&Value>
        ensures { option_copied result ≡ layered (map (λ b. b.now) self.now.around.items) self.now.function.now slot }
    {
        for bound in &self.around {
            if let Some(value) = bound.get(slot) {
                return Some(value);
            }
        }
        slot_in(self.function, slot)
    }

    /// Makes the names of a comprehension in a function, which has bound nothing yet.
    pub fn of_function(alloc: Global, function: &'a [Option<Value>]) -> Inner<'a>
        ensures { layers_of (Some result) ≡ ([] ∷ [], function.now) }
    {
        Inner {
            bound: SparseSlots::new(alloc),
            around: Vec::new(alloc),
            function,
        }
    }

    /// Returns what it binds, and then what the comprehensions around it bind.
    fn layers(&self, alloc: Global) -> Result<Vec<&SparseSlots>, AllocError>
        ensures { IfOk result (λ v. map (λ b. b.now) v.items ≡ self.now.bound ∷ map (λ b. b.now) self.now.around.items) }
    {
        let mut layers = Vec::new(alloc);
        layers.push(&self.bound)?;
        for bound in &self.around {
            layers.push(*bound)?;
        }
        Ok(layers)
    }

    /// Makes the names of a comprehension inside this one, which has bound nothing yet.
    pub fn inside(&self, alloc: Global) -> Result<Inner<'_>, AllocError>
        ensures { IfOk result (λ x. layers_of (Some x) ≡ ([] ∷ (layers_of (Some self.now)).0, (layers_of (Some self.now)).1)) }
    {
        Ok(Inner {
            bound: SparseSlots::new(alloc),
            around: self.layers(alloc)?,
            function: self.function,
        })
    }
}
