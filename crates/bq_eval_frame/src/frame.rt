//! The values of the names of a function, of a file or of a comprehension, by slot.

ghost use Rattle.std.specs.Prelude.{◌≡◌, [], Some, IfOk, OnOk, option_copied};
ghost use Rattle.bq_eval_spec.specs.Frame.{fill};
ghost use Rattle.bq_eval_frame.specs.Slots.{layered, layers_of, list_slots, no_slots, slots_of};

use crate::inner::Inner;
use crate::slot_list::{copied, put, slot_in};
use bq_value::Value;
use std::alloc::{AllocError, Global};
use std::marker::Model;

/// Up to this room for slots, a comprehension gets a copy of its frame.
const MAX_COPIED: usize = 32;

/// Slots, of which some are empty. A function and a file have a list of them. A comprehension has a copy of a short
/// list, which is read without a search; in a function with more names it has what its clauses bind, over the frame
/// around it, which it only reads. Contracts see the list and those layers.
#[derive(Drop)]
pub struct Frame<'a> {
    slots: Vec<Option<Value>>,
    /// The slots of a comprehension that has no list.
    inner: Option<Inner<'a>>,
}

impl<'a> Model for Frame<'a> {
    ghost use Rattle.std.specs.Prelude.{◌≡◌, ℕ, List, [], Option, IsSome};
    ghost use Rattle.std.specs.Coded.{coded_list, coded_option, coded×, coded_ℕ};
    ghost use Rattle.bq_value.specs.Datum.{Datum};
    ghost use Rattle.bq_value.specs.Codes.{coded_datum};

    ghost Value = { List (Option Datum) × (List (List (ℕ × Datum)) × List (Option Datum)) };

    ghost coded = { coded× (coded_list (coded_option coded_datum)) (coded× (coded_list (coded_list (coded× coded_ℕ coded_datum))) (coded_list (coded_option coded_datum))) };

    ghost use Rattle.bq_eval_frame.specs.Slots.{layers_of};

    ghost view = { λ f. (f.slots.items, layers_of f.inner) };

    ghost invariant = { λ f. IsSome f.inner → f.slots.items ≡ [] };
}

impl<'a> Frame<'a> {
    /// Makes a frame of empty slots.
    pub fn new(alloc: Global) -> Frame<'a>
        ensures { result ≡ no_slots }
    {
        Frame {
            slots: Vec::new(alloc),
            inner: None,
        }
    }

    /// Makes a frame of empty slots, with room for `slots` of them.
    pub fn with_room(alloc: Global, slots: usize) -> Result<Frame<'a>, AllocError>
        ensures { IfOk result (λ f. f ≡ no_slots) }
    {
        Ok(Frame {
            slots: Vec::with_capacity(alloc, slots)?,
            inner: None,
        })
    }

    /// Makes the frame whose first slots are these.
    #[tactic(auto, using(crate::proofs::Slots::list_alone))]
    pub fn of_values(values: Vec<Option<Value>>) -> Frame<'a>
        ensures { slots_of result ≡ list_slots values.items }
    {
        Frame {
            slots: values,
            inner: None,
        }
    }

    /// Makes the frame of a comprehension over what is around it.
    fn over(alloc: Global, inner: Inner<'a>) -> Frame<'a>
        ensures { result ≡ ([], layers_of (Some inner.entry)) }
    {
        Frame {
            slots: Vec::new(alloc),
            inner: Some(inner),
        }
    }

    /// Makes the frame of a comprehension inside a frame with only a list, which has room for all slots of its
    /// function.
    #[tactic(auto, using(crate::proofs::Slots::inside_function))]
    fn inside_list(alloc: Global, slots: &'a Vec<Option<Value>>) -> Result<Frame<'a>, AllocError>
        ensures { IfOk result (λ f. slots_of f ≡ slots_of (slots.now.items, ([], []))) }
    {
        if slots.capacity() > MAX_COPIED {
            return Ok(Frame::over(alloc, Inner::of_function(alloc, slots)));
        }
        Ok(Frame {
            slots: copied(alloc, slots)?,
            inner: None,
        })
    }

    /// Makes the frame of a comprehension inside this one: what its clauses bind is bound in it alone.
    #[tactic(auto, using(crate::proofs::Slots::inside_comprehension))]
    pub fn inside(&self, alloc: Global) -> Result<Frame<'_>, AllocError>
        ensures { IfOk result (λ f. slots_of f ≡ slots_of self.now) }
    {
        match &self.inner {
            None => Frame::inside_list(alloc, &self.slots),
            Some(inner) => Ok(Frame::over(alloc, inner.inside(alloc)?)),
        }
    }

    /// Returns the value in a slot that isn't one of the list.
    #[inline(never)]
    fn layered(&self, slot: usize) -> Option<&Value>
        ensures { option_copied result ≡ layered self.now.1.0 self.now.1.1 slot }
    {
        match &self.inner {
            None => None,
            Some(inner) => inner.get(slot),
        }
    }

    /// Returns the value in a slot.
    #[tactic(auto, unfolding(crate::specs::Slots::slots_of))]
    #[inline(always)]
    pub fn get(&self, slot: usize) -> Option<&Value>
        ensures { option_copied result ≡ slots_of self.now slot }
    {
        match slot_in(&self.slots, slot) {
            None => self.layered(slot),
            Some(value) => Some(value),
        }
    }

    /// Puts a value into a slot.
    #[tactic(auto, using(crate::proofs::Slots::list_filled, crate::proofs::Slots::own_filled, crate::proofs::Slots::bound_filled))]
    #[inline(always)]
    pub fn fill(&mut self, slot: usize, value: Value) -> Result<(), AllocError>
        ensures { OnOk result (slots_of self.new ≡ fill (slots_of self.old) slot value) }
    {
        if slot < self.slots.len() {
            self.slots[slot] = Some(value);
            return Ok(());
        }
        match &mut self.inner {
            None => put(&mut self.slots, slot, value),
            Some(inner) => inner.bound.fill(slot, value),
        }
    }
}
