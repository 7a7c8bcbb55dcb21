//! A value that can be taken out of what is shared.

ghost use Rattle.std.specs.Prelude.{◌≡◌, IfSome};

use counted_slot::{Counted, FREE, Fits, TAKEN};
use std::marker::Model;

/// What a slot holds: nothing but the value that it was made with.
#[derive(Drop)]
struct Kept<T> {
    value: T,
}

impl<T> Fits for Kept<T> {
    type Tag = T;

    ghost fits = { λ tag k. k.value ≡ tag };
}

/// A value that many may share, and that one of them may take out, to use it alone and to drop it. Contracts see the value that it was
/// made with, whether it is there or not. No call waits.
#[derive(Drop)]
pub struct Takeable<T> {
    slot: Counted<Option<Kept<T>>>,
}

impl<T> Model for Takeable<T> {
    ghost Value = { T };

    ghost coded = { T.code };

    ghost view = { λ t. t.slot };
}

impl<T: Drop> Takeable<T> {
    /// Holds the value.
    pub fn of(value: T) -> Takeable<T>
        ensures { result ≡ value }
    {
        let slot: Counted<Option<Kept<T>>> = Counted::new(None, &value);
        let (found, claim) = slot.turn(FREE, TAKEN);
        if found == FREE {
            drop(claim.put(Some(Kept { value }), FREE));
        } else {
            claim.done();
        }
        Takeable { slot }
    }

    /// Takes the value out. There is none if it was taken before, or while another thread takes it.
    pub fn take(&self) -> Option<T>
        ensures { IfSome result (λ value. value ≡ self.now) }
    {
        let (found, claim) = self.slot.turn(FREE, TAKEN);
        if found != FREE {
            claim.done();
            return None;
        }
        match claim.put(None, FREE) {
            None => None,
            Some(Kept { value }) => Some(value),
        }
    }

    /// Puts the value back, for others to take.
    pub fn put_back(&self, value: T)
        requires { value ≡ self.now }
    {
        let (found, claim) = self.slot.turn(FREE, TAKEN);
        if found != FREE {
            claim.done();
            return;
        }
        drop(claim.put(Some(Kept { value }), FREE));
    }
}
