//! The pairs of a dict, however many.

ghost use Rattle.std.specs.Prelude.{◌≡◌, [], length, option_copied, drop, ◌∷◌, ◌+◌, ◌<◌, IfOk, OnOk, OnErr};
ghost use Rattle.std.specs.Map.Iter.{deref_pair};
ghost use Rattle.bq_value_dict.specs.Pairs.{found, put, without, HasNoKeyTwice};

use crate::places::{free_key, leave_empty, place_of};
use bq_value_datum::{Key, Seed, Value};
use indexmap::IndexMap;
use std::alloc::{AllocError, Global};
use std::marker::Model;
use std::mem;

/// Pairs with distinct keys, in the order in which the keys were inserted. Contracts see the list of the pairs.
///
/// Removing a pair moves no other: its place is left empty, with its key and without its value, until so many are empty
/// that taking them out costs little for each. Where the key of an empty place is inserted again, it goes last, and a
/// key that the dict doesn't have takes the empty place.
#[derive(Drop)]
pub(crate) struct Many {
    entries: IndexMap<Key, Option<Value>, Seed>,
    /// The indices of the empty places, in order.
    empty: Vec<usize>,
    /// The integer that is tried next as a key that the dict doesn't have.
    next: i64,
}

impl Model for Many {
    ghost use Rattle.std.specs.Prelude.{◌≡◌, List};
    ghost use Rattle.bq_value_datum.specs.Datum.{Datum};
    ghost use Rattle.bq_value_dict.specs.Pairs.{coded_pairs};
    ghost use Rattle.bq_value_dict.specs.Places.{live, empty_from};

    ghost Value = { List (Datum × Datum) };

    ghost coded = { coded_pairs };

    ghost view = { λ d. live d.entries.entries };

    ghost invariant = { λ d. d.empty.items ≡ empty_from 0 d.entries.entries };
}

impl Many {
    /// Returns no pairs, which hashes its keys by `seed`.
    pub(crate) fn new(alloc: Global, seed: Seed) -> Many
        ensures { result ≡ [] }
    {
        Many {
            entries: IndexMap::with_hasher(alloc, seed),
            empty: Vec::new(alloc),
            next: i64::MIN,
        }
    }

    /// States, for proofs, that no key is there twice.
    pub(crate) fn has_no_key_twice(&self)
        ensures { HasNoKeyTwice self.now }
    {
        let _len = self.entries.len(); // PROOF: the map says so
    }

    /// Returns the number of pairs.
    pub(crate) fn len(&self) -> usize
        ensures { result ≡ length self.now }
    {
        self.entries.len() - self.empty.len()
    }

    /// Returns the value of `key`.
    pub(crate) fn get(&self, key: &Key) -> Option<&Value>
        ensures { option_copied result ≡ found key.now self.now }
    {
        let _len = self.entries.len(); // PROOF: no key is there twice
        match self.entries.get(key) {
            None => None,
            Some(place) => place.as_ref(),
        }
    }

    /// Returns the pair at `index`, in the order.
    pub(crate) fn pair(&self, index: usize) -> (&Key, &Value)
        requires { index < length self.now }
        ensures { drop index self.now ≡ deref_pair result ∷ drop (index + 1) self.now }
    {
        let _len = self.entries.len(); // PROOF: the sum fits
        let (key, value) = self
            .entries
            .get_index(place_of(&self.empty, index))
            .unwrap();
        (key, value.as_ref().unwrap())
    }

    /// Sets the value of `key`, and returns its value before. A new key goes last.
    pub(crate) fn insert(&mut self, key: Key, value: Value) -> Result<Option<Value>, AllocError>
        ensures before { IfOk result (λ before. before ≡ found key self.old) }
        ensures after { OnOk result (self.new ≡ put key value self.old) }
        ensures err { OnErr result (self.new ≡ self.old) }
    {
        free_key(&mut self.entries, &mut self.empty, &mut self.next, &key)?;
        Ok(self.entries.insert(key, Some(value))?.flatten())
    }

    /// Removes `key`, and returns its value. The other pairs keep their order.
    pub(crate) fn remove(&mut self, key: &Key) -> Option<Value>
        ensures before { result ≡ found key.now self.old }
        ensures after { self.new ≡ without key.now self.old }
    {
        let index = self.entries.get_index_of(key)?;
        if self.entries[index].is_none() {
            return None;
        }
        let value = mem::replace(&mut self.entries[index], None);
        leave_empty(&mut self.entries, &mut self.empty, index);
        value
    }

    /// Removes all pairs.
    pub(crate) fn clear(&mut self)
        ensures { self.new ≡ [] }
    {
        self.entries.clear();
        self.empty.clear();
    }
}
