//! Dicts (Starlark, "Dictionaries").

ghost use Rattle.std.specs.Prelude.{◌≡◌, [], length, option_copied, drop, ◌∷◌, ◌+◌, ◌<◌, IfOk, OnOk, OnErr};
ghost use Rattle.std.specs.Map.Iter.{deref_pair};
ghost use Rattle.bq_value_dict.specs.Pairs.{found, put, without, HasNoKeyTwice};
ghost use Rattle.bq_value_dict.specs.DictOf.{pairs_of};

use crate::few::Few;
use crate::many::Many;
use bq_value_datum::{Key, Seed, Value};
use std::alloc::{AllocError, Global};
use std::marker::Model;

/// A dict of no more pairs than this has no table: its keys are compared one by one.
const FEW: usize = 8;

/// Pairs with distinct keys, in the order in which the keys were inserted. Contracts see the list of the pairs.
pub struct Dict {
    pairs: Pairs,
    alloc: Global,
    /// By this the keys are hashed once there are many.
    seed: Seed,
}

#[derive(Drop)]
enum Pairs {
    Few(Few),
    /// In a box, so that moving a dict moves few bytes.
    Many(Box<Many>),
}

impl Drop for Dict {
    // PROOF: a drop that is written out is proved here alone, and a derived one in each crate that drops a dict
    fn drop(self) {
        let Dict {
            pairs: _,
            alloc: _,
            seed: _,
        } = self;
    }
}

impl Model for Dict {
    ghost use Rattle.std.specs.Prelude.{List};
    ghost use Rattle.bq_value_datum.specs.Datum.{Datum};
    ghost use Rattle.bq_value_dict.specs.Pairs.{coded_pairs};
    ghost use Rattle.bq_value_dict.specs.DictOf.{pairs_of};

    ghost Value = { List (Datum × Datum) };

    ghost coded = { coded_pairs };

    ghost view = { λ d. pairs_of d.pairs };
}

impl Pairs {
    /// Sets the value of `key`, and returns its value before. A new key goes last.
    fn insert(&mut self, key: Key, value: Value) -> Result<Option<Value>, AllocError>
        ensures before { IfOk result (λ before. before ≡ found key (pairs_of self.old)) }
        ensures after { OnOk result (pairs_of self.new ≡ put key value (pairs_of self.old)) }
        ensures err { OnErr result (pairs_of self.new ≡ pairs_of self.old) }
    {
        match self {
            Pairs::Few(few) => few.insert(key, value),
            Pairs::Many(many) => many.insert(key, value),
        }
    }

    /// Removes `key`, and returns its value. The other pairs keep their order.
    fn remove(&mut self, key: &Key) -> Option<Value>
        ensures before { result ≡ found key.now (pairs_of self.old) }
        ensures after { pairs_of self.new ≡ without key.now (pairs_of self.old) }
    {
        match self {
            Pairs::Few(few) => few.remove(key),
            Pairs::Many(many) => many.remove(key),
        }
    }
}

/// Returns the same pairs, as many.
#[inline(never)]
fn many_of(alloc: Global, seed: Seed, few: &Few) -> Result<Many, AllocError>
    ensures { IfOk result (λ many. many ≡ few.now) }
{
    few.has_no_key_twice();
    let mut many = Many::new(alloc, seed);
    for i in 0..few.len() {
        let (key, value) = few.pair(i);
        many.insert(key.share()?, value.share()?)?;
    }
    Ok(many)
}

impl Dict {
    /// Returns `{}`, which hashes its keys by `seed`.
    pub fn new(alloc: Global, seed: Seed) -> Dict
        ensures { result ≡ [] }
    {
        Dict {
            pairs: Pairs::Few(Few::new(alloc)),
            alloc,
            seed,
        }
    }

    /// States, for proofs, that no key is there twice.
    pub fn has_no_key_twice(&self)
        ensures { HasNoKeyTwice self.now }
    {
        match &self.pairs {
            Pairs::Few(few) => few.has_no_key_twice(),
            Pairs::Many(many) => many.has_no_key_twice(),
        }
    }

    /// Returns the number of pairs.
    pub fn len(&self) -> usize
        ensures { result ≡ length self.now }
    {
        match &self.pairs {
            Pairs::Few(few) => few.len(),
            Pairs::Many(many) => many.len(),
        }
    }

    /// Returns the value of `key`.
    pub fn get(&self, key: &Key) -> Option<&Value>
        ensures { option_copied result ≡ found key.now self.now }
    {
        match &self.pairs {
            Pairs::Few(few) => few.get(key),
            Pairs::Many(many) => many.get(key),
        }
    }

    /// Returns the pair at `index`, in the order.
    pub fn pair(&self, index: usize) -> (&Key, &Value)
        requires { index < length self.now }
        ensures { drop index self.now ≡ deref_pair result ∷ drop (index + 1) self.now }
    {
        match &self.pairs {
            Pairs::Few(few) => few.pair(index),
            Pairs::Many(many) => many.pair(index),
        }
    }

    /// Puts the pairs into a table if they are no longer few.
    fn make_room(&mut self) -> Result<(), AllocError>
        ensures { self.new ≡ self.old }
    {
        let many = match &self.pairs {
            Pairs::Many(_) => return Ok(()),
            Pairs::Few(few) => {
                if few.len() < FEW {
                    return Ok(());
                }
                many_of(self.alloc, self.seed, few)?
            }
        };
        self.pairs = Pairs::Many(Box::new(self.alloc, many)?);
        Ok(())
    }

    /// Sets the value of `key`, and returns its value before. A new key goes last.
    pub fn insert(&mut self, key: Key, value: Value) -> Result<Option<Value>, AllocError>
        ensures before { IfOk result (λ before. before ≡ found key self.old) }
        ensures after { OnOk result (self.new ≡ put key value self.old) }
        ensures err { OnErr result (self.new ≡ self.old) }
    {
        self.make_room()?;
        self.pairs.insert(key, value)
    }

    /// Removes `key`, and returns its value. The other pairs keep their order.
    pub fn remove(&mut self, key: &Key) -> Option<Value>
        ensures before { result ≡ found key.now self.old }
        ensures after { self.new ≡ without key.now self.old }
    {
        self.pairs.remove(key)
    }

    /// Returns a dict of the same pairs.
    pub fn copy(&self) -> Result<Dict, AllocError>
        ensures { IfOk result (λ copy. copy ≡ self.now) }
    {
        self.has_no_key_twice();
        let mut copy = Dict::new(self.alloc, self.seed);
        for i in 0..self.len() {
            let (key, value) = self.pair(i);
            copy.insert(key.share()?, value.share()?)?;
        }
        Ok(copy)
    }

    /// Removes all pairs.
    pub fn clear(&mut self)
        ensures { self.new ≡ [] }
    {
        match &mut self.pairs {
            Pairs::Few(few) => few.clear(),
            Pairs::Many(many) => many.clear(),
        }
    }
}
