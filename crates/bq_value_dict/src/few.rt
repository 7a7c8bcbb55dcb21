//! The pairs of a dict that has few of them.

ghost use Rattle.std.specs.Prelude.{◌≡◌, [], length, option_copied, drop, ◌∷◌, ◌+◌, ◌<◌, ◌≤◌, OnOk, OnErr, IfOk};
ghost use Rattle.std.specs.Map.Iter.{deref_pair};
ghost use Rattle.bq_value_dict.specs.Pairs.{found, put, without, HasNoKeyTwice};
ghost use Rattle.bq_value_dict.specs.Places.{rank};

use bq_value_datum::{Key, Value};
use std::alloc::{AllocError, Global};
use std::marker::Model;
use std::mem;

/// Pairs with distinct keys, in order: so few that a key is looked for among all. Contracts see the list of the pairs.
#[derive(Drop)]
pub(crate) struct Few {
    pairs: Vec<(Key, Value)>,
}

impl Model for Few {
    ghost use Rattle.std.specs.Prelude.{List};
    ghost use Rattle.bq_value_datum.specs.Datum.{Datum};
    ghost use Rattle.bq_value_dict.specs.Pairs.{coded_pairs, HasNoKeyTwice};

    ghost Value = { List (Datum × Datum) };

    ghost coded = { coded_pairs };

    ghost view = { λ f. f.pairs.items };

    ghost invariant = { λ f. HasNoKeyTwice f.pairs.items };
}

/// Returns the index of the pair of `key`, or their number if there is none.
fn index_of(pairs: &[(Key, Value)], key: &Key) -> usize
    ensures { result ≡ rank key.now pairs.now }
{
    let mut at = 0;
    while at < pairs.len() {
        if *key == pairs[at].0 {
            return at;
        }
        at += 1;
    }
    at
}

impl Few {
    pub(crate) fn new(alloc: Global) -> Few
        ensures { result ≡ [] }
    {
        Few {
            pairs: Vec::new(alloc),
        }
    }

    /// States, for proofs, that no key is there twice.
    pub(crate) fn has_no_key_twice(&self)
        ensures { HasNoKeyTwice self.now }
    {
        let _len = self.pairs.len(); // PROOF: what is in the list is told
    }

    /// Returns the number of pairs.
    pub(crate) fn len(&self) -> usize
        ensures { result ≡ length self.now }
    {
        self.pairs.len()
    }

    /// Returns the value of `key`.
    pub(crate) fn get(&self, key: &Key) -> Option<&Value>
        ensures { option_copied result ≡ found key.now self.now }
    {
        let at = index_of(&self.pairs, key);
        if at < self.pairs.len() {
            return Some(&self.pairs[at].1);
        }
        None
    }

    /// Returns the pair at `index`, in the order.
    pub(crate) fn pair(&self, index: usize) -> (&Key, &Value)
        requires { index < length self.now }
        ensures { drop index self.now ≡ deref_pair result ∷ drop (index + 1) self.now }
    {
        let (key, value) = &self.pairs[index];
        (key, value)
    }

    /// Sets the value of `key`, and returns its value before. A new key goes last.
    pub(crate) fn insert(&mut self, key: Key, value: Value) -> Result<Option<Value>, AllocError>
        ensures before { IfOk result (λ before. before ≡ found key self.old) }
        ensures after { OnOk result (self.new ≡ put key value self.old) }
        ensures err { OnErr result (self.new ≡ self.old) }
    {
        let at = index_of(&self.pairs, &key);
        if at < self.pairs.len() {
            return Ok(Some(mem::replace(&mut self.pairs[at].1, value)));
        }
        self.pairs.push((key, value))?;
        Ok(None)
    }

    /// Removes `key`, and returns its value. The other pairs keep their order.
    pub(crate) fn remove(&mut self, key: &Key) -> Option<Value>
        ensures before { result ≡ found key.now self.old }
        ensures after { self.new ≡ without key.now self.old }
    {
        let at = index_of(&self.pairs, key);
        if at < self.pairs.len() {
            let (_key, value) = self.pairs.remove(at);
            return Some(value);
        }
        None
    }

    /// Removes all pairs.
    pub(crate) fn clear(&mut self)
        ensures { self.new ≡ [] }
    {
        self.pairs.clear();
    }
}
