//! Keys of dicts (Starlark, "Hashing").

ghost use Rattle.std.specs.Prelude.{◌≡◌, IfOk};
ghost use Rattle.std.specs.Cmp.{partial_equiv_from_equiv};
ghost use Rattle.bq_value_datum.specs.Same.{same, feed};
ghost use Rattle.bq_value_datum.specs.SameLaws.{same_equivalence, same_feed};
ghost use Rattle.bq_value_datum.specs.Key.{IsKey};

use crate::same::{feed_value, is_same};
use crate::value::Value;
use std::alloc::AllocError;
use std::hash::{Hash, Hasher};
use std::marker::Model;

/// A value that may be a key of a dict. Contracts see the value.
pub struct Key {
    value: Value,
}

impl Drop for Key {
    // PROOF: a drop that is written out is proved here alone, and a derived one in each crate that drops a key
    fn drop(self) {
        let Key { value: _ } = self;
    }
}

impl Model for Key {
    ghost use Rattle.bq_value_datum.specs.Datum.{Datum};
    ghost use Rattle.bq_value_datum.specs.Codes.{coded_datum};

    ghost Value = { Datum };

    ghost coded = { coded_datum };

    ghost view = { λ k. k.value };

    ghost use Rattle.bq_value_datum.specs.Key.{IsKey};

    ghost invariant = { λ k. IsKey k.value };
}

impl Key {
    /// Makes a key of a value that may be one.
    pub fn new(value: Value) -> Key
        requires { IsKey value }
        ensures { result ≡ value }
    {
        Key { value }
    }

    /// Returns the value of the key.
    pub fn value(&self) -> &Value
        ensures same { result.now ≡ self.now }
        ensures key { IsKey self.now }
    {
        &self.value
    }

    /// Returns another owner of the key. Fails where 2^63 owners are alive.
    pub fn share(&self) -> Result<Key, AllocError>
        ensures { IfOk result (λ k. k ≡ self.now) }
    {
        let value = self.value.share()?;
        Ok(Key { value })
    }
}

impl PartialEq for Key {
    ghost eq = { same };

    ghost laws = { partial_equiv_from_equiv same_equivalence };

    fn eq(&self, other: &Key) -> bool {
        is_same(&self.value, &other.value)
    }
}

impl Eq for Key {
    ghost laws = { same_equivalence };
}

impl Hash for Key {
    ghost hash_input = { feed };

    ghost respects_eq = { same_feed };

    fn hash<H: Hasher>(&self, state: &mut H) {
        feed_value(&self.value, state);
    }
}
