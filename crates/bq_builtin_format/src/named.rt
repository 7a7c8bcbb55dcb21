//! Named values, of which fields name some (Starlark, "string·format").

ghost use Rattle.std.specs.Prelude.{◌≡◌, option_copied, IfOk};
ghost use Rattle.bq_builtin_format.specs.Argument.{named_value, BeginWith};

use bq_base::Bytes;
use bq_base_texts::NameSet;
use bq_value::Value;
use std::alloc::{AllocError, Global};
use std::marker::Model;

/// Up to so many names are looked at one after another.
const MAX_WALKED: usize = 10;

/// A format of so many bytes at most has so few fields that places of names don't pay.
const MAX_SHORT: usize = 100;

/// Values, each with its name. Contracts see the list of them.
#[derive(Drop)]
pub struct Named<'v> {
    pairs: &'v [(Bytes, Value)],
    /// The names of the first pairs, of which none comes twice.
    places: NameSet,
}

impl<'v> Model for Named<'v> {
    ghost use Rattle.std.specs.Prelude.{List, ℕ};
    ghost use Rattle.std.specs.Coded.{coded_list, coded×, coded_ℕ};
    ghost use Rattle.bq_value.specs.Datum.{Datum};
    ghost use Rattle.bq_value.specs.Codes.{coded_datum};
    ghost use Rattle.bq_builtin_format.specs.Argument.{BeginWith};

    ghost Value = { List (List ℕ × Datum) };

    ghost coded = { coded_list (coded× (coded_list coded_ℕ) coded_datum) };

    ghost view = { λ n. n.pairs.now };

    ghost invariant = { λ n. BeginWith n.pairs.now n.places };
}

/// Returns the value of the first pair of this name.
fn first_value<'v>(pairs: &'v [(Bytes, Value)], name: &[u8]) -> Option<&'v Value>
    ensures { option_copied result ≡ named_value name.now pairs.now }
{
    for (key, value) in pairs {
        if key.as_slice() == name {
            return Some(value);
        }
    }
    None
}

/// Returns the set of the names up to the first that comes a second time.
#[tactic(auto, using(crate::proofs::Places::still_begin))]
fn placed(alloc: Global, pairs: &[(Bytes, Value)]) -> Result<NameSet, AllocError>
    ensures { IfOk result (λ places. BeginWith pairs.now places) }
{
    let mut places = NameSet::new(alloc);
    for (name, _) in pairs {
        if !places.add(name)? {
            return Ok(places);
        }
    }
    Ok(places)
}

impl<'v> Named<'v> {
    /// Takes named values for a format of this length. Of many names the places are kept.
    #[tactic(auto, using(crate::proofs::Places::none_begin))]
    pub fn of(
        alloc: Global,
        pairs: &'v [(Bytes, Value)],
        len: usize,
    ) -> Result<Named<'v>, AllocError>
        ensures { IfOk result (λ named. named ≡ pairs.now) }
    {
        if pairs.len() <= MAX_WALKED || len <= MAX_SHORT {
            let places = NameSet::new(alloc);
            return Ok(Named { pairs, places });
        }
        let places = placed(alloc, pairs)?;
        Ok(Named { pairs, places })
    }

    /// Returns the value of a name.
    pub fn value(&self, name: &[u8]) -> Option<&'v Value>
        ensures { option_copied result ≡ named_value name.now self.now }
    {
        match self.places.place(name) {
            Some(place) => Some(&self.pairs.get(place)?.1),
            None => first_value(self.pairs.get(self.places.len()..)?, name),
        }
    }
}
