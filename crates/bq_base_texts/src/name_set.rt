//! Sets of names.

ghost use Rattle.std.specs.Prelude.{◌≡◌, [], not, length, take, position, slice_get, bytes_eq, true, Some, IfSome, IfNone, IfOk, OnOk};
ghost use Rattle.bq_base_texts.specs.NameSet.{has, with_name};
ghost use Rattle.bq_base_texts.specs.Places.{AreCandidates, ArePlaced, HasPlace, Lacks, colliding_place};

use crate::places::{Places, hash};
use bq_base::Bytes;
use std::alloc::{AllocError, Global};
use std::collections::BTreeMap;
use std::marker::Model;

/// Names, none of them twice, in the order in which they were added. Contracts see the list of them.
pub struct NameSet {
    names: Vec<Bytes>,
    /// They may have places of names that are no longer there.
    places: Places,
}

impl Drop for NameSet {
    // PROOF: a drop that is written out is proved here alone, and a derived one in each crate that drops a set of names
    fn drop(self) {
        let NameSet {
            names: _,
            places: _,
        } = self;
    }
}

impl Model for NameSet {
    ghost use Rattle.std.specs.Prelude.{List, ℕ};
    ghost use Rattle.std.specs.Coded.{coded_ℕ, coded_list};
    ghost use Rattle.bq_base_texts.specs.Places.{ArePlaced};

    ghost Value = { List (List ℕ) };

    ghost coded = { coded_list (coded_list coded_ℕ) };

    ghost view = { λ s. s.names.items };

    ghost invariant = { λ s. ArePlaced s.names.items s.places.by_hash s.places.colliding };
}

/// Returns the place where the name is there.
#[tactic(auto, using(crate::proofs::NameLookups::no_place, crate::proofs::NameLookups::past, crate::proofs::NameLookups::other_there, crate::proofs::NameLookups::same_there))]
fn checked(names: &[Bytes], place: Option<usize>, name: &[u8]) -> Option<usize>
    ensures there { IfSome result (λ i. (place ≡ Some i) × (slice_get names.now i ≡ Some name.now)) }
    ensures nowhere { IfNone result (Lacks names.now place name.now) }
{
    let place = place?;
    if names.get(place)?.as_slice() != name {
        return None;
    }
    Some(place)
}

/// Returns the place of a name, of which that of the first name of its hash is known.
#[tactic(auto, using(crate::proofs::NameLookups::at_place, crate::proofs::NameLookups::late_place))]
fn place_by(names: &[Bytes], places: &Places, first: Option<usize>, name: &[u8]) -> Option<usize>
    requires { AreCandidates names.now name.now first (colliding_place places.now.colliding name.now) }
    ensures { result ≡ position (bytes_eq name.now) names.now }
{
    if let Some(place) = checked(names, first, name) {
        return Some(place);
    }
    let late = places.colliding.get(name).copied();
    checked(names, late, name)
}

/// Returns whether a name is there, where the place of the first name of its hash is known.
#[tactic(auto, using(crate::proofs::NameLookups::has_place))]
fn is_there(names: &[Bytes], places: &Places, first: Option<usize>, name: &[u8]) -> bool
    requires { AreCandidates names.now name.now first (colliding_place places.now.colliding name.now) }
    ensures { result ≡ has names.now name.now }
{
    place_by(names, places, first, name).is_some()
}

/// Puts the place after these names for a name; false if it is one of them.
fn claim(
    alloc: Global,
    names: &[Bytes],
    places: &mut Places,
    name: &[u8],
) -> Result<bool, AllocError>
    requires { ArePlaced names.now places.old.by_hash places.old.colliding }
    ensures added { IfOk result (λ added. added ≡ not (has names.now name.now)) }
    ensures placed { IfOk result (λ added. added ≡ true → HasPlace places.new.by_hash places.new.colliding name.now (length names.now)) }
    ensures kept { ArePlaced names.now places.new.by_hash places.new.colliding }
{
    let first = places.put_first(name, names.len())?;
    if is_there(names, &*places, first, name) {
        return Ok(false);
    }
    if first.is_none() {
        return Ok(true);
    }
    places.put_colliding(alloc, name, names.len())?;
    Ok(true)
}

impl NameSet {
    #[tactic(auto, using(crate::proofs::NameLookups::nothing_placed))]
    pub fn new(alloc: Global) -> NameSet
        ensures { result ≡ [] }
    {
        NameSet {
            names: Vec::new(alloc),
            places: Places {
                by_hash: BTreeMap::new(alloc),
                colliding: BTreeMap::new(alloc),
            },
        }
    }

    /// Returns how many names there are.
    pub fn len(&self) -> usize
        ensures { result ≡ length self.now }
    {
        self.names.len()
    }

    /// Returns the names, in this order.
    pub fn as_slice(&self) -> &[Bytes]
        ensures { result.now ≡ self.now }
    {
        self.names.as_slice()
    }

    /// Returns the place of a name.
    #[tactic(auto, using(crate::proofs::NameLookups::none_of_none, crate::proofs::NameLookups::candidates))]
    pub fn place(&self, name: &[u8]) -> Option<usize>
        ensures { result ≡ position (bytes_eq name.now) self.now }
    {
        // Most files bind no names of their own: there is nothing to hash for.
        if self.names.is_empty() {
            return None;
        }
        let first = self.places.by_hash.get(&hash(name)).copied();
        place_by(self.names.as_slice(), &self.places, first, name)
    }

    /// Appends a name; true if it is new.
    #[tactic(auto, using(crate::proofs::NameLookups::one_more))]
    pub fn add(&mut self, name: &Bytes) -> Result<bool, AllocError>
        ensures added { IfOk result (λ added. added ≡ not (has self.old name.now)) }
        ensures after { OnOk result (self.new ≡ with_name self.old name.now) }
    {
        let alloc = *self.names.allocator();
        let names = self.names.as_slice();
        if !claim(alloc, names, &mut self.places, name.as_slice())? {
            return Ok(false);
        }
        self.names.push(name.share()?)?;
        Ok(true)
    }

    /// Keeps the first `len` names.
    #[tactic(auto, using(crate::proofs::NameLookups::fewer))]
    pub fn truncate(&mut self, len: usize)
        ensures { self.new ≡ take len self.old }
    {
        self.names.truncate(len);
    }
}
