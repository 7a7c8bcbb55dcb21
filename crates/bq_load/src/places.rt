//! The places of names, where many are looked for.

ghost use Rattle.std.specs.Prelude.{◌≡◌, IfOk, Some, slice_get};
ghost use Rattle.std.specs.Option.{ForSome};
ghost use Rattle.bq_load.specs.Places.{place_in, HasPlaces};

use bq_base::Bytes;
use std::alloc::{AllocError, Global};
use std::collections::BTreeMap;

/// The place of each name; of two that are equal, the first's. It is a tree, and not a hash table, since strangers
/// choose the names.
pub(crate) type NamePlaces<'a> = BTreeMap<&'a [u8], usize>;

/// Returns the places of names.
#[tactic(auto, using(crate::proofs::ByName::none_after))]
pub(crate) fn places_by_name<'a>(
    alloc: Global,
    names: &'a [Bytes],
) -> Result<NamePlaces<'a>, AllocError>
    ensures { IfOk result (λ places. HasPlaces 0 names.now places) }
{
    let mut places = BTreeMap::new(alloc);
    for i in (0..names.len()).rev() {
        places.insert(names[i].as_slice(), i)?;
    }
    Ok(places)
}

/// Returns the place of a name.
pub(crate) fn place_of(places: &NamePlaces<'_>, name: &Bytes) -> Option<usize>
    ensures { result ≡ place_in places.now name.now }
{
    places.get(name.as_slice()).copied()
}

/// Returns the map at this place, if there is one.
pub(crate) fn places_at<'t, 'a>(
    all: &'t [Option<NamePlaces<'a>>],
    number: usize,
) -> Option<&'t NamePlaces<'a>>
    ensures { ForSome result (λ places. slice_get all.now number ≡ Some (Some places.now)) }
{
    match all.get(number) {
        None => None,
        Some(None) => None,
        Some(Some(places)) => Some(places),
    }
}
