//! The places of names.

ghost use Rattle.std.specs.Prelude.{◌≡◌, ◌≢◌, List, ℕ, None, IfOk, OnOk};
ghost use Rattle.bq_base_texts.specs.Places.{first_place, hash_of, HasPlace};

use std::alloc::{AllocError, Global};
use std::collections::BTreeMap;
use std::collections::btree_map::Entry;
use std::hash::{FoldHasher, Hasher};

/// For each name that was put the places that it may have, of which one was put with it.
#[derive(Drop)]
pub struct Places {
    /// The place of the first name of each hash.
    pub by_hash: BTreeMap<u64, usize>,
    /// The places of all other names: the few whose hashes collide, unless a stranger searched for such names.
    pub colliding: BTreeMap<Vec<u8>, usize>,
}

pub fn hash(name: &[u8]) -> u64
    ensures { result ≡ hash_of name.now }
{
    let mut hasher = FoldHasher::default();
    hasher.write(name);
    hasher.finish()
}

impl Places {
    /// Puts a place for the hash of a name, if that has none, and returns the one that it had. All names keep theirs.
    #[tactic(auto, using(crate::proofs::PlacePut::first_put, crate::proofs::PlacePut::others_first, crate::proofs::PlacePut::first_refused))]
    pub fn put_first(&mut self, name: &[u8], place: usize) -> Result<Option<usize>, AllocError>
        ensures first { IfOk result (λ first. first ≡ first_place self.old.by_hash name.now) }
        ensures put { IfOk result (λ first. first ≡ None → HasPlace self.new.by_hash self.new.colliding name.now place) }
        ensures all { (other : List ℕ) (i : ℕ) → HasPlace self.old.by_hash self.old.colliding other i → HasPlace self.new.by_hash self.new.colliding other i }
        ensures colliding { self.new.colliding ≡ self.old.colliding }
    {
        match self.by_hash.entry(hash(name))? {
            Entry::Vacant(entry) => {
                entry.insert(place);
                Ok(None)
            }
            Entry::Occupied(entry) => Ok(Some(*entry.get())),
        }
    }

    /// Puts the place of a name whose hash another name had first. Other names keep theirs, even where memory runs out.
    #[tactic(auto, using(crate::proofs::PlacePut::colliding_put, crate::proofs::PlacePut::others_colliding, crate::proofs::PlacePut::colliding_refused))]
    pub fn put_colliding(
        &mut self,
        alloc: Global,
        name: &[u8],
        place: usize,
    ) -> Result<(), AllocError>
        ensures put { OnOk result (HasPlace self.new.by_hash self.new.colliding name.now place) }
        ensures others { (other : List ℕ) (i : ℕ) → other ≢ name.now → HasPlace self.old.by_hash self.old.colliding other i → HasPlace self.new.by_hash self.new.colliding other i }
    {
        let key = name.to_vec(alloc)?;
        self.colliding.insert(key, place)?;
        Ok(())
    }
}
