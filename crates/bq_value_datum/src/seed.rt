//! What each hasher of a run begins with.

ghost use Rattle.bq_value_datum.specs.Folding.{begun};

use crate::hasher::KeyHasher;
use std::hash::BuildHasher;
use std::random::RandomSource;

/// What each hasher of a run begins with.
#[derive(Clone, Copy)]
pub struct Seed {
    begun: KeyHasher,
}

impl Seed {
    /// Returns the seed that everybody knows, for keys that nobody chooses.
    pub fn fixed() -> Seed {
        Seed {
            begun: KeyHasher {
                state: 0x243f_6a88_85a3_08d3,
                multiplier: 0x9e37_79b9_7f4a_7c15,
            },
        }
    }

    /// Draws a random seed, which nobody can know before the run; where the system gives no random bytes, the fixed
    /// one.
    pub fn draw(source: &impl RandomSource) -> Seed {
        let mut bytes = [0; 16];
        if source.fill_bytes(&mut bytes).is_err() {
            return Seed::fixed();
        }
        let drawn = u128::from_le_bytes(bytes);
        Seed {
            begun: KeyHasher {
                state: (drawn & 0xFFFF_FFFF_FFFF_FFFF) as u64,
                multiplier: (drawn >> 64) as u64,
            },
        }
    }
}

impl BuildHasher for Seed {
    type Hasher = KeyHasher;

    ghost build_hasher = { begun };

    fn build_hasher(&self) -> KeyHasher {
        self.begun
    }
}
