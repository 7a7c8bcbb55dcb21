//! The shared byte string.

ghost use Rattle.std.specs.Prelude.{◌≡◌, ◌≤◌, ◌↔◌, ◌++◌, [], Some, length, take, IfOk, IfSome, IsTrue, nat_eq, refl};
ghost use Rattle.std.specs.Ordering.{nat_cmp};
ghost use Rattle.std.specs.Cmp.Lexicographic.{pointwise, slice_cmp, nat_list_eq_equiv, nat_list_cmp_total, texts_ties, texts_po};
ghost use Rattle.std.specs.Cmp.{partial_equiv_from_equiv};

use std::alloc::{AllocError, Global};
use std::cmp::Ordering;
use std::marker::Model;
use std::sync::Arc;

/// The most bytes that a short string has: as many as fit beside its length in the room that a shared one takes.
const SHORT: usize = 22;

/// A string that lies where it is named.
#[derive(Clone, Copy)]
struct Short {
    len: u8,
    bytes: [u8; SHORT],
    ghost within: { len ≤ 22 },
}

#[derive(Drop)]
enum Repr {
    Short(Short),
    Shared(Arc<Vec<u8>>),
}

/// A byte string with many owners. Contracts see the list of its bytes.
///
/// A share copies at most 22 bytes, and else counts one owner more, so that a name may stand in many trees, labels and
/// edges at once. Most names are short and take no memory of their own.
pub struct Bytes {
    repr: Repr,
}

impl Drop for Bytes {
    // PROOF: a drop that is written out is proved here alone, and a derived one in each crate that drops a byte string
    fn drop(self) {
        let Bytes { repr: _ } = self;
    }
}

impl Model for Bytes {
    ghost use Rattle.std.specs.Prelude.{List, ℕ};
    ghost use Rattle.std.specs.Coded.{coded_ℕ, coded_list};

    ghost Value = { List ℕ };

    ghost coded = { coded_list coded_ℕ };

    ghost use Rattle.bq_base.specs.Bytes.{bytes_of};

    ghost view = { λ b. bytes_of b.repr };
}

impl Short {
    /// These bytes, where they are few enough.
    fn of(bytes: &[u8]) -> Option<Short>
        ensures { IfSome result (λ short. take short.len short.bytes ≡ bytes.now) }
    {
        if bytes.len() > SHORT {
            return None;
        }
        let mut held = [0; SHORT];
        for (i, byte) in bytes.iter().enumerate() {
            held[i] = *byte;
        }
        Some(Short {
            len: bytes.len() as u8,
            bytes: held,
        })
    }

    /// These bytes after its own, where they are few enough together.
    fn with(&self, more: &[u8]) -> Option<Short>
        ensures { IfSome result (λ short. take short.len short.bytes ≡ take self.now.len self.now.bytes ++ more.now) }
    {
        let begun = self.len as usize;
        if more.len() > SHORT - begun {
            return None;
        }
        let mut held = self.bytes;
        for (i, byte) in more.iter().enumerate() {
            held[begun + i] = *byte;
        }
        Some(Short {
            len: (begun + more.len()) as u8,
            bytes: held,
        })
    }

    /// The bytes of both, one after the other, where they are few enough.
    fn of_both(first: &[u8], second: &[u8]) -> Option<Short>
        ensures { IfSome result (λ short. take short.len short.bytes ≡ first.now ++ second.now) }
    {
        let short = Short::of(first)?;
        short.with(second)
    }
}

impl Bytes {
    /// The empty string.
    pub fn empty() -> Bytes
        ensures { result ≡ [] }
    {
        Bytes {
            repr: Repr::Short(Short {
                len: 0,
                bytes: [0; SHORT],
            }),
        }
    }

    /// The bytes of a `Vec`. Where they are many they are not copied.
    pub fn from_vec(alloc: Global, bytes: Vec<u8>) -> Result<Bytes, AllocError>
        ensures { IfOk result (λ b. b ≡ bytes.items) }
    {
        let repr = match Short::of(&bytes) {
            Some(short) => Repr::Short(short),
            None => Repr::Shared(Arc::new(alloc, bytes)?),
        };
        Ok(Bytes { repr })
    }

    /// A copy of these bytes.
    pub fn from_slice(alloc: Global, bytes: &[u8]) -> Result<Bytes, AllocError>
        ensures { IfOk result (λ b. b ≡ bytes.now) }
    {
        let repr = match Short::of(bytes) {
            Some(short) => Repr::Short(short),
            None => Repr::Shared(Arc::new(alloc, bytes.to_vec(alloc)?)?),
        };
        Ok(Bytes { repr })
    }

    /// The bytes of both, one after the other. Where they are few no memory is asked for.
    pub fn joined(alloc: Global, first: &[u8], second: &[u8]) -> Result<Bytes, AllocError>
        ensures { IfOk result (λ b. b ≡ first.now ++ second.now) }
    {
        if let Some(short) = Short::of_both(first, second) {
            return Ok(Bytes {
                repr: Repr::Short(short),
            });
        }
        let mut bytes = Vec::with_capacity(alloc, first.len() + second.len())?;
        bytes.extend_from_slice(first)?;
        bytes.extend_from_slice(second)?;
        Ok(Bytes {
            repr: Repr::Shared(Arc::new(alloc, bytes)?),
        })
    }

    /// One owner more. It is refused where 2^63 owners are alive.
    pub fn share(&self) -> Result<Bytes, AllocError>
        ensures { IfOk result (λ b. b ≡ self.now) }
    {
        let repr = match &self.repr {
            Repr::Short(short) => Repr::Short(*short),
            Repr::Shared(shared) => Repr::Shared(shared.clone()?),
        };
        Ok(Bytes { repr })
    }

    /// The bytes.
    pub fn as_slice(&self) -> &[u8]
        ensures { result.now ≡ self.now }
    {
        match &self.repr {
            Repr::Short(short) => &short.bytes[..short.len as usize],
            Repr::Shared(shared) => shared.as_slice(),
        }
    }

    /// How many bytes.
    pub fn len(&self) -> usize
        ensures { result ≡ length self.now }
    {
        self.as_slice().len()
    }

    /// Whether there is no byte.
    pub fn is_empty(&self) -> bool
        ensures { IsTrue result ↔ (self.now ≡ []) }
    {
        self.as_slice().is_empty()
    }

    /// The bytes themselves where this is their only owner, else a copy of them.
    pub fn into_vec(self, alloc: Global) -> Result<Vec<u8>, AllocError>
        ensures { IfOk result (λ bytes. bytes.items ≡ self) }
    {
        let Bytes { repr } = self;
        match repr {
            Repr::Short(short) => short.bytes[..short.len as usize].to_vec(alloc),
            Repr::Shared(shared) => match Arc::try_unwrap(shared) {
                Ok(bytes) => Ok(bytes),
                Err(shared) => shared.as_slice().to_vec(alloc),
            },
        }
    }
}

impl PartialEq for Bytes {
    ghost eq = { pointwise nat_eq };

    ghost laws = { partial_equiv_from_equiv nat_list_eq_equiv };

    fn eq(&self, other: &Bytes) -> bool {
        self.as_slice() == other.as_slice()
    }
}

impl Eq for Bytes {
    ghost laws = { nat_list_eq_equiv };
}

/// By the first byte that differs, then the shorter one first.
impl PartialOrd for Bytes {
    ghost partial_cmp = { λ x y. Some (slice_cmp nat_cmp x y) };

    ghost laws = { texts_po };

    fn partial_cmp(&self, other: &Bytes) -> Option<Ordering> {
        Some(self.cmp(other))
    }
}

impl Ord for Bytes {
    ghost cmp = { slice_cmp nat_cmp };

    ghost total = { nat_list_cmp_total };

    ghost matches_partial_cmp = { λ x y. refl };

    ghost matches_eq = { texts_ties };

    fn cmp(&self, other: &Bytes) -> Ordering {
        self.as_slice().cmp(other.as_slice())
    }
}
