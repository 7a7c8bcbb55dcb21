//! A hasher of keys, by a multiplier that nobody knows.

ghost use Rattle.bq_value_datum.specs.Folding as folding;

use crate::folding::{folded_multiply, read_short, read_u64};
use std::hash::Hasher;

/// What has been written so far, and what the next words are multiplied by.
///
/// It is the kit's `FoldHasher` but for the multiplier, which is fixed there: whoever knows it can choose a word that
/// makes every product zero, whatever the state was.
#[derive(Clone, Copy)]
pub struct KeyHasher {
    pub(crate) state: u64,
    pub(crate) multiplier: u64,
}

impl Hasher for KeyHasher {
    ghost write = { folding.write };

    ghost finish = { folding.finish };

    fn finish(&self) -> u64 {
        self.state
    }

    fn write(&mut self, bytes: &[u8]) {
        let len = bytes.len();
        if len <= 8 {
            self.state = folded_multiply(
                self.state ^ read_short(bytes),
                self.multiplier ^ (2 * len as u64),
            );
            return;
        }
        let multiplier = self.multiplier;
        let mut state = self.state.wrapping_add(len as u64);
        let mut at = 0;
        while len - at > 16 {
            state = folded_multiply(
                read_u64(bytes, at) ^ state,
                read_u64(bytes, at + 8) ^ multiplier,
            );
            at += 16;
        }
        self.state = folded_multiply(
            read_u64(bytes, len.saturating_sub(16)) ^ state,
            read_u64(bytes, len - 8) ^ multiplier,
        );
    }
}
