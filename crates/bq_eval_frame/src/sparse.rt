//! Slots of which few are filled: those that the clauses of a comprehension bind.

ghost use Rattle.std.specs.Prelude.{◌≡◌, [], IfOk, IfErr, OnOk, option_copied};
ghost use Rattle.bq_eval_frame.specs.Sparse.{found, IsAt, IsGapFor, Binds};

use bq_value::Value;
use std::alloc::{AllocError, Global};
use std::marker::Model;

/// Values by slot, in the order of the slots. Contracts see the pairs.
#[derive(Drop)]
pub struct SparseSlots {
    pairs: Vec<(usize, Value)>,
}

impl Model for SparseSlots {
    ghost use Rattle.std.specs.Prelude.{ℕ, List};
    ghost use Rattle.std.specs.Coded.{coded_list, coded×, coded_ℕ};
    ghost use Rattle.bq_value.specs.Datum.{Datum};
    ghost use Rattle.bq_value.specs.Codes.{coded_datum};
    ghost use Rattle.bq_eval_frame.specs.Sparse.{IsStrictlySorted};

    ghost Value = { List (ℕ × Datum) };

    ghost coded = { coded_list (coded× coded_ℕ coded_datum) };

    ghost view = { λ s. s.pairs.items };

    ghost invariant = { λ s. IsStrictlySorted s.pairs.items };
}

impl SparseSlots {
    /// Makes slots that are all empty.
    pub fn new(alloc: Global) -> SparseSlots
        ensures { result ≡ [] }
    {
        SparseSlots {
            pairs: Vec::new(alloc),
        }
    }

    /// Returns the index of the slot, or the one at which to insert it.
    fn place(&self, slot: usize) -> Result<usize, usize>
        ensures found { IfOk result (IsAt self.now slot) }
        ensures absent { IfErr result (IsGapFor self.now slot) }
    {
        self.pairs.binary_search_by_key(&slot, |pair| pair.0)
    }

    /// Returns the value in a slot.
    pub fn get(&self, slot: usize) -> Option<&Value>
        ensures { option_copied result ≡ found self.now slot }
    {
        match self.place(slot) {
            Ok(at) => Some(&self.pairs[at].1),
            Err(_) => None,
        }
    }

    /// Puts a value into a slot.
    pub fn fill(&mut self, slot: usize, value: Value) -> Result<(), AllocError>
        ensures { OnOk result (Binds self.old self.new slot value) }
    {
        match self.place(slot) {
            Ok(at) => {
                self.pairs[at] = (slot, value);
                Ok(())
            }
            Err(at) => Ok(self.pairs.insert(at, (slot, value))?),
        }
    }
}
