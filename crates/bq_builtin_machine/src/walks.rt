//! The walks over values, with the steps of a machine.

ghost use Rattle.std.specs.Prelude.{◌≡◌};
ghost use Rattle.bq_builtin_machine.specs.Action.{Does};
ghost use Rattle.bq_builtin_machine.specs.Machine.{looked_equal, looked_order, equal, order, text, repr, key};

use crate::machine::Machine;
use bq_base::{Bytes, EvalFault};
use bq_value::{EvalErr, Key, Store, Value};
use std::alloc::Global;
use std::cmp::Ordering;

impl Machine {
    /// Returns `a == b`.
    #[tactic(auto, unfolding(crate::specs::Machine::equal))]
    pub fn equal(&mut self, a: &Value, b: &Value) -> Result<bool, EvalErr>
        ensures { Does (λ same. same) result self.new (equal a.now b.now self.old) }
    {
        let (same, left) = looked_equal(&self.store, self.steps, a, b)?;
        self.steps = left;
        Ok(same)
    }

    /// Compares two values, for `<`, `<=`, `>` and `>=`.
    #[tactic(auto, unfolding(crate::specs::Machine::order))]
    pub fn order(&mut self, a: &Value, b: &Value) -> Result<Ordering, EvalErr>
        ensures { Does (λ ordering. ordering) result self.new (order a.now b.now self.old) }
    {
        let (ordering, left) = looked_order(&self.store, self.steps, a, b)?;
        self.steps = left;
        Ok(ordering)
    }

    /// Returns `str(value)`.
    #[tactic(auto, unfolding(crate::specs::Machine::text))]
    pub fn text(&mut self, alloc: Global, value: &Value) -> Result<Bytes, EvalErr>
        ensures { Does (λ bytes. bytes) result self.new (text value.now self.old) }
    {
        let (text, left) = bq_value_text::text(alloc, &self.store, self.steps, value)?;
        self.steps = left;
        Ok(text)
    }

    /// Returns `repr(value)`.
    #[tactic(auto, unfolding(crate::specs::Machine::repr))]
    pub fn repr(&mut self, alloc: Global, value: &Value) -> Result<Bytes, EvalErr>
        ensures { Does (λ bytes. bytes) result self.new (repr value.now self.old) }
    {
        let (text, left) = bq_value_text::repr(alloc, &self.store, self.steps, value)?;
        self.steps = left;
        Ok(text)
    }

    /// Returns the key that a value makes (F45).
    #[tactic(auto, unfolding(crate::specs::Machine::key))]
    pub fn key(&mut self, value: &Value) -> Result<Key, EvalErr>
        ensures { Does (λ key. key) result self.new (key value.now self.old) }
    {
        let (key, left) = bq_value::key_of(self.steps, value)?;
        self.steps = left;
        Ok(key)
    }
}

// PROOF: a call that names the 64 levels is a step of its own.
#[tactic(auto, unfolding(crate::specs::Machine::looked_equal))]
fn looked_equal(store: &Store, steps: u64, a: &Value, b: &Value) -> Result<(bool, u64), EvalFault>
    ensures { result ≡ looked_equal store.now steps a.now b.now }
{
    bq_value::equal(store, steps, a, b)
}

#[tactic(auto, unfolding(crate::specs::Machine::looked_order))]
fn looked_order(
    store: &Store,
    steps: u64,
    a: &Value,
    b: &Value,
) -> Result<(Ordering, u64), EvalFault>
    ensures { result ≡ looked_order store.now steps a.now b.now }
{
    bq_value::order(store, steps, a, b)
}
