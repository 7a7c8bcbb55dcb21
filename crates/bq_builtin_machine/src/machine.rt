//! The state of a module's evaluation: steps, prints, `fail`, and the line that is running.

ghost use Rattle.std.specs.Prelude.{◌≡◌};
ghost use Rattle.bq_builtin_machine.specs.State.{started};
ghost use Rattle.bq_builtin_machine.specs.Action.{Does};
ghost use Rattle.bq_builtin_machine.specs.Machine.{with_steps, step, print, fail};

use bq_base::{Bytes, EvalFault};
use bq_value::{Cell, EvalErr, Store, Value};
use std::alloc::Global;
use std::marker::Model;

/// What the evaluation of a module changes as it goes. Contracts see its `State`.
pub struct Machine {
    pub(crate) store: Store,
    pub(crate) steps: u64,
    pub(crate) prints: Vec<Bytes>,
    /// The functions that are active, by the module and the place of their `def`.
    pub(crate) active: Vec<(u32, u32)>,
    /// The cells that are being walked, one for each walk.
    pub(crate) walks: Vec<Cell>,
    pub(crate) line: u32,
    pub(crate) message: Bytes,
}

impl Drop for Machine {
    // PROOF: a drop that is written out is proved here alone, and a derived one in each crate that drops a machine
    fn drop(self) {
        let Machine {
            store: _,
            steps: _,
            prints: _,
            active: _,
            walks: _,
            line: _,
            message: _,
        } = self;
    }
}

impl Model for Machine {
    ghost use Rattle.bq_builtin_machine.specs.State.{State, coded_state};

    ghost Value = { State };

    ghost coded = { coded_state };

    ghost use Rattle.bq_builtin_machine.specs.StateOf.{state_of};

    ghost view = { state_of };
}

impl Machine {
    /// Begins the evaluation of a module: `limit` steps are left, and nothing is printed.
    pub fn new(alloc: Global, store: Store, limit: u64) -> Machine
        ensures { result ≡ started store limit }
    {
        Machine {
            store,
            steps: limit,
            prints: Vec::new(alloc),
            active: Vec::new(alloc),
            walks: Vec::new(alloc),
            line: 0,
            message: Bytes::empty(),
        }
    }

    /// Returns the store.
    pub fn store(&self) -> &Store
        ensures { result.now ≡ self.now.store }
    {
        &self.store
    }

    /// Returns how many steps are left.
    pub fn steps(&self) -> u64
        ensures { result ≡ self.now.steps }
    {
        self.steps
    }

    /// Sets how many steps are left: what a walk over values has left of those that it was given.
    pub fn set_steps(&mut self, left: u64)
        ensures { self.new ≡ with_steps left self.old }
    {
        self.steps = left;
    }

    /// Returns the line of the top-level statement that is running.
    pub fn line(&self) -> u32
        ensures { result ≡ self.now.line }
    {
        self.line
    }

    /// Sets the line of the top-level statement that runs from now on.
    pub fn set_line(&mut self, line: u32)
        ensures { self.new ≡ record self.old { line = line } }
    {
        self.line = line;
    }

    /// Takes `count` steps (F53).
    #[tactic(auto, unfolding(crate::specs::Machine::step))]
    pub fn step(&mut self, count: u64) -> Result<(), EvalErr>
        ensures { Does (λ _. tt) result self.new (step count self.old) }
    {
        if self.steps < count {
            return Err(EvalErr::Bad(EvalFault::StepLimit));
        }
        self.steps -= count;
        Ok(())
    }

    /// Prints a text.
    #[tactic(auto, unfolding(crate::specs::Machine::print))]
    pub fn print(&mut self, text: Bytes) -> Result<(), EvalErr>
        ensures { Does (λ _. tt) result self.new (print text self.old) }
    {
        self.prints.push(text)?;
        Ok(())
    }

    /// Stops the program with `message` (F56).
    #[tactic(auto, unfolding(crate::specs::Machine::fail))]
    pub fn fail(&mut self, message: Bytes) -> Result<Value, EvalErr>
        ensures { Does (λ v. v) result self.new (fail message self.old) }
    {
        self.message = message;
        Err(EvalErr::Bad(EvalFault::Fail))
    }

    /// Returns the message of `fail`, which is empty until it is called.
    pub fn message(&self) -> &Bytes
        ensures { result.now ≡ self.now.message }
    {
        &self.message
    }

    /// Ends the evaluation. Returns its store, and the texts that it printed, in order.
    pub fn into_parts(self) -> (Store, Vec<Bytes>)
        ensures store { result.0 ≡ self.store }
        ensures prints { result.1.items ≡ self.prints }
    {
        let Machine {
            store,
            steps: _,
            prints,
            active: _,
            walks: _,
            line: _,
            message: _,
        } = self;
        (store, prints)
    }
}
