//! The operands of a target's index expressions, with their indices.

ghost use Rattle.std.specs.Prelude.{◌≡◌, []};
ghost use Rattle.bq_builtin_machine.specs.Iteration.{IsNext};

use bq_value::Value;
use std::alloc::Global;
use std::marker::Model;

/// Operands and indices, the next one last. Contracts see their list from the next one on.
#[derive(Drop)]
pub struct IndexedOperands {
    alloc: Global,
    left: Vec<(Value, Value)>,
}

impl Model for IndexedOperands {
    ghost use Rattle.std.specs.Prelude.{List, reverse};
    ghost use Rattle.std.specs.Coded.{coded_list, coded×};
    ghost use Rattle.bq_value.specs.Datum.{Datum};
    ghost use Rattle.bq_value.specs.Codes.{coded_datum};

    ghost Value = { List (Datum × Datum) };

    ghost coded = { coded_list (coded× coded_datum coded_datum) };

    ghost view = { λ p. reverse p.left.items };
}

impl IndexedOperands {
    /// Makes an empty list.
    pub fn new(alloc: Global) -> IndexedOperands
        ensures { result ≡ [] }
    {
        IndexedOperands {
            alloc,
            left: Vec::new(alloc),
        }
    }

    /// Makes these, in order.
    #[tactic(auto, using(crate::proofs::Reversed::reversed_twice))]
    pub fn of(alloc: Global, mut places: Vec<(Value, Value)>) -> IndexedOperands
        ensures { result ≡ places.items }
    {
        places.reverse();
        IndexedOperands {
            alloc,
            left: places,
        }
    }

    /// Returns the allocator, which unpacking takes.
    pub fn alloc(&self) -> Global {
        self.alloc
    }

    /// Takes the next one.
    #[tactic(auto, using(crate::proofs::Reversed::popped))]
    pub fn next(&mut self) -> Option<(Value, Value)>
        ensures { IsNext result self.old self.new }
    {
        self.left.pop()
    }
}
