//! What holds of unpacking. The functions do nothing: their contracts are the laws.

ghost use Rattle.std.specs.Prelude.{◌≡◌, ◌≢◌, ℕ, List, length, Ok, Err};
ghost use Rattle.bq_base.specs.declared.fault.EvalFault.{EvalFault};
ghost use Rattle.bq_base.specs.declared.fault.EvalFault.TheVariants.{BadValue};
ghost use Rattle.bq_value.specs.Datum.{Datum};
ghost use Rattle.bq_builtin_machine.specs.Action.{done, stopped};
ghost use Rattle.bq_builtin_machine.specs.Iteration.{elements_in};
ghost use Rattle.bq_builtin_machine.specs.State.{State, stop_at};
ghost use Rattle.bq_eval.specs.Unpacking.{parts};

/// A number of targets take the elements of an iterable that has exactly as many: one that has more or fewer is F57, and so is a value
/// that isn't iterable.
pub fn as_many_values_as_targets()
    ensures taken { (count : ℕ) (v : Datum) (vs : List Datum) (s : State) → elements_in s.store v ≡ Ok vs → length vs ≡ count → parts count v s ≡ done vs s }
    ensures another_number { (count : ℕ) (v : Datum) (vs : List Datum) (s : State) → elements_in s.store v ≡ Ok vs → length vs ≢ count → parts count v s ≡ stopped (stop_at BadValue s) }
    ensures no_iterable { (count : ℕ) (v : Datum) (why : EvalFault) (s : State) → elements_in s.store v ≡ Err why → parts count v s ≡ stopped (stop_at BadValue s) }
{}
