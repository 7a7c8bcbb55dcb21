//! Laws of the definitions: each is the contract of a function that does nothing.

ghost use Rattle.std.specs.Prelude.{◌≡◌, ◌+◌, ◌<◌, ℕ, ℤ, List, Some, Ok, length, slice_get};
ghost use Rattle.bq_base.specs.declared.fault.EvalFault.TheVariants.{Iterating, Recursion};
ghost use Rattle.bq_value.specs.Datum.{Datum, cell};
ghost use Rattle.bq_value.specs.Range.{range_element, range_count};
ghost use Rattle.bq_builtin_machine.specs.State.{State, stop_at};
ghost use Rattle.bq_builtin_machine.specs.Action.{done, stopped};
ghost use Rattle.bq_builtin_machine.specs.Machine.{step};
ghost use Rattle.bq_builtin_machine.specs.Cells.{may_change};
ghost use Rattle.bq_builtin_machine.specs.Iteration.{range_integers, begin_walk, end_walk};
ghost use Rattle.bq_builtin_machine.specs.Calls.{enter, leave};
ghost use Rattle.bq_builtin_machine.specs.Args.{Passed};
ghost use Rattle.bq_builtin_machine.specs.Parameters.{SignatureView};
ghost use Rattle.bq_builtin_machine.specs.Binding.{BoundView, bind};
ghost use Rattle.bq_builtin_machine.specs.Laws.{ArgumentsArrive};

/// Steps only fall: by as many as are taken.
pub fn steps_only_fall()
    ensures { (count : ℕ) (s t : State) → step count s ≡ done tt t → t.steps + count ≡ s.steps }
{}

/// A walk that begins and ends leaves the state as it was. Until it ends, the list or dict isn't changed.
pub fn walks_begin_and_end()
    ensures nothing_is_left { (v : Datum) (s t : State) (xs : List Datum) → begin_walk v s ≡ done xs t → end_walk v t ≡ s }
    ensures stays { (home number : ℕ) (s t : State) (xs : List Datum) → begin_walk (cell home number) s ≡ done xs t → home ≡ t.store.own → may_change home number t ≡ stopped (stop_at Iterating t) }
{}

/// A function that is entered and left leaves the state as it was. While it is active it isn't entered again.
pub fn functions_come_and_go()
    ensures nothing_is_left { (home place : ℕ) (s t : State) → enter home place s ≡ done tt t → leave t ≡ s }
    ensures once { (home place : ℕ) (s t : State) → enter home place s ≡ done tt t → enter home place t ≡ stopped (stop_at Recursion t) }
{}

/// A walk over a range has its elements, each at its place.
pub fn ranges_are_walked_in_order()
    ensures count { (start stop step : ℤ) → length (range_integers start stop step) ≡ range_count start stop step }
    ensures element { (start stop step : ℤ) (k : ℕ) → k < range_count start stop step → slice_get (range_integers start stop step) k ≡ Some (range_element start step k) }
{}

/// Where arguments can be bound, each goes to the parameter at its place or of its name, and stays there: none replaces
/// another.
pub fn arguments_go_to_their_parameters()
    ensures { (s : SignatureView) (p : Passed) (b : BoundView) → bind s p ≡ Ok b → ArgumentsArrive s p b }
{}
