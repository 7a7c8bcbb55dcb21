//! What holds of calls. The functions do nothing: their contracts are the laws.

ghost use Rattle.std.specs.Prelude.{◌≡◌, ◌<◌, ℕ, Err, [], ◌∷◌, ◌++◌, length};
ghost use Rattle.bq_base.specs.declared.fault.EvalFault.{EvalFault};
ghost use Rattle.bq_base.specs.declared.fault.EvalFault.TheVariants.{Args, Recursion};
ghost use Rattle.bq_builtin_machine.specs.Action.{done, stopped};
ghost use Rattle.bq_builtin_machine.specs.Args.{Passed};
ghost use Rattle.bq_builtin_machine.specs.Binding.{bind};
ghost use Rattle.bq_builtin_machine.specs.Calls as machine;
ghost use Rattle.bq_builtin_machine.specs.Calls.{enter};
ghost use Rattle.bq_builtin_machine.specs.Parameters.{SignatureView};
ghost use Rattle.bq_builtin_machine.specs.State.{State, Stop, stop_at};
ghost use Rattle.bq_eval_spec.specs.Calls as meaning;
ghost use Rattle.bq_eval_spec.specs.Environment.{Scoping};
ghost use Rattle.bq_eval_spec.specs.Primitives.{Primitives};
ghost use Rattle.bq_builtin_machine.specs.Refusals.{IsRefusedForFirst};
ghost use Rattle.bq_eval_laws.specs.Calls.Entered.{FunctionCall, entered, activated, whole_call};
ghost use Rattle.bq_eval_laws.specs.Calls.Misfits.{IsMisfit};
ghost use Rattle.bq_eval_laws.specs.Calls.Orders.{entering, IsActive};
ghost use Rattle.bq_eval_laws.specs.Calls.Parameters.{ParametersBegin, KeywordsBegin, BareStarsEndThem};

/// Arguments are refused, F52, exactly where they don't fit the parameters: one is left over and there is no `*`, a
/// name is no parameter's and there is no `**`, a parameter has two arguments, a name is passed twice, or a required
/// parameter has none.
pub fn misfits_are_refused()
    ensures refused { (s : SignatureView) (p : Passed) → IsMisfit s p → bind s p ≡ Err Args }
    ensures only { (s : SignatureView) (p : Passed) (why : EvalFault) → bind s p ≡ Err why → IsMisfit s p }
{}

/// A parameter begins with its argument, the positional one at its place or the one of its name, else with its default; `*args` with
/// a tuple of the positional arguments that are left, and `**kwargs` with a new dict of the named ones that are left.
pub fn parameters_begin_with_their_arguments<S>()
    ensures arguments { (m : Primitives S) → ParametersBegin m }
    ensures keywords { (m : Primitives S) → KeywordsBegin m }
{}

/// A parameter after a bare `*` takes no positional argument: where there are more of them than parameters before it, the call is
/// refused (F52).
pub fn a_bare_star_ends_the_positional_parameters<S, R, V>()
    ensures { (m : Primitives S) (scoping : Scoping R V) → BareStarsEndThem m scoping }
{}

/// A function is active, F50, where that function of that module is: one of another module at the same place is another function.
/// Elsewhere it becomes active while fewer than 100 functions are.
pub fn functions_are_active_by_module_and_place()
    ensures active { (home place : ℕ) (s : State) → IsActive home place s → enter home place s ≡ stopped (stop_at Recursion s) }
    ensures other { (home place : ℕ) (s : State) → ¬ IsActive home place s → length s.active < 100 → enter home place s ≡ done tt (record s { active = s.active ++ (home, place) ∷ [] }) }
{}

/// The check that a function isn't active (F50) comes before the check that fewer than 100 are (F51).
#[tactic(auto, using(crate::proofs::Calls::Entering::entered_in_order))]
pub fn functions_are_entered_in_order()
    ensures { (home place : ℕ) (s : State) → IsRefusedForFirst (enter home place s) (entering s home place) }
{}

/// A call whose arguments are refused (F52) is refused for nothing else: whether the function is active or not, and
/// however many are. A function that may not become active (F50, F51) runs no statement.
#[tactic(auto, using(crate::proofs::Calls::Entering::arguments_first, crate::proofs::Calls::Entering::activity_second))]
pub fn arguments_come_before_activity<S, R, V>()
    ensures arguments { (x : FunctionCall S R V) (s : S) (why : Stop) → entered x s ≡ stopped why → whole_call x s ≡ stopped why }
    ensures activity { (x : FunctionCall S R V) (s t : S) (env : V) (why : Stop) → entered x s ≡ done env t → activated x t ≡ stopped why → whole_call x s ≡ stopped why }
{}

/// At most 100 functions are active, for the machine and for what programs mean.
#[tactic(auto, using(crate::proofs::Calls::Entering::machine_hundred, crate::proofs::Calls::Entering::meaning_hundred))]
pub fn a_hundred_functions_are_active()
    ensures machine { machine.max_active ≡ 100 }
    ensures meaning { meaning.max_active ≡ 100 }
{}
