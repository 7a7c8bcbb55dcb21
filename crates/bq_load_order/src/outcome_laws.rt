//! What the recursion along loads means. Each function does nothing; its contract is the law.
ghost use Rattle.std.specs.Prelude.{ℕ, List, Result};
ghost use Rattle.bq_board_plan.specs.Graph.{Loads};
ghost use Rattle.bq_load_order.specs.Outcome.{HasOneSolution};
ghost use Rattle.bq_load_order.specs.OutcomeLaws.{CyclicOutcome, TooDeepOutcome, FailedLoadOutcome, LoadedOutcome, OutcomeByPlan, OutcomeOfReached};

use bq_board_plan::{
    cyclic_is_a_path, cyclic_loads_a_cyclic, cyclic_reaches_a_cycle, loads_of_too_deep,
    too_deep_loads_a_deep,
};

/// The recursion along loads has exactly one solution, for every graph and whatever modules evaluate to: the outcomes.
pub fn one_solution<V, F>()
    ensures { (means : ℕ → List V → Result V F) (p : Loads) → HasOneSolution means p }
{}

/// A module from which loads lead to a cycle is `Cyclic`, with its first load that is cyclic.
pub fn cyclic_outcome<V, F>()
    ensures { (means : ℕ → List V → Result V F) (p : Loads) → CyclicOutcome means p }
{
    cyclic_loads_a_cyclic();
}

/// A module that is too deep is `TooDeep`, with the first of its loads at which a path of as many edges starts as there may be.
pub fn too_deep_outcome<V, F>()
    ensures { (means : ℕ → List V → Result V F) (p : Loads) → TooDeepOutcome means p }
{
    cyclic_is_a_path();
    too_deep_loads_a_deep();
}

/// Any other module with a load that has no value is `LoadFailed`, with the first such load. That load is neither cyclic nor too deep.
pub fn failed_load_outcome<V, F>()
    ensures { (means : ℕ → List V → Result V F) (p : Loads) → FailedLoadOutcome means p }
{
    cyclic_loads_a_cyclic();
    loads_of_too_deep();
}

/// Any other module is what it evaluates to with the values of its loads, in their order: a value or its own fault.
pub fn loaded_outcome<V, F>()
    ensures { (means : ℕ → List V → Result V F) (p : Loads) → LoadedOutcome means p }
{}

/// The outcome of a module that is neither cyclic nor too deep depends only on the loads that it has in a plan without
/// those of such modules: workers over that plan find it.
pub fn outcome_by_the_plan<V, F>()
    ensures { (means : ℕ → List V → Result V F) (p q : Loads) → OutcomeByPlan means p q }
{}

/// An outcome depends only on the module and on what it reaches by loads: other modules change nothing.
pub fn outcome_of_what_it_reaches<V, F>()
    ensures { (means others : ℕ → List V → Result V F) (p q : Loads) → OutcomeOfReached means others p q }
{
    cyclic_reaches_a_cycle();
}
