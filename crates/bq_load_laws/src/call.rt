//! What holds of calls along loads. The function does nothing: its contract is the law.

ghost use Rattle.bq_load_laws.specs.Calls.Calls.{FunctionsOfLoadsAreCallable};

/// A module whose loads all have values can call the functions of each module that loads lead to from it, and its own.
pub fn functions_of_loads_are_callable()
    ensures { FunctionsOfLoadsAreCallable }
{}
