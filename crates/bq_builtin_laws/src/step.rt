//! What holds of the calls of a machine. The functions do nothing: their contracts are the laws.

ghost use Rattle.bq_builtin_laws.specs.Steps.Laws.{OperatorsOwn, ItemsOwn, ChangesOwn, MethodsOwn, FunctionsOwn};

/// Each operator has a number of steps and an outcome of its own: with that many or more it has its outcome, with fewer
/// it is F53.
pub fn operators_take_their_steps()
    ensures operators { OperatorsOwn }
    ensures items { ItemsOwn }
    ensures changes { ChangesOwn }
{}

/// Each method has a number of steps and an outcome of its own, likewise.
pub fn methods_take_their_steps()
    ensures { MethodsOwn }
{}

/// Each built-in function has a number of steps and an outcome of its own, likewise.
pub fn functions_take_their_steps()
    ensures { FunctionsOwn }
{}
