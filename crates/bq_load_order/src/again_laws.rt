//! What holds of the definitions. The function does nothing: its contract is the law.

ghost use Rattle.bq_load_order.specs.AgainLaws.{ModulesEvaluateAsTheyDid};

/// Where the outcomes that modules had are those of a load graph, a module is unchanged if it gives, by the values that
/// its loads had, what it gave.
pub fn modules_evaluate_as_they_did<V, F>()
    ensures { ModulesEvaluateAsTheyDid V F }
{}
