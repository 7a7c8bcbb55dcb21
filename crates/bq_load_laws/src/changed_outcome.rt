//! What holds of outcomes. The functions do nothing: their contracts are the laws.

ghost use Rattle.bq_load_laws.specs.ChangedOutcomes.{UnchangedModulesEvaluateAlike, UnchangedModulesKeepTheirOutcomes};

/// A module evaluates, by the values that its loads had, to what it evaluated to, if all that loads lead to from it is
/// what it was, and so is what counts of what its host begins with: of all paths the names of its own package's files.
pub fn unchanged_modules_evaluate_alike()
    ensures { UnchangedModulesEvaluateAlike }
{}

/// A module is unchanged as `bq_load_order` asks for it, if all that loads lead to from it is what it was, so is what
/// counts of what its host begins with, and the outcomes that modules had are those of their load graph.
pub fn unchanged_modules_keep_their_outcomes()
    ensures { UnchangedModulesKeepTheirOutcomes }
{}
