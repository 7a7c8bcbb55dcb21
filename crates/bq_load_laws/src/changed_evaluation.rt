//! What holds of evaluations. The functions do nothing: their contracts are the laws.

ghost use Rattle.bq_package.specs.Calls.{HeldPackage};
ghost use Rattle.bq_load_laws.specs.Evaluations.{EvaluationsSeeWhatIsReached, ValuesReachWhatIsLoaded};

/// Where two lists of files agree on each module that the loaded ones reach, a file runs the same among them.
pub fn evaluations_see_what_is_reached()
    ensures { EvaluationsSeeWhatIsReached HeldPackage }
{}

/// A module's value reaches the modules that loads lead to from it, and no other.
pub fn values_reach_what_is_loaded()
    ensures { ValuesReachWhatIsLoaded }
{}
