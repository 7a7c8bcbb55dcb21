//! What holds of names and slots in the evaluation of files. The functions do nothing: their contracts are the laws.

ghost use Rattle.std.specs.Prelude.{List};
ghost use Rattle.bq_resolve_scope.specs.Names.{Name};
ghost use Rattle.bq_eval.specs.Calling.{HostCalls};
ghost use Rattle.bq_eval_by_name.specs.EvaluationAgreement.{FrozenModulesKeepTheirGlobals, FrozenUnitsAgree, EvaluationsAgree, GlobalsAreBound, UnpackingCounts};

/// A frozen module is read as it ended: its globals have the values that they had, and the names that its loads bind
/// have theirs.
pub fn frozen_modules_keep_their_globals()
    ensures { FrozenModulesKeepTheirGlobals }
{}

/// Whatever frozen modules a file loads, those that they reach are the same by names and by slots.
pub fn frozen_units_agree()
    ensures { FrozenUnitsAgree }
{}

/// A file that is parsed and resolved ends by names as it ends by slots, beside every host.
pub fn evaluations_agree<W>()
    ensures { (rules : List Name) (host : HostCalls W) → EvaluationsAgree rules host }
{}

/// Where a file ends, each of its globals is bound.
pub fn ended_globals_are_bound<W>()
    ensures counts { (rules : List Name) (host : HostCalls W) → UnpackingCounts rules host }
    ensures bound { (rules : List Name) (host : HostCalls W) → GlobalsAreBound rules host }
{}
