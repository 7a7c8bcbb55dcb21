//! What holds of names and slots in calls and modules. The functions do nothing: their contracts are the laws.

ghost use Rattle.bq_eval_spec.specs.Primitives.{Primitives};
ghost use Rattle.bq_eval_by_name.specs.ModuleAgreement.{SignaturesAgree, EntriesAgree, CallsOfUnitsAgree, ModulesAgree, FrozenUnitsAgree};
ghost use Rattle.bq_eval_by_name.specs.Ends.{GlobalsAreBound};

/// Parameters take the same arguments by names and by slots, and a call begins with the same values of the function's
/// names.
pub fn entries_agree<S>()
    ensures signatures { SignaturesAgree }
    ensures entries { (m : Primitives S) → EntriesAgree m }
{}

/// Where the modules are the same, a call does by slots what it does by names.
pub fn calls_agree<S>()
    ensures { (m : Primitives S) → CallsOfUnitsAgree m }
{}

/// A resolved file does by slots what the file that it comes from does by names, and as a frozen module both are the
/// same.
pub fn modules_agree<S>()
    ensures modules { (m : Primitives S) → ModulesAgree m }
    ensures frozen { FrozenUnitsAgree }
{}

/// Where a file ends, each of its globals is bound, if unpacking yields as many elements as there are targets.
pub fn globals_are_bound<S>()
    ensures { (m : Primitives S) → GlobalsAreBound m }
{}
