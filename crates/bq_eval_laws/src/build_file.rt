//! What holds of BUILD files. The functions do nothing: their contracts are the laws.

ghost use Rattle.std.specs.Prelude.{List};
ghost use Rattle.bq_resolve_scope.specs.Names.{Name};
ghost use Rattle.bq_package.specs.Calls.{meaning};
ghost use Rattle.bq_eval_laws.specs.Evaluations.Files.{HostTakes, FilesTakeTheirSteps, OtherModulesStay, CallsKeepRules};

/// No call of a build function, of a rule of the schema or of one that a .bzl file declares depends on the steps that
/// are left; it keeps what was printed, and changes no other module and no rule.
pub fn build_calls_look_at_no_steps()
    ensures { HostTakes meaning }
{}

/// A BUILD file has a number of steps and an outcome of its own: under every limit of at least that many steps it has
/// its outcome, and under a lower one it is F53 after a beginning of the same prints. So has a .bzl file, whose calls
/// of build functions are F70.
pub fn build_files_take_their_steps()
    ensures { (names : List Name) → FilesTakeTheirSteps names meaning }
{}

/// A cell of another module holds at the end of a BUILD file, or of a .bzl file, what it held at its start, whatever
/// functions of that module are called (F47).
pub fn build_files_leave_other_modules()
    ensures { (names : List Name) → OtherModulesStay names meaning }
{}

/// A rule that a .bzl file declares holds the same attributes after each call, whatever is called: a build function, a rule, or the rule
/// itself.
pub fn build_files_keep_rules()
    ensures { (names : List Name) → CallsKeepRules names meaning }
{}
