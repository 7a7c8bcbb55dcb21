//! What holds of files. The functions do nothing: their contracts are the laws.

ghost use Rattle.std.specs.Prelude.{List};
ghost use Rattle.bq_resolve_scope.specs.Names.{Name};
ghost use Rattle.bq_eval_laws.specs.Evaluations.Files.{HostTakes, FilesTakeTheirSteps, FilesFailAtTheirStatements, OtherModulesStay, CallsKeepRules};
ghost use Rattle.bq_eval_laws.specs.Evaluations.Callable.{FunctionsStayCallable};

use bq_package_values::Host;

/// A file has a number of steps and an outcome of its own: under every limit of at least that many steps it has its
/// outcome, and under a lower one it is F53 after a beginning of the same prints.
pub fn files_take_their_steps<H: Host>()
    ensures { (names : List Name) → HostTakes H.means → FilesTakeTheirSteps names H.means }
{}

/// A cell of another module holds at the end of a file what it held at its start, whatever functions of that module are
/// called (F47).
pub fn other_modules_stay<H: Host>()
    ensures { (names : List Name) → HostTakes H.means → OtherModulesStay names H.means }
{}

/// A rule that a .bzl file declares holds the same attributes after each call, whatever is called.
pub fn calls_keep_rules<H: Host>()
    ensures { (names : List Name) → HostTakes H.means → CallsKeepRules names H.means }
{}

/// A module that loads another can call the functions that this one could, its own and those of each module that it reached.
pub fn functions_stay_callable<H: Host>()
    ensures { (names : List Name) → HostTakes H.means → FunctionsStayCallable names H.means }
{}

/// A fault of a file's evaluation names the line of one of the file's own top-level statements, whichever function it was in.
pub fn files_fail_at_their_statements<H: Host>()
    ensures { (names : List Name) → HostTakes H.means → FilesFailAtTheirStatements names H.means }
{}
