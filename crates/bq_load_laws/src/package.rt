//! What holds of loaded packages. The functions do nothing: their contracts are the laws.

ghost use Rattle.bq_load_laws.specs.Packages.Declared.{OutcomesDeclareTheirTargets, PackagesDeclareTheirTargets};
ghost use Rattle.bq_load_laws.specs.Packages.Kept.{OutcomesStay, ResultsTellTheSame};
ghost use Rattle.bq_load_laws.specs.Packages.Packages.{FilesMakeTheirPackages, OutcomesHaveTheirPackages};

/// A BUILD file that runs to its end has a package, that of its own label, and a .bzl file has none, whatever either
/// calls.
pub fn files_make_their_packages()
    ensures { FilesMakeTheirPackages }
{}

/// So have the modules of a load graph with their outcomes: what a workspace has as the package of a BUILD file that ran to its end is the
/// file's own.
pub fn outcomes_have_their_packages()
    ensures { OutcomesHaveTheirPackages }
{}

/// The targets of a module's package are those that the top-level statements of the module's own file declare, one statement after
/// another, and then source files. Each that isn't a source file is in the line of its statement, whichever module's function made the
/// call. So it is in a workspace that is loaded, in each package that has targets.
pub fn packages_declare_their_targets()
    ensures outcomes { OutcomesDeclareTheirTargets }
    ensures loaded { PackagesDeclareTheirTargets }
{}

/// Whatever the modules of BUILD files keep of their globals and of the cells that they made, each module has its outcome: nobody loads
/// them. And what is kept shows in no package, no fault line and no print.
pub fn what_build_files_keep_is_not_seen()
    ensures outcomes { OutcomesStay }
    ensures told { ResultsTellTheSame }
{}
