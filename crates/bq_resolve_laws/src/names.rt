//! What holds of resolved files. The functions do nothing: their contracts are the laws.

ghost use Rattle.bq_resolve_laws.specs.Binds.{ComprehensionBinds, FunctionBinds, FileBinds, LoadsBind, FunctionNamesAreLocal, ComprehensionNamesAreLocal, FileNamesAreGlobal, LoadedNamesAreLoaded, BzlFilesHaveNoBuildFunctions, BuildFilesDeclareNoRules, BzlFilesHaveRule, NamespacesAreNoValues};
ghost use Rattle.bq_resolve_laws.specs.NameLaws.{FaultsAreFirstViolations, FilesWithoutViolationsResolve, LoadsAreKept, GlobalsAreKept};
ghost use Rattle.bq_resolve_laws.specs.Resolution.{FilesResolveToThemselves};
ghost use Rattle.bq_resolve_laws.specs.FrameSizes.{EverySlotIsBelow};

/// The names of a block are those that are bound in it, by a target, a parameter, a `def` or a load.
pub fn blocks_hold_what_is_bound()
    ensures comprehension { ComprehensionBinds }
    ensures function { FunctionBinds }
    ensures file { FileBinds }
    ensures loads { LoadsBind }
{}

/// A use of a name that its block binds finds it: in a function and in a comprehension a slot, outside all blocks a global; one of a
/// name that the file loads alone finds what it loads, and no name of a .bzl file is a build function that it doesn't bind.
pub fn what_is_bound_is_found()
    ensures function { FunctionNamesAreLocal }
    ensures comprehension { ComprehensionNamesAreLocal }
    ensures file { FileNamesAreGlobal }
    ensures loaded { LoadedNamesAreLoaded }
    ensures bzl { BzlFilesHaveNoBuildFunctions }
{}

/// What declares rules is in .bzl files alone, whatever rules the schema has, and what holds most of it, `attr`, is no value, nor is
/// `native`.
pub fn rules_are_declared_in_bzl_files()
    ensures build { BuildFilesDeclareNoRules }
    ensures bzl { BzlFilesHaveRule }
    ensures namespaces { NamespacesAreNoValues }
{}

/// Every slot of a file that resolves is below the number of slots of its frame; the first iterable of a comprehension is read in the
/// frame around.
pub fn every_slot_is_below()
    ensures { EverySlotIsBelow }
{}

/// The fault of a file is the first of the rules of names and flow that it breaks, at the token that breaks it, and no other file
/// has one.
pub fn faults_are_first_violations()
    ensures first { FaultsAreFirstViolations }
    ensures none { FilesWithoutViolationsResolve }
{}

/// A file that resolves has the statements, functions, loads and names that it is written with, each use of a name with what it
/// stands for.
pub fn files_resolve_to_themselves()
    ensures { FilesResolveToThemselves }
{}

/// What a parsed file resolves to has its loads and its globals.
pub fn loads_and_globals_are_kept()
    ensures loads { LoadsAreKept }
    ensures globals { GlobalsAreKept }
{}
