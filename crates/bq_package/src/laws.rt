//! Laws of the definitions: each is the contract of a function that does nothing.

ghost use Rattle.bq_package.specs.Laws.{CallsOutsideAreRefused, WhatIsDeclaredStays, RulesDeclareAlike, InBuildIsSaid, DefaultsAreReadInThePackage};

/// While no BUILD file is evaluated, every call is F70, of whatever rule.
#[tactic(auto, using(crate::proofs::Staying::calls_outside_are_refused))]
pub fn calls_outside_are_refused()
    ensures { CallsOutsideAreRefused }
{}

/// What is declared stays, in its order, whatever is called then; and the package keeps its place.
#[tactic(auto, using(crate::proofs::Staying::what_is_declared_stays))]
pub fn what_is_declared_stays()
    ensures { WhatIsDeclaredStays }
{}

/// A rule that a .bzl file declares and a rule of the schema declare the same targets, if the one has the other's name
/// as its kind, and its attributes.
pub fn rules_declare_alike()
    ensures { RulesDeclareAlike }
{}

/// `in_build` returns whether a BUILD file is evaluated.
#[tactic(auto, using(crate::proofs::Alike::in_build_is_said))]
pub fn in_build_is_said()
    ensures { InBuildIsSaid }
{}

/// The labels of a default are read as labels that a file writes which is in the package of the evaluated one.
pub fn defaults_are_read_in_the_package()
    ensures { DefaultsAreReadInThePackage }
{}
