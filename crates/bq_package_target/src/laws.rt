//! What holds of every package. The functions do nothing: their contracts are the laws.

ghost use Rattle.std.specs.Prelude.{◌≡◌, List, ◌++◌};
ghost use Rattle.bq_label.specs.Label.{LabelParts};
ghost use Rattle.bq_package_target.specs.declared.target.Target.{Target};
ghost use Rattle.bq_package_target.specs.Package.{PackageTargets, no_targets, finished};
ghost use Rattle.bq_package_target.specs.Laws.{Call, after_calls, AreRulesOrGroups, EachIsMade, KeepsOrder, AcceptsDistinct};

/// The targets of a call come after those of earlier calls; a refused call leaves the package as it was.
pub fn calls_keep_their_order()
    ensures { (p : PackageTargets) (t : Target) (q : PackageTargets) → KeepsOrder p t q }
{}

/// The targets of a package begin with those that its BUILD file's calls declare, in their order.
pub fn calls_come_first()
    ensures { (p : PackageTargets) → (files : List Target) × ((finished p).targets ≡ p.targets ++ files) }
{}

/// A call of a rule or of `package_group` is accepted exactly where, with the targets that it declares, no two names are equal.
pub fn distinct_names_are_accepted()
    ensures { (p : PackageTargets) (t : Target) → AcceptsDistinct p t }
{}

/// Each generated file of a package is an output of its rule, whatever calls its BUILD file makes.
pub fn each_generated_file_is_made()
    ensures { (b : LabelParts) (calls : List Call) → AreRulesOrGroups calls → EachIsMade (finished (after_calls (no_targets b) calls)).targets }
{}
