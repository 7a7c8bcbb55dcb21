//! What holds of packages and their targets. The functions do nothing: their contracts are the laws.

ghost use Rattle.std.specs.Prelude.{◌≡◌, ◌⊎◌, ◌++◌, ◌∷◌, ℕ, List, false, bytes_eq};
ghost use Rattle.std.specs.List.{Contains, IsDistinct};
ghost use Rattle.bq_label.specs.Label.{LabelParts};
ghost use Rattle.bq_package_target.specs.declared.state.Declared.TheVariants.{Refused};
ghost use Rattle.bq_package_target.specs.declared.target.Target.{Target};
ghost use Rattle.bq_package_target.specs.Calls.{exported};
ghost use Rattle.bq_base_texts.specs.NameSet.{has};
ghost use Rattle.bq_package_target.specs.Package.{PackageTargets, finished};
ghost use Rattle.bq_package_target.specs.Target.{dependencies, names_of, source};
ghost use Rattle.bq_package_target.specs.Dependencies.{Depends};
ghost use Rattle.bq_package_target.specs.SourceFiles.{IsWanted, IsImplicit, HasTargetNamed, HasOtherNamed};

/// A file that a rule makes depends on the rule alone. Any other target depends on exactly the labels that its
/// attributes of types label and label_list have, a group on those that it includes.
#[tactic(auto, using(crate::proofs::Writing::only_written, crate::proofs::Writing::all_written))]
pub fn targets_depend_on_what_they_write()
    ensures only { (t : Target) (l : LabelParts) → Contains (dependencies t) l → Depends t l }
    ensures all { (t : Target) (l : LabelParts) → Depends t l → Contains (dependencies t) l }
{}

/// A target of a package that no call declares is a source file: its BUILD file, or a file that one of its targets writes, of a name
/// that no call declares. Each such file is a target, or a target of its name is there.
#[tactic(auto, using(crate::proofs::Implicit::only_wanted, crate::proofs::Implicit::all_wanted))]
pub fn files_without_a_call_are_wanted()
    ensures only { (p : PackageTargets) (t : Target) → Contains (finished p).targets t → Contains p.targets t ⊎ IsImplicit p t }
    ensures all { (p : PackageTargets) (l : LabelParts) → IsWanted p l → HasTargetNamed (finished p).targets l.name }
{}

/// If no call declares the BUILD file, it is the first target after those that the calls declare.
#[tactic(auto, using(crate::proofs::Implicit::build_file_first))]
pub fn build_files_come_first()
    ensures { (p : PackageTargets) → has (names_of p.targets) p.build_file.name ≡ false → (more : List Target) × ((finished p).targets ≡ p.targets ++ source p.build_file 0 ∷ more) }
{}

/// A call of `exports_files` is refused (F74) exactly where a rule, a file that a rule makes or a group has one of the names.
#[tactic(auto, using(crate::proofs::Exporting::refused_if_taken, crate::proofs::Exporting::taken_if_refused))]
pub fn exports_are_refused_for_taken_names()
    ensures refused { (p : PackageTargets) (ls : List LabelParts) (line : ℕ) → IsDistinct bytes_eq (names_of p.targets) → HasOtherNamed p.targets ls → exported p ls line ≡ Refused p }
    ensures taken { (p q : PackageTargets) (ls : List LabelParts) (line : ℕ) → exported p ls line ≡ Refused q → HasOtherNamed p.targets ls }
{}
