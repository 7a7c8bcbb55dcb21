//! What the definitions say together. The functions do nothing: their contracts are the laws.

ghost use Rattle.std.specs.Prelude.{◌≡◌, ◌↔◌, ℕ, List, Some};
ghost use Rattle.bq_base.specs.declared.limits.Limits.{Limits};
ghost use Rattle.bq_label.specs.declared.workspace.File.{File};
ghost use Rattle.bq_run.specs.Bundle.{bundle_within, files_of};
ghost use Rattle.bq_run.specs.Written.{IsBundleWithin, IsWritten};

/// A text is read as files exactly if it is written by those files: as header lines, each followed by a content
/// that has no header in it; and as a workspace if it isn't too long, and they make that workspace.
pub fn one_reading_of_a_bundle()
    ensures files { (text : List ℕ) (files : List File) → (files_of text ≡ Some files) ↔ IsWritten text files }
    ensures workspace { (limits : Limits) (text : List ℕ) (files : List File) → (bundle_within limits text ≡ Some files) ↔ IsBundleWithin limits text files }
{}
