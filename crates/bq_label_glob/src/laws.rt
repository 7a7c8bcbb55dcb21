//! Laws of the definitions. The gate proves what a contract names, so each law is the contract of a function that does
//! nothing.

ghost use Rattle.std.specs.Prelude.{List, ℕ};
ghost use Rattle.bq_label.specs.declared.workspace.File.{File};
ghost use Rattle.bq_label.specs.declared.packages.BuildFile.{BuildFile};
ghost use Rattle.bq_label.specs.Label.{PackageParts};
ghost use Rattle.bq_label.specs.Workspace.{paths_of, IsWorkspace};
ghost use Rattle.bq_label_glob.specs.Names.{glob, IsGiven, AreThose, Ascend, IsOwned, HasName};

/// A name is returned exactly if it is that of a file of the package that some pattern includes and none excludes.
pub fn what_glob_gives()
    ensures { (paths : List (List ℕ)) (packages : List BuildFile) (p : PackageParts) (include exclude : List (List ℕ)) → AreThose (IsGiven paths packages p include exclude) (glob paths packages p include exclude) }
{}

/// The names ascend by their bytes, so none is returned twice.
pub fn names_in_order()
    ensures { (files : List File) (packages : List BuildFile) (p : PackageParts) (include exclude : List (List ℕ)) → IsWorkspace files → Ascend (glob (paths_of files) packages p include exclude) }
{}

/// Each path that a package owns has a name in it.
pub fn owned_paths_have_names()
    ensures { (packages : List BuildFile) (p : PackageParts) (path : List ℕ) → IsOwned packages p path → HasName p path }
{}
