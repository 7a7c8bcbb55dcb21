//! Laws of the definitions. The gate proves what a contract names, so each law is the contract of a function that does
//! nothing.

ghost use Rattle.std.specs.Prelude.{◌≡◌, ◌↔◌, List, ℕ, Some, []};
ghost use Rattle.std.specs.List.{Contains};
ghost use Rattle.std.specs.List.Sorted.{IsStrictlySortedBy};
ghost use Rattle.bq_base.specs.declared.limits.Limits.{Limits};
ghost use Rattle.bq_base.specs.Limits.{AreBounded};
ghost use Rattle.bq_label.specs.declared.workspace.File.{File};
ghost use Rattle.bq_label.specs.declared.packages.BuildFile.{BuildFile};
ghost use Rattle.bq_label.specs.Workspace.{paths_of, workspace_within, IsWorkspace, IsWorkspaceOf};
ghost use Rattle.bq_label.specs.Packages.{packages_of, package_cmp, IsPackageOf, HasBuildFile, IsListed, split_repository, label_path, owner_of, OwnerIs, IsPathOf, label_file, FileIs};
ghost use Rattle.bq_label.specs.Label.{PackageParts, LabelParts, label_in, IsLabel, IsPackage, ReadsAs, Spells, full_form};
ghost use Rattle.bq_label.specs.Paths.{HasNoSlash};
ghost use Rattle.bq_label.specs.Reading.{label_of, package_of_text};

/// [`crate::read_label`] reads a text as a label exactly where one of the forms of a label does.
pub fn forms_of_a_label()
    ensures { (own : PackageParts) (text : List ℕ) (l : LabelParts) → (label_of own text ≡ Some l) ↔ ReadsAs own text l }
{}

/// [`crate::read_package`] reads a text as a package exactly where it names that package.
pub fn forms_of_a_package()
    ensures { (text : List ℕ) (p : PackageParts) → (package_of_text text ≡ Some p) ↔ (Spells p text × IsPackage p) }
{}

/// A text reads as one label at most.
pub fn one_reading()
    ensures { (own : PackageParts) (text : List ℕ) (l m : LabelParts) → ReadsAs own text l → ReadsAs own text m → l ≡ m }
{}

/// The full form of a label reads as that label in every package of the main repository.
pub fn round_trip()
    ensures { (own : PackageParts) (l : LabelParts) → own.repo ≡ [] → IsLabel l → ReadsAs own (full_form l) l }
{}

/// Two labels with one full form are one label.
pub fn one_full_form()
    ensures { (l m : LabelParts) → IsLabel l → IsLabel m → full_form l ≡ full_form m → l ≡ m }
{}

/// A workspace of files has these files in the one order in which each path is below the next, if the paths are valid
/// and distinct, none is a directory of another, and there are not too many.
pub fn one_order()
    ensures { (limits : Limits) (files w : List File) → AreBounded limits → (workspace_within limits files ≡ Some w) ↔ IsWorkspaceOf limits files w }
{}

/// A package's directory has a BUILD file: `BUILD.bazel`, or `BUILD` if there is no `BUILD.bazel`.
pub fn a_package_has_a_build_file()
    ensures { (files : List File) (b : BuildFile) → IsWorkspace files → Contains (packages_of files) b → IsPackageOf files b }
{}

/// A directory with a file `BUILD.bazel` or `BUILD`, in its repository, is one of the packages.
pub fn a_build_file_makes_a_package()
    ensures { (files : List File) (p : PackageParts) → HasBuildFile files p → IsListed (packages_of files) p }
{}

/// The packages are decided by the paths of the files: what the files contain doesn't count.
pub fn packages_by_paths()
    ensures { (files others : List File) → paths_of files ≡ paths_of others → packages_of files ≡ packages_of others }
{}

/// Each package is there once, and below the next.
pub fn one_entry_each()
    ensures { (files : List File) → IsWorkspace files → IsStrictlySortedBy package_cmp (packages_of files) }
{}

/// A path is one of another repository exactly if it is below `external` and that repository's name, and one of the
/// main repository exactly if it isn't below `external`.
pub fn the_repository_of_a_path()
    ensures { (path repo rest : List ℕ) → (split_repository path ≡ Some (repo, rest)) ↔ IsPathOf path repo rest }
{}

/// A label that names a file names a file of its own repository, at its package's path and then its name; and it names
/// one if there is such a file.
pub fn a_label_names_a_file_of_its_repository()
    ensures { (files : List File) (l : LabelParts) → FileIs files l (label_file files l) }
{}

/// A path's owner is the package above it in its repository that has the longest path.
pub fn the_nearest_owner()
    ensures { (packages : List BuildFile) (path repo rest : List ℕ) → split_repository path ≡ Some (repo, rest) → OwnerIs packages repo rest (owner_of packages path) }
{}

/// Names without a slash are in their package's directory itself, so they all have one owner.
pub fn short_names_have_one_owner()
    ensures { (packages : List BuildFile) (own : PackageParts) (n m : List ℕ) → HasNoSlash n → HasNoSlash m → owner_of packages (label_path (label_in own n)) ≡ owner_of packages (label_path (label_in own m)) }
{}
