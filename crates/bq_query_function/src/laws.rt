//! What words name, said of packages. The functions do nothing: their contracts are the laws. Each label of a target is
//! valid, since every `Label` is.

ghost use Rattle.bq_query_function.specs.Packages.{TargetsBeneathAPackage, TargetsOfAPackage, WordsNameLabelsAndPackages};

/// The targets of a package are those whose labels have it as their package: no other label begins as theirs do.
pub fn targets_of_a_package()
    ensures { TargetsOfAPackage }
{}

/// The targets beneath a package are those whose package it is, or whose package's path is its path, a slash and more, in the same
/// repository; beneath the root package are all of its repository.
pub fn targets_beneath_a_package()
    ensures { TargetsBeneathAPackage }
{}

/// A word names the target whose label it reads as, or the targets of the package that it names, or those of the packages beneath it too;
/// the rules among them, or all.
pub fn words_name_labels_and_packages()
    ensures { WordsNameLabelsAndPackages }
{}
