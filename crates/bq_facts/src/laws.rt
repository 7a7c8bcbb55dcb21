//! What the definitions say together. The functions do nothing: their contracts are the laws.

ghost use Rattle.std.specs.Prelude.{ℕ, List};
ghost use Rattle.bq_facts.specs.Laws.{DirectAreDeps, FaultLinesAreObjects, HeadersAreObjects, ModuleLinesAreObjects, NamesAreDependencies, NamesAscend, PathsOfLabels, TargetLinesAreObjects};

/// The direct dependencies of a target are `deps(x, 1) - x`: the targets that its edges lead to, but for itself.
pub fn direct_deps_are_deps()
    ensures { (g : List (List ℕ)) (x : ℕ) (ds : List ℕ) → DirectAreDeps g x ds }
{}

/// The labels that a target names are those of what it depends on, whether these are targets or not, in the order of the bytes of their full
/// forms, each once. They are the target's own: which other targets there are doesn't change them.
pub fn names_are_dependencies()
    ensures labels { NamesAreDependencies }
    ensures order { NamesAscend }
{}

/// The path of a label that is printed in full is that of the label.
pub fn paths_of_labels()
    ensures { PathsOfLabels }
{}

/// Each line is the text of an object, and a newline: the first, of the format, the program, its limits and how many lines follow; of a target
/// its label, its kind, its file, and where a call declares it, the line, the attributes, the names and the direct dependencies; of a module its label, its file and its loads, each with the names that it binds before the symbols
/// that they stand for; of a fault its number, its name, its label, file and line, and what it is about. By `values_read_back` and `one_reading`
/// of bq_package_values a reader finds that object in it, and no other.
pub fn lines_are_of_objects()
    ensures headers { HeadersAreObjects }
    ensures targets { TargetLinesAreObjects }
    ensures modules { ModuleLinesAreObjects }
    ensures faults { FaultLinesAreObjects }
{}
