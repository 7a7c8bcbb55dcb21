//! What the definitions say together. The functions do nothing: their contracts are the laws.

ghost use Rattle.bq_run_facts.specs.Laws.{DirectAreNames, DirectIsDeps, EdgesAreNames, EndsAsAnswer, PartsJoin};

/// What a target is said to depend on is `deps(x, 1) - x`.
pub fn direct_is_deps()
    ensures { DirectIsDeps }
{}

/// A run that is asked for facts has the faults, and the ending, of a run that is asked for the answer.
pub fn facts_end_as_answers()
    ensures { EndsAsAnswer }
{}

/// What a target is said to depend on is those of the labels that it names that targets have, but for its own. An edge leads to a label
/// exactly where the target names it and a target has it.
pub fn deps_are_names_of_targets()
    ensures direct { DirectAreNames }
    ensures edges { EdgesAreNames }
{}

/// A workspace whose packages are those of some parts has the targets of these parts, and an edge from one to another exactly where the first
/// names the label of the second, whichever parts they are of. The labels that a target names are its own (`names_are_dependencies` of
/// bq_facts), so each part has what is needed.
pub fn parts_join()
    ensures { PartsJoin }
{}
