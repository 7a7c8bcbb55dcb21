//! What load graphs are, said of the workspace. The functions do nothing: their contracts are the laws.

ghost use Rattle.bq_load_discover.specs.Laws.{OneLoadGraph, TooManyForALoadGraph, ModulesHaveFiles};

/// A workspace has at most one load graph.
pub fn one_load_graph()
    ensures { OneLoadGraph }
{}

/// It has none if there are too many modules or edges.
pub fn too_many_for_a_load_graph()
    ensures { TooManyForALoadGraph }
{}

/// Each module has a file: that at the path of its label.
pub fn modules_have_files()
    ensures { ModulesHaveFiles }
{}
