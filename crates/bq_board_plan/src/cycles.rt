//! Which modules are cyclic, said of paths and cycles. Each function does nothing; its contract is the law.
ghost use Rattle.bq_board_plan.specs.Cycles.{TestsPaths, ReachesACycle, LoadsACyclic};
ghost use Rattle.bq_board_plan.specs.Graph.{Loads};

/// A module is cyclic by the test exactly where a path of one edge more than there are modules starts at it.
pub fn cyclic_is_a_path()
    ensures { (p : Loads) → TestsPaths p }
{}

/// A module is cyclic exactly where loads lead from it to a module from which they lead back to it.
pub fn cyclic_reaches_a_cycle()
    ensures { (p : Loads) → ReachesACycle p }
{}

/// A module is cyclic exactly where it loads a cyclic module.
pub fn cyclic_loads_a_cyclic()
    ensures { (p : Loads) → LoadsACyclic p }
{}
