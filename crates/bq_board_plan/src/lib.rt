//! Load graphs: in which order modules are loaded, which of them are cyclic or too deep, and the plan that a board hands
//! out.
//!
//! In: for each module, by number, the modules that it loads. Out: an order in which each module comes after all that it
//! loads; the depth of each; and a plan, in which no module is cyclic, with its edges numbered. The promise: a module is
//! missing in the order exactly where loads lead from it to a cycle, and loads become a plan exactly where there are not
//! too many, each is known, and no module is cyclic.
//!
//! In reading order: `graph`, `cycles`, `topological` and `depth` (load graphs, which modules are cyclic, an order for
//! the others, and which of them are too deep), `plan`, `cut` and `refusal` (graphs without cyclic modules, with
//! numbered edges).
#![tactic(auto)]

mod cut;
mod cycles;
mod depth;
mod graph;
mod plan;
mod refusal;
mod topological;

pub use cut::cut_is_plan;
pub use cycles::{cyclic_is_a_path, cyclic_loads_a_cyclic, cyclic_reaches_a_cycle};
pub use depth::{
    MAX_LOAD_DEPTH, cyclic_or_too_deep, deep_enough, loads_of_too_deep, too_deep_is_a_path,
    too_deep_loads_a_deep,
};
pub use graph::Graph;
pub use plan::{Plan, edges_are_loads, starts_are_sums};
pub use refusal::PlanErr;
pub use topological::Order;
