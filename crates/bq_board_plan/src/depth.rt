//! How deep modules load, and which are too deep.
ghost use Rattle.std.specs.Prelude.{◌≡◌, ℕ, ◌+◌, ◌<◌, ◌^◌, false, length, IfOk};
ghost use Rattle.std.proofs.Common.{get_or};
ghost use Rattle.bq_board_plan.specs.Counts.{Has};
ghost use Rattle.bq_board_plan.specs.Cycles.{is_cyclic, starts_path};
ghost use Rattle.bq_board_plan.specs.Depth.{max_load_depth, is_too_deep, HasDepths, IsOneAbove, TooDeepByPaths, DeepEnough, NotBoth, LoadsADeep, DeepIsReached};
ghost use Rattle.bq_board_plan.specs.Graph.{Loads};
ghost use Rattle.bq_board_plan.specs.Topological.{IsTopologicalOrder, MarksCycles};

use crate::graph::Graph;
use crate::topological::{Order, Sorted};
use std::alloc::{AllocError, Global};

/// The most edges that a path may have from a module that is evaluated.
pub const MAX_LOAD_DEPTH: usize = 1000;

impl Graph {
    /// Returns for each module that isn't cyclic the number of edges of the longest path that starts at it: one pass
    /// along the order.
    pub(crate) fn depths(&self, alloc: Global, sorted: &Sorted) -> Result<Vec<usize>, AllocError>
        requires order { IsTopologicalOrder self.now sorted.now.modules.items sorted.now.pending.items }
        requires cyclic { MarksCycles self.now sorted.now.pending.items }
        ensures { IfOk result (λ v. HasDepths self.now v.items) }
    {
        let mut depths = vec![in alloc; 0; self.len()]?;
        for module in sorted.modules.as_slice() {
            let m = *module as usize;
            depths[m] = depth_by(self.row(m), depths.as_slice());
        }
        Ok(depths)
    }
}

impl Order {
    /// Returns whether a module of the graph, whose topological order this is, is too deep.
    #[tactic(auto, unfolding(crate::specs::Depth::max_load_depth))]
    pub fn is_too_deep(&self, graph: &Graph, m: usize) -> bool
        requires cyclic { MarksCycles graph.now self.now.pending.items }
        requires depths { HasDepths graph.now self.now.depths.items }
        requires known { m < length graph.now }
        ensures { result ≡ is_too_deep graph.now m }
    {
        if self.pending[m] > 0 {
            return false;
        }
        self.depths[m] > MAX_LOAD_DEPTH
    }

    /// Returns whether a path of `MAX_LOAD_DEPTH` edges starts at a module of the graph that isn't cyclic: what loads
    /// it is too deep.
    #[tactic(auto, unfolding(crate::specs::Depth::max_load_depth))]
    pub fn is_at_limit(&self, graph: &Graph, m: usize) -> bool
        requires depths { HasDepths graph.now self.now.depths.items }
        requires known { m < length graph.now }
        requires acyclic { is_cyclic graph.now m ≡ false }
        ensures { result ≡ starts_path graph.now max_load_depth m }
    {
        self.depths[m] >= MAX_LOAD_DEPTH
    }
}

/// Returns one more than the largest depth of these modules, or 0 if there are none.
fn depth_by(loads: &[u32], depths: &[usize]) -> usize
    requires known { (l : ℕ) → Has loads.now l → l < length depths.now }
    requires low { (l : ℕ) → Has loads.now l → get_or depths.now l 0 + 1 < 2 ^ 64 }
    ensures { IsOneAbove (λ l. get_or depths.now l 0) loads.now result }
{
    let mut depth = 0;
    for l in loads {
        let below = depths[*l as usize];
        if below >= depth {
            depth = below + 1;
        }
    }
    depth
}

/// A module is too deep exactly where it isn't cyclic and a path of more than `MAX_LOAD_DEPTH` edges starts at it.
pub fn too_deep_is_a_path()
    ensures { (p : Loads) → TooDeepByPaths p }
{}

/// A module at which a path of `MAX_LOAD_DEPTH` edges starts, and no longer one, isn't too deep.
pub fn deep_enough()
    ensures { (p : Loads) → DeepEnough p }
{}

/// No module is both cyclic and too deep.
pub fn cyclic_or_too_deep()
    ensures { (p : Loads) → NotBoth p }
{}

/// A module is too deep exactly where it isn't cyclic and loads one at which a path of `MAX_LOAD_DEPTH` edges starts.
pub fn too_deep_loads_a_deep()
    ensures { (p : Loads) → LoadsADeep p }
{}

/// What loads a too deep module, and isn't cyclic, is too deep too: no module that is evaluated loads one.
pub fn loads_of_too_deep()
    ensures { (p : Loads) → DeepIsReached p }
{}
