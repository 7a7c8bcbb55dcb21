//! The plan of a load graph: its cyclic and its too deep modules load nothing in it.
ghost use Rattle.std.specs.Prelude.{◌<◌, length, IfOk};
ghost use Rattle.bq_board_plan.specs.Cut.{IsCut, IsCutRow, CutsToPlan};
ghost use Rattle.bq_board_plan.specs.Depth.{HasDepths};
ghost use Rattle.bq_board_plan.specs.Graph.{Loads};
ghost use Rattle.bq_board_plan.specs.Topological.{MarksCycles};

use crate::cycles::cyclic_is_a_path;
use crate::graph::Graph;
use crate::plan::Plan;
use crate::topological::Order;
use std::alloc::{AllocError, Global};

impl Plan {
    /// Makes the plan of a load graph without the loads of its cyclic and its too deep modules. `order` is the graph's
    /// topological order.
    pub fn cut(alloc: Global, graph: &Graph, order: &Order) -> Result<Plan, AllocError>
        requires cyclic { MarksCycles graph.now order.now.pending.items }
        requires depths { HasDepths graph.now order.now.depths.items }
        ensures { IfOk result (λ p. IsCut graph.now p) }
    {
        let mut rows = Vec::new(alloc);
        for m in 0..graph.len() {
            rows.push(cut_row(alloc, graph, order, m)?)?;
        }
        let loads = Graph { rows };
        Plan::of(alloc, loads)
    }
}

/// A load graph without the loads of its cyclic and its too deep modules is a plan: `Plan::new` refuses it for no reason but memory.
pub fn cut_is_plan()
    ensures { (p q : Loads) → CutsToPlan p q }
{
    cyclic_is_a_path();
}

/// Returns what a module loads in the plan.
fn cut_row(alloc: Global, graph: &Graph, order: &Order, m: usize) -> Result<Vec<u32>, AllocError>
    requires cyclic { MarksCycles graph.now order.now.pending.items }
    requires depths { HasDepths graph.now order.now.depths.items }
    requires known { m < length graph.now }
    ensures { IfOk result (λ v. IsCutRow graph.now m v.items) }
{
    if order.pending[m] > 0 || order.is_too_deep(graph, m) {
        return Ok(Vec::new(alloc));
    }
    graph.row(m).to_vec(alloc)
}
