//! A topological order of the modules: each comes after all that it loads (Kahn's algorithm).
ghost use Rattle.std.specs.Prelude.{◌≡◌, ℕ, ◌+◌, ◌<◌, ◌≤◌, ◌↔◌, length, IfOk, OnOk, IsTrue};
ghost use Rattle.std.proofs.Common.{get_or};
ghost use Rattle.bq_board_plan.specs.Counts.{times, Has};
ghost use Rattle.bq_board_plan.specs.Cycles.{IsAcyclic};
ghost use Rattle.bq_board_plan.specs.Depth.{HasDepths};
ghost use Rattle.bq_board_plan.specs.Topological.{IsTopologicalOrder, MarksCycles};
ghost use Rattle.bq_board_plan.specs.Graph.{lists};
ghost use Rattle.bq_board_plan.specs.Sorting.{Sorting, IsDependents, Settles, Adds};

use crate::graph::{Graph, empty_rows};
use std::alloc::{AllocError, Global};

/// An order for loading: the modules that aren't cyclic, each after all that it loads.
#[derive(Drop)]
pub struct Order {
    pub modules: Vec<u32>,
    /// For each module how many of its loads aren't in the order: 0 exactly if it isn't cyclic.
    pub pending: Vec<usize>,
    /// For each module that isn't cyclic the number of edges of the longest path that starts at it.
    pub depths: Vec<usize>,
}

// An order, and how many loads of each module aren't in it.
#[derive(Drop)]
pub(crate) struct Sorted {
    pub(crate) modules: Vec<u32>,
    pub(crate) pending: Vec<usize>,
}

impl Graph {
    /// Returns the modules that aren't cyclic, each after all that it loads. It takes time linear in modules and edges.
    pub fn topological_order(&self, alloc: Global) -> Result<Order, AllocError>
        ensures order { IfOk result (λ o. IsTopologicalOrder self.now o.modules.items o.pending.items) }
        ensures cyclic { IfOk result (λ o. MarksCycles self.now o.pending.items) }
        ensures depths { IfOk result (λ o. HasDepths self.now o.depths.items) }
    {
        let sorted = self.sorted(alloc)?;
        let depths = self.depths(alloc, &sorted)?;
        Ok(Order {
            modules: sorted.modules,
            pending: sorted.pending,
            depths,
        })
    }

    /// Sorts the modules.
    fn sorted(&self, alloc: Global) -> Result<Sorted, AllocError>
        ensures order { IfOk result (λ o. IsTopologicalOrder self.now o.modules.items o.pending.items) }
        ensures cyclic { IfOk result (λ o. MarksCycles self.now o.pending.items) }
    {
        let (mut order, dependents) = self.begin(alloc)?;
        let _ = self.len();
        let mut at = 0;
        while at < order.modules.len() {
            let m = order.modules[at] as usize;
            let loaders = dependents[m].as_slice();
            settle(&mut order.pending, &mut order.modules, loaders)?;
            at += 1;
        }
        Ok(order)
    }

    /// Returns whether no module is cyclic.
    pub fn is_acyclic(&self, alloc: Global) -> Result<bool, AllocError>
        ensures { IfOk result (λ b. IsTrue b ↔ IsAcyclic self.now) }
    {
        let order = self.sorted(alloc)?;
        let _ = self.len();
        Ok(order.pending.iter().all(|n| *n == 0))
    }

    /// Counts the loads of each module; those without any are the first of the order. And returns for each module the
    /// modules that load it, each as often as it loads it.
    fn begin(&self, alloc: Global) -> Result<(Sorted, Vec<Vec<u32>>), AllocError>
        ensures order { IfOk result (λ r. Sorting self.now 0 r.0.modules.items r.0.pending.items) }
        ensures dependents { IfOk result (λ r. IsDependents self.now (lists r.1.items)) }
    {
        let mut order = Sorted {
            modules: Vec::new(alloc),
            pending: Vec::new(alloc),
        };
        let mut dependents = empty_rows(alloc, self.len())?;
        for m in 0..self.len() {
            let loaded = self.row(m);
            add_dependent(&mut dependents, m as u32, loaded)?;
            let count = loaded.len();
            order.pending.push(count)?;
            if count == 0 {
                order.modules.push(m as u32)?;
            }
        }
        Ok((order, dependents))
    }
}

/// Adds one more dependent, of each module that it loads.
fn add_dependent(dependents: &mut Vec<Vec<u32>>, u: u32, loaded: &[u32]) -> Result<(), AllocError>
    requires { (l : ℕ) → Has loaded.now l → l < length dependents.old.items }
    ensures { OnOk result (Adds u loaded.now (lists dependents.old.items) (lists dependents.new.items)) }
{
    for l in loaded {
        dependents[*l as usize].push(u)?;
    }
    Ok(())
}

/// Takes one pending load from each dependent. Those that have none left join the order.
fn settle(
    pending: &mut Vec<usize>,
    order: &mut Vec<u32>,
    dependents: &[u32],
) -> Result<(), AllocError>
    requires known { (u : ℕ) → Has dependents.now u → u < length pending.old.items }
    requires pending { (u : ℕ) → times u dependents.now ≤ get_or pending.old.items u 0 }
    ensures { OnOk result (Settles dependents.now pending.old.items pending.new.items order.old.items order.new.items) }
{
    for dependent in dependents {
        let u = *dependent as usize;
        let left = pending[u] - 1;
        pending[u] = left;
        if left == 0 {
            order.push(*dependent)?;
        }
    }
    Ok(())
}
