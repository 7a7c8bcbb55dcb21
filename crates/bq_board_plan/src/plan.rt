//! Plans: load graphs without cyclic modules, with their edges numbered.
ghost use Rattle.std.specs.Prelude.{◌≡◌, ℕ, ◌+◌, ◌<◌, ◌≤◌, ◌^◌, List, length, IfOk, OnOk, IfErr};
ghost use Rattle.bq_base.specs.Limits.{AreBounded, standard};
ghost use Rattle.bq_board_plan.specs.Counts.{Has};
ghost use Rattle.bq_board_plan.specs.Cycles.{IsAcyclic};
ghost use Rattle.bq_board_plan.specs.Graph.{Loads, sources, edges, Fits, lists};
ghost use Rattle.bq_board_plan.specs.Plan.{start, Into, IsPlan, HasStarts, HasTargets, OutsOf, IsOut, AddsOuts, EdgesAreLoads, StartsAreSums};
ghost use Rattle.bq_board_plan.specs.Refusal.{Refused, RefusedWithin};

use crate::graph::{Graph, empty_rows};
use crate::refusal::PlanErr;
use bq_base::Limits;
use std::alloc::{AllocError, Global};
use std::marker::Model;

/// For each module the modules that it loads, and no module is cyclic. A contract sees it as the list of these lists.
#[derive(Drop)]
pub struct Plan {
    graph: Graph,
    /// Where the edges into each module begin, and at last the number of edges.
    starts: Vec<usize>,
    /// For each edge the module that it runs into.
    targets: Vec<u32>,
    /// For each module the edges out of it.
    outs: Vec<Vec<u32>>,
}

impl Model for Plan {
    ghost Value = { List (List ℕ) };

    ghost view = { λ p. p.graph };

    ghost invariant = { λ p. IsPlan p.graph × HasStarts p.graph p.starts.items × HasTargets p.graph p.targets.items
        × OutsOf (sources p.graph) (length p.graph) (lists p.outs.items) };
}

impl Plan {
    /// Makes the plan in which module `m` loads the modules `loads[m]`, in this order. The empty list is a plan. Edges
    /// are numbered by `m`, then by place; an edge's source is the loaded module, its target is `m`. P3 for more modules
    /// or edges than the standard limits, then P2 for a loaded module that isn't there, then P1 for a cyclic module; P4 if it runs out
    /// of memory. It takes time linear in modules and edges.
    pub fn new(alloc: Global, loads: Vec<Vec<u32>>) -> Result<Plan, PlanErr>
        ensures plan { IfOk result (λ p. p ≡ lists loads.items) }
        ensures valid { OnOk result (IsPlan (lists loads.items)) }
        ensures fits { OnOk result (Fits standard (lists loads.items)) }
        ensures refused { IfErr result (λ e. Refused (lists loads.items) e) }
    {
        Plan::within(alloc, Limits::standard(), loads)
    }

    /// Makes the plan, as [`Plan::new`] does, by these limits.
    pub fn within(alloc: Global, limits: Limits, loads: Vec<Vec<u32>>) -> Result<Plan, PlanErr>
        requires { AreBounded limits }
        ensures plan { IfOk result (λ p. p ≡ lists loads.items) }
        ensures valid { OnOk result (IsPlan (lists loads.items)) }
        ensures fits { OnOk result (Fits limits (lists loads.items)) }
        ensures refused { IfErr result (λ e. RefusedWithin limits (lists loads.items) e) }
    {
        let graph = Graph::within(limits, loads)?;
        if !graph.is_acyclic(alloc)? {
            return Err(PlanErr::Cyclic);
        }
        Ok(Plan::of(alloc, graph)?)
    }

    /// Makes the plan of a graph without cyclic modules.
    pub(crate) fn of(alloc: Global, graph: Graph) -> Result<Plan, AllocError>
        requires { IsAcyclic graph }
        ensures { IfOk result (λ p. p ≡ graph) }
    {
        let mut starts = Vec::new(alloc);
        let mut targets = Vec::new(alloc);
        let mut outs = empty_rows(alloc, graph.len())?;
        let mut next = 0;
        starts.push(next)?;
        for m in 0..graph.len() {
            let loaded = graph.row(m);
            add_outs(&mut outs, next as u32, loaded)?;
            next += loaded.len();
            starts.push(next)?;
            targets.resize(next, m as u32)?;
        }
        Ok(Plan {
            graph,
            starts,
            targets,
            outs,
        })
    }

    /// Returns the number of modules.
    pub fn modules(&self) -> usize
        ensures count { result ≡ length self.now }
        ensures valid { IsPlan self.now }
    {
        self.graph.len()
    }

    /// Returns the number of edges.
    pub fn edges(&self) -> usize
        ensures count { result ≡ edges self.now }
        ensures valid { IsPlan self.now }
    {
        self.starts[self.modules()]
    }

    /// Returns the number of the first edge into module `m`. For the number of modules it is the number of edges.
    pub fn start(&self, m: usize) -> usize
        requires { m ≤ length self.now }
        ensures number { result ≡ start self.now m }
        ensures within { result ≤ edges self.now }
        ensures valid { IsPlan self.now }
    {
        self.starts[m]
    }

    /// Returns the module that an edge runs into: one that loads the edge's source.
    pub fn target(&self, edge: usize) -> usize
        requires { edge < edges self.now }
        ensures into { Into self.now result edge }
        ensures within { result < length self.now }
        ensures valid { IsPlan self.now }
    {
        self.targets[edge] as usize
    }

    /// Returns the numbers of the edges out of module `m`: those into the modules that load it.
    pub fn edges_out(&self, m: usize) -> &[u32]
        requires { m < length self.now }
        ensures out { IsOut self.now m result.now }
    {
        self.outs[m].as_slice()
    }
}

/// The edges into a module are its loads: the edge at place `k` comes from the module that is loaded there, and there are no others.
pub fn edges_are_loads()
    ensures { (p : Loads) → EdgesAreLoads p }
{}

/// The edges into a module are as many as its loads, and those into the next module come right after them.
pub fn starts_are_sums()
    ensures { (p : Loads) → StartsAreSums p }
{}

/// Adds the edges into one more module, numbered from `first` on, each among those out of its source.
fn add_outs(outs: &mut Vec<Vec<u32>>, first: u32, loaded: &[u32]) -> Result<(), AllocError>
    requires known { (l : ℕ) → Has loaded.now l → l < length outs.old.items }
    requires few { first + length loaded.now < 2 ^ 32 }
    ensures { OnOk result (AddsOuts first loaded.now (lists outs.old.items) (lists outs.new.items)) }
{
    let mut e = first;
    for l in loaded {
        outs[*l as usize].push(e)?;
        e += 1;
    }
    Ok(())
}
