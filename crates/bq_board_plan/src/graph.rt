//! Load graphs: for each module, by number, the modules that it loads.
ghost use Rattle.std.specs.Prelude.{◌≡◌, ℕ, ◌+◌, ◌<◌, ◌≤◌, ◌↔◌, List, [], length, vec_len, IfOk, OnOk, IfErr, IfSome, OnSome, IfNone, IsTrue};
ghost use Rattle.bq_base.specs.Limits.{AreBounded, standard};
ghost use Rattle.bq_board_plan.specs.Counts.{Has};
ghost use Rattle.bq_board_plan.specs.Graph.{row, edges, Known, Fits, IsGraph, lists};
ghost use Rattle.bq_board_plan.specs.Refusal.{Refused, RefusedWithin};

use crate::refusal::PlanErr;
use bq_base::Limits;
use std::alloc::{AllocError, Global};
use std::marker::Model;

/// For each module the modules that it loads. A contract sees it as the list of these lists.
#[derive(Drop)]
pub struct Graph {
    pub(crate) rows: Vec<Vec<u32>>,
}

impl Model for Graph {
    ghost Value = { List (List ℕ) };

    ghost view = { λ g. lists g.rows.items };

    ghost invariant = { λ g. IsGraph (lists g.rows.items) };
}

impl Graph {
    /// Makes the graph in which module `m` loads the modules `rows[m]`, in this order.
    /// P3 for more modules or edges than the standard limits, then P2 for a loaded module that the graph doesn't have.
    pub fn new(rows: Vec<Vec<u32>>) -> Result<Graph, PlanErr>
        ensures graph { IfOk result (λ g. g ≡ lists rows.items) }
        ensures valid { OnOk result (IsGraph (lists rows.items)) }
        ensures fits { OnOk result (Fits standard (lists rows.items)) }
        ensures refused { IfErr result (λ e. Refused (lists rows.items) e) }
    {
        Graph::within(Limits::standard(), rows)
    }

    /// Makes the graph, as [`Graph::new`] does, by these limits. A module that is loaded twice makes two edges.
    pub fn within(limits: Limits, rows: Vec<Vec<u32>>) -> Result<Graph, PlanErr>
        requires { AreBounded limits }
        ensures graph { IfOk result (λ g. g ≡ lists rows.items) }
        ensures valid { OnOk result (IsGraph (lists rows.items)) }
        ensures fits { OnOk result (Fits limits (lists rows.items)) }
        ensures refused { IfErr result (λ e. RefusedWithin limits (lists rows.items) e) }
    {
        if !keeps(limits, rows.as_slice()) {
            return Err(PlanErr::TooMany);
        }
        if !knows_all(rows.as_slice()) {
            return Err(PlanErr::BadIndex);
        }
        Ok(Graph { rows })
    }

    /// Makes the graph, as [`Graph::within`] does, of modules that load modules of the graph alone; `None` if it breaks the
    /// limits.
    pub fn of_known(limits: Limits, rows: Vec<Vec<u32>>) -> Option<Graph>
        requires bounded { AreBounded limits }
        requires known { Known (lists rows.items) }
        ensures graph { IfSome result (λ g. g ≡ lists rows.items) }
        ensures valid { OnSome result (IsGraph (lists rows.items)) }
        ensures fits { OnSome result (Fits limits (lists rows.items)) }
        ensures refused { IfNone result (¬ Fits limits (lists rows.items)) }
    {
        if !keeps(limits, rows.as_slice()) {
            return None;
        }
        Some(Graph { rows })
    }

    /// Returns the number of modules.
    pub fn len(&self) -> usize
        ensures len { result ≡ length self.now }
        ensures valid { IsGraph self.now }
    {
        self.rows.len()
    }

    /// Returns the modules that module `m` loads.
    pub fn row(&self, m: usize) -> &[u32]
        requires { m < length self.now }
        ensures row { result.now ≡ row self.now m }
        ensures valid { IsGraph self.now }
    {
        self.rows[m].as_slice()
    }

    /// Copies the graph.
    #[tactic(auto, using(crate::proofs::Copied::next_row, crate::proofs::Copied::all_rows, crate::proofs::Copied::is_graph))]
    pub fn copy(&self, alloc: Global) -> Result<Graph, AllocError>
        ensures { IfOk result (λ copy. copy ≡ self.now) }
    {
        let mut rows = Vec::with_capacity(alloc, self.len())?;
        for m in 0..self.len() {
            rows.push(self.row(m).to_vec(alloc)?)?;
        }
        Ok(Graph { rows })
    }
}

/// Returns whether the graph of these rows keeps the limits.
fn keeps(limits: Limits, rows: &[Vec<u32>]) -> bool
    requires { AreBounded limits }
    ensures { IsTrue result ↔ Fits limits (lists rows.now) }
{
    if rows.len() > limits.modules {
        return false;
    }
    has_few_edges(rows, limits.edges)
}

/// Returns whether the rows have at most so many entries.
fn has_few_edges(rows: &[Vec<u32>], most: usize) -> bool
    ensures { IsTrue result ↔ (edges (lists rows.now) ≤ most) }
{
    let mut left = most;
    for row in rows {
        if row.len() > left {
            return false;
        }
        left -= row.len();
    }
    true
}

/// Returns whether each entry is the number of a row.
fn knows_all(rows: &[Vec<u32>]) -> bool
    ensures { IsTrue result ↔ Known (lists rows.now) }
{
    for row in rows {
        if !is_below(row.as_slice(), rows.len()) {
            return false;
        }
    }
    true
}

fn is_below(loaded: &[u32], bound: usize) -> bool
    ensures { IsTrue result ↔ ((l : ℕ) → Has loaded.now l → l < bound) }
{
    for l in loaded {
        if *l as usize >= bound {
            return false;
        }
    }
    true
}

/// Makes `n` rows without entries.
pub(crate) fn empty_rows(alloc: Global, n: usize) -> Result<Vec<Vec<u32>>, AllocError>
    ensures { IfOk result (λ v. (vec_len v ≡ n) × ((m : ℕ) → row (lists v.items) m ≡ [])) }
{
    let mut rows = Vec::new(alloc);
    for _ in 0..n {
        rows.push(Vec::new(alloc))?;
    }
    Ok(rows)
}
