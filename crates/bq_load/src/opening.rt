//! How a pool begins, and how it ends.

ghost use Rattle.std.specs.Prelude.{◌≡◌, ◌<◌, ◌≤◌, length, All, IfOk, vec_len};
ghost use Rattle.bq_board.specs.Board.{blank};
ghost use Rattle.bq_board.specs.Seats.{IsSeatOf, base_of, view_of};
ghost use Rattle.bq_load_discover.specs.LoadGraph.{IsReadGraph, inputs_of};
ghost use Rattle.bq_load_order.specs.Outcome.{outcome};
ghost use Rattle.bq_load_workers.specs.Closing.{ClosesWith};
ghost use Rattle.bq_load_workers.specs.Work.{IsImport};
ghost use Rattle.bq_load.specs.Views.{module_view};
ghost use Rattle.bq_load.specs.Loading.{loading_of, loading_in};
ghost use Rattle.bq_load.specs.Evaluation.{means};
ghost use Rattle.bq_load.specs.Pool.{parts_of, loads_of};

use crate::loading::Loading;
use crate::pool::{Pool, PoolSeat};
use bq_board::{Graph, MAX_SEATS};
use bq_label::Workspace;
use bq_load_discover::LoadGraph;
use bq_package_schema::Schema;
use bq_value_datum::Seed;
use std::alloc::{AllocError, Global};

impl<'a> Pool<'a> {
    /// Opens a pool of the modules of the workspace's load graph, none of them begun, and its seats, which have done
    /// nothing. Each evaluation may take `limit` steps.
    pub fn open(
        alloc: Global,
        workspace: &'a Workspace,
        schema: &'a Schema,
        limit: u64,
        seed: Seed,
        graph: &'a LoadGraph,
        seats: usize,
    ) -> Result<(Pool<'a>, Vec<PoolSeat<'a>>), AllocError>
        requires graph { IsReadGraph (inputs_of workspace.now schema.now) graph.now }
        requires seats { (0 < seats) × (seats ≤ MAX_SEATS) }
        ensures decides { IfOk result (λ r. parts_of r.0 ≡ loading_in workspace.now schema.now limit graph.now) }
        ensures edges { IfOk result (λ r. loads_of r.0 ≡ graph.now.edges) }
        ensures count { IfOk result (λ r. vec_len r.1 ≡ seats) }
        ensures fresh { IfOk result (λ r. All (λ s. IsSeatOf r.0.shared.board s.place × (view_of s.place ≡ blank (base_of r.0.shared.board) r.0.shared.board.plan)) r.1.items) }
    {
        let loading = Loading::of(alloc, workspace, schema, limit, seed, graph)?;
        let edges = graph.edges().copy(alloc)?;
        let (shared, seats) = bq_load_workers::WorkerPool::open(alloc, loading, edges, seats)?;
        let pool = Pool { shared };
        Ok((pool, seats))
    }

    /// Returns what decides the outcomes of the modules.
    pub(crate) fn loading(&self) -> &Loading<'a>
        ensures value { result.now ≡ self.now.shared.evaluator }
        ensures wide { length (loads_of self.now) ≡ length result.now.modules.now }
    {
        self.shared.evaluator()
    }

    /// Returns which module loads which.
    pub(crate) fn edges(&self) -> &Graph
        ensures { result.now ≡ loads_of self.now }
    {
        self.shared.graph()
    }

    /// Drops the pool, and the modules that were posted and that nobody fetched. Its board ends in a state that meets
    /// the board's rule, in which this seat has done what its view says; what was posted and not fetched is the outcome
    /// of that module by the recursion along loads. Nothing is known of seats that were dropped before.
    pub fn close(self, seat: PoolSeat<'a>)
        requires seat { IsSeatOf self.shared.board seat.place }
        ensures rule { ClosesWith self.entry.shared.board seat.entry.place (λ base m x. IsImport module_view (outcome (means (loading_of base.evaluator.value)) base.graph.value) m x.number x.value) }
    {
        let Pool { shared } = self;
        shared.close(seat);
    }
}
