//! The end of a pool.
ghost use Rattle.std.specs.Prelude.{◌≡◌};
ghost use Rattle.bq_board.specs.Seats.{IsSeatOf};
ghost use Rattle.bq_load_order.specs.Outcome.{outcome};
ghost use Rattle.bq_load_workers.specs.Closing.{ClosesWith};
ghost use Rattle.bq_load_workers.specs.Work.{IsImport};

use crate::pool::{WorkerPool, WorkerSeat};
use bq_board::Graph;
use bq_load_order::Evaluate;

impl<E: Evaluate + Drop> WorkerPool<E> {
    /// Drops the pool, and the values that were posted and that nobody fetched. Its board ends in a state that meets
    /// the board's rule, in which this seat has done what its view says; a value that was posted and not fetched is
    /// that of its module. Nothing is known of seats that were dropped before.
    pub fn close(self, seat: WorkerSeat<E>)
        requires seat { IsSeatOf self.board seat.place }
        ensures rule { ClosesWith self.board seat.place (λ base m x. IsImport E.see (outcome (E.means base.evaluator.value) base.graph.value) m x.number x.value) }
    {
        let WorkerPool { board, .. } = self;
        let WorkerSeat { place, .. } = seat;
        board.close(place);
    }
}

impl<E: Evaluate> WorkerPool<E> {
    /// Drops the pool, and returns what evaluates its modules and which loads which. Nothing is known of its seats.
    pub fn into_parts(self) -> (E, Graph)
        ensures { (result.0 ≡ self.evaluator) × (result.1 ≡ self.graph) }
    {
        let WorkerPool {
            evaluator,
            graph,
            ..
        } = self;
        (evaluator, graph)
    }
}
