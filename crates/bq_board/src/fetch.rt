//! Fetches: the parcel of an edge goes to the seat that claimed its target.
ghost use Rattle.std.specs.Prelude.{◌≡◌, ℕ, ◌<◌};
ghost use Rattle.bq_board_plan.specs.Counts.{Has};
ghost use Rattle.bq_board_plan.specs.Graph.{edges};
ghost use Rattle.bq_board_plan.specs.Plan.{source, Into};
ghost use Rattle.bq_board.specs.Seats.{IsSeatOf, base_of, view_of};
ghost use Rattle.bq_board.specs.Steps.{with_fetched};

use crate::board::{Board, Seat};
use crate::parcel::Parcel;
use crate::steps::FetchEdge;

impl<V: Parcel> Board<V> {
    /// Takes the parcel of an edge into a module that this seat claimed. Each edge is fetched once.
    /// The parcel belongs to the edge's source.
    pub fn fetch(&self, seat: &mut Seat<V>, edge: usize) -> V
        requires seat { IsSeatOf self.now seat.old }
        requires edge { edge < edges self.now.plan }
        requires claimed { (m : ℕ) × Has (view_of seat.old).claimed m × Into self.now.plan m edge }
        requires once { ¬ Has (view_of seat.old).fetched edge }
        ensures seat { IsSeatOf self.now seat.new }
        ensures fetched { view_of seat.new ≡ with_fetched (view_of seat.old) edge }
        ensures belongs { V.belongs (base_of self.now) (source self.now.plan edge) result }
    {
        let modules = self.plan.modules();
        let shared = &self.table.shared;
        shared.store::<FetchEdge<V>>(&mut seat.place, 1 + modules + edge, 2);
        shared.exchange(&mut seat.place, edge, None).unwrap()
    }
}
