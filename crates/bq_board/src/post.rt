//! Posts: a seat leaves a parcel for an edge out of a module that it claimed.
ghost use Rattle.std.specs.Prelude.{◌≡◌, ◌<◌};
ghost use Rattle.bq_board_plan.specs.Counts.{Has};
ghost use Rattle.bq_board_plan.specs.Graph.{edges};
ghost use Rattle.bq_board_plan.specs.Plan.{source};
ghost use Rattle.bq_board.specs.Seats.{IsSeatOf, base_of, view_of};
ghost use Rattle.bq_board.specs.Steps.{with_opened, with_posted};

use crate::board::{Board, Seat};
use crate::parcel::Parcel;
use crate::steps::{OpenEdge, PostEdge};

impl<V: Parcel> Board<V> {
    /// Posts an edge out of a module that this seat claimed, with a parcel that belongs to that module. Each edge is posted once.
    pub fn post(&self, seat: &mut Seat<V>, edge: usize, parcel: V)
        requires seat { IsSeatOf self.now seat.old }
        requires edge { edge < edges self.now.plan }
        requires claimed { Has (view_of seat.old).claimed (source self.now.plan edge) }
        requires once { ¬ Has (view_of seat.old).posted edge }
        requires belongs { V.belongs (base_of self.now) (source self.now.plan edge) parcel }
        ensures seat { IsSeatOf self.now seat.new }
        ensures posted { view_of seat.new ≡ with_posted (with_opened (view_of seat.old) edge) edge }
    {
        let modules = self.plan.modules();
        let shared = &self.table.shared;
        shared.store::<OpenEdge>(&mut seat.place, 1 + modules + edge, 3);
        drop(shared.exchange(&mut seat.place, edge, Some(parcel)));
        shared.store::<PostEdge>(&mut seat.place, 1 + modules + edge, 1);
    }
}
