//! The end of a module.
ghost use Rattle.std.specs.Prelude.{◌≡◌, ℕ, ◌<◌};
ghost use Rattle.bq_board_plan.specs.Counts.{Has};
ghost use Rattle.bq_board_plan.specs.Graph.{edges};
ghost use Rattle.bq_board_plan.specs.Plan.{source};
ghost use Rattle.bq_board.specs.Seats.{IsSeatOf, view_of};
ghost use Rattle.bq_board.specs.Steps.{with_finished};

use crate::board::{Board, Seat};
use crate::parcel::Parcel;
use crate::steps::{AddDone, Numbered};
use std::marker::Brand;

impl<V: Parcel> Board<V> {
    /// Finishes a module that this seat claimed and whose edges out it has posted. Each module is finished once.
    pub fn finish(&self, seat: &mut Seat<V>, m: usize)
        requires seat { IsSeatOf self.now seat.old }
        requires claimed { Has (view_of seat.old).claimed m }
        requires once { ¬ Has (view_of seat.old).finished m }
        requires out { (e : ℕ) → e < edges self.now.plan → source self.now.plan e ≡ m → Has (view_of seat.old).posted e }
        ensures seat { IsSeatOf self.now seat.new }
        ensures finished { view_of seat.new ≡ with_finished (view_of seat.old) m }
    {
        self.finish_as::<Brand>(seat, m);
    }

    // The step names its module by a type parameter, since the count doesn't.
    fn finish_as<M: Numbered>(&self, seat: &mut Seat<V>, _m: usize)
        requires seat { IsSeatOf self.now seat.old }
        requires number { _m ≡ M.number }
        requires claimed { Has (view_of seat.old).claimed M.number }
        requires once { ¬ Has (view_of seat.old).finished M.number }
        requires out { (e : ℕ) → e < edges self.now.plan → source self.now.plan e ≡ M.number → Has (view_of seat.old).posted e }
        ensures seat { IsSeatOf self.now seat.new }
        ensures finished { view_of seat.new ≡ with_finished (view_of seat.old) M.number }
    {
        self.table
            .shared
            .fetch_add::<AddDone<M>>(&mut seat.place, 0, 1);
    }
}
