//! How many modules are finished.
ghost use Rattle.std.specs.Prelude.{◌≡◌, ℕ, ◌≤◌, length};
ghost use Rattle.bq_board_plan.specs.Counts.{Has};
ghost use Rattle.bq_board.specs.Seats.{IsSeatOf, view_of};
ghost use Rattle.bq_board.specs.Steps.{with_count};

use crate::board::{Board, Seat};
use crate::parcel::Parcel;
use crate::steps::LoadDone;

impl<V: Parcel> Board<V> {
    /// Returns the number of finished modules at one step of this call, and appends it to this seat's counts.
    pub fn done(&self, seat: &mut Seat<V>) -> u64
        requires { IsSeatOf self.now seat.old }
        ensures seat { IsSeatOf self.now seat.new }
        ensures joined { view_of seat.new ≡ with_count (view_of seat.old) result }
        ensures finished { length (view_of seat.old).finished ≤ result }
        ensures earlier { (n : ℕ) → Has (view_of seat.old).counts n → n ≤ result }
        ensures most { result ≤ length self.now.plan }
    {
        self.table.shared.load::<LoadDone>(&mut seat.place, 0)
    }
}
