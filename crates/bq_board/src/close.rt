//! The end of a board.
ghost use Rattle.bq_board.specs.Closing.{EndsWith};
ghost use Rattle.bq_board.specs.Seats.{IsSeatOf, base_of, seats_of, view_of};

use crate::board::{Board, Seat};
use crate::parcel::Parcel;

impl<V: Parcel> Board<V> {
    /// Drops the board and the parcels left in it. The board ends in a state that meets its rule, in which this seat
    /// has done what its view says. Nothing is known of seats that were dropped before.
    pub fn close(self, seat: Seat<V>)
        requires seat { IsSeatOf self seat }
        ensures rule { EndsWith V.belongs (base_of self) self.plan (seats_of self) seat.place.id (view_of seat) }
    {
        let Board { plan, table } = self;
        let mut closed = table.close_with(seat.place);
        for i in 0..closed.slot_count() {
            drop(closed.take(i));
        }
        closed.free();
        drop(plan);
    }
}
