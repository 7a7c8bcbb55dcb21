//! Claims: a module goes to the seat that wins it.
ghost use Rattle.std.specs.Prelude.{◌≡◌, ◌+◌, ◌<◌, length, IsTrue, ◌↔◌};
ghost use Rattle.bq_board.specs.Board.{Posted};
ghost use Rattle.bq_board.specs.Claims.{Answered};
ghost use Rattle.bq_board.specs.Conditions.{Holds};
ghost use Rattle.bq_board.specs.Seats.{IsSeatOf, view_of};

use crate::board::{Board, Seat};
use crate::parcel::Parcel;
use crate::steps::{Look, TryClaim};

/// What a claim found.
#[derive(Clone, Copy, Debug, PartialEq, Eq)]
pub enum Claim {
    /// The module is this seat's: all edges into it are posted, and no seat had claimed it.
    Won,
    /// A seat has claimed it.
    Taken,
    /// This edge into it isn't posted yet.
    Waiting(usize),
}

impl<V: Parcel> Board<V> {
    /// Claims module `m`, if all edges into it are posted and no seat has it.
    ///
    /// `Won`: a module that is new to this seat, at a step at which no seat had it, with all edges into it posted.
    /// `Taken`: at a step of this call a seat had it. It is always the answer once `done` has returned the number of
    /// modules to this seat. `Waiting(edge)`: that edge into `m` wasn't posted at a step of this call. This seat has
    /// neither posted it nor seen it posted.
    pub fn claim(&self, seat: &mut Seat<V>, m: usize) -> Claim
        requires seat { IsSeatOf self.now seat.old }
        requires module { m < length self.now.plan }
        ensures seat { IsSeatOf self.now seat.new }
        ensures answer { Answered (view_of seat.old) m result (view_of seat.new) }
    {
        let modules = self.plan.modules();
        let from = self.plan.start(m);
        let to = self.plan.start(m + 1);
        let mut e = from;
        while e < to {
            let shared = &self.table.shared;
            let found = shared.load::<Look>(&mut seat.place, 1 + modules + e);
            if !is_posted(found) {
                return Claim::Waiting(e);
            }
            e += 1;
        }
        let shared = &self.table.shared;
        let found = shared.compare_exchange::<TryClaim>(&mut seat.place, 1 + m, 0, 1);
        if found == 0 { Claim::Won } else { Claim::Taken }
    }

    /// Claims module `m`, and returns whether this seat won it. If so, the seat may fetch the edges into it, and must post
    /// the edges out of it and finish it.
    pub fn wins(&self, seat: &mut Seat<V>, m: usize) -> bool
        requires seat { IsSeatOf self.now seat.old }
        requires module { m < length self.now.plan }
        ensures seat { IsSeatOf self.now seat.new }
        ensures holds { IsTrue result → Holds self.now.plan (view_of seat.new) m }
        ensures finished { (view_of seat.new).finished ≡ (view_of seat.old).finished }
    {
        match self.claim(seat, m) {
            Claim::Won => true,
            Claim::Taken => false,
            Claim::Waiting(_) => false,
        }
    }
}

fn is_posted(word: u64) -> bool
    ensures { IsTrue result ↔ Posted word }
{
    word == 1 || word == 2
}
