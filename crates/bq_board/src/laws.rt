//! The board's rule as its users see it: what holds between any two steps, whatever the seats did, in whatever order.
//! Each function does nothing; its contract is the law.
ghost use Rattle.bq_board.specs.Laws.{ByRule, EdgeLaw, ModuleLaw, LoadLaw, OwnerLaw, DoneLaw, SlotLaw, NoteLaw, SeatLaw};

use crate::parcel::Parcel;

/// An edge's word is 0 exactly where no seat opened it, 3 exactly where one opened it and none posted it, 1 exactly
/// where one posted it and none fetched it, and 2 exactly where one fetched it. Each edge is opened, posted and fetched
/// at most once, over all seats.
pub fn edge_law<V: Parcel>()
    ensures { ByRule V.belongs EdgeLaw }
{}

/// A module's word is 1 exactly where a seat claimed it, and else 0. Each module is claimed at most once, over all seats.
pub fn module_law<V: Parcel>()
    ensures { ByRule V.belongs ModuleLaw }
{}

/// All edges into a claimed module are posted.
pub fn load_law<V: Parcel>()
    ensures { ByRule V.belongs LoadLaw }
{}

/// A seat that opened an edge claimed its source, one that posted it opened it, and one that fetched it claimed its
/// target. A seat that finished a module claimed it and posted all edges out of it, and finished it once.
pub fn owner_law<V: Parcel>()
    ensures { ByRule V.belongs OwnerLaw }
{}

/// The count of finished modules is how many all seats finished, and `done` returned no more to any seat.
pub fn done_law<V: Parcel>()
    ensures { ByRule V.belongs DoneLaw }
{}

/// An edge's slot is with the board and empty while its word is 0, with a seat at 3 and 2, and at 1 with the board and
/// filled by a parcel that belongs to the edge's source.
pub fn slot_law<V: Parcel>()
    ensures { ByRule V.belongs SlotLaw }
{}

/// An edge that a seat saw posted is posted, and a module that a seat found taken is claimed.
pub fn note_law<V: Parcel>()
    ensures { ByRule V.belongs NoteLaw }
{}

/// The seats, and those that may still be split off from them, are as many as the board was opened for.
/// `Board::open` returns that many, from which none may be split off: so there is no other, and the words are free.
pub fn seat_law<V: Parcel>()
    ensures { ByRule V.belongs SeatLaw }
{}
