//! How a board begins, and its seats.
ghost use Rattle.std.specs.Prelude.{◌≡◌, ◌-◌, ◌<◌, ◌≤◌, [], All, IfOk, vec_len};
ghost use Rattle.bq_board.specs.Board.{blank, blank_with, edge_word};
ghost use Rattle.bq_board_plan.specs.Graph.{edges};
ghost use Rattle.bq_board.specs.Seats.{IsSeatOf, base_of, seats_of, view_of};

use crate::board::{Board, BoardSeat, Seat};
use crate::parcel::Parcel;
use crate::rule::{Rule, RuleContext};
use crate::steps::Fresh;
use crate::view::View;
use atomic_table::Table;
use bq_board_plan::Plan;
use std::alloc::{AllocError, Global};
use std::snapshot::Snapshot;

type Opened<V> = (
    Table<Option<V>, View<<V as Parcel>::Base>, RuleContext<<V as Parcel>::Base>, Rule<V>, Global>,
    BoardSeat<V, <V as Parcel>::Base>,
);

/// The most seats that a board may have.
pub const MAX_SEATS: usize = 257;

impl<V: Parcel> Board<V> {
    /// Opens a board with all modules free and no edge posted, and all its seats, 1 to `MAX_SEATS`, which have done
    /// nothing. It allocates the memory for all that the seats' calls use.
    pub fn open(
        alloc: Global,
        plan: Plan,
        seats: usize,
        base: &V::Base,
    ) -> Result<(Board<V>, Vec<Seat<V>>), AllocError>
        requires { (0 < seats) × (seats ≤ MAX_SEATS) }
        ensures count { IfOk result (λ r. vec_len r.1 ≡ seats) }
        ensures plan { IfOk result (λ r. (r.0.plan ≡ plan) × (base_of r.0 ≡ base.now)) }
        // With `seat_law` the returned seats are all there are, so nothing was done before.
        ensures all { IfOk result (λ r. seats_of r.0 ≡ seats) }
        ensures fresh { IfOk result (λ r. All (λ s. IsSeatOf r.0 s × (view_of s ≡ blank base.now plan)) r.1.items) }
    {
        let (table, place) = free_table(alloc, &plan, seats, base)?;
        let board = Board { plan, table };
        let all = board.cut(alloc, Seat { place }, seats)?;
        Ok((board, all))
    }

    /// Returns the seats: `first`, and all that may be split off from it.
    fn cut(
        &self,
        alloc: Global,
        mut first: Seat<V>,
        seats: usize,
    ) -> Result<Vec<Seat<V>>, AllocError>
        requires seats { 0 < seats }
        requires fresh { IsSeatOf self.now first × (view_of first ≡ blank_with (base_of self.now) self.now.plan (seats - 1)) }
        ensures count { IfOk result (λ v. vec_len v ≡ seats) }
        ensures fresh { IfOk result (λ v. All (λ s. IsSeatOf self.now s × (view_of s ≡ blank (base_of self.now) self.now.plan)) v.items) }
    {
        let mut all = Vec::new(alloc);
        for _ in 1..seats {
            let place = self.table.shared.split_seat::<Fresh>(&mut first.place);
            all.push(Seat { place })?;
        }
        all.push(first)?;
        Ok(all)
    }
}

/// Makes the table of a board on which nothing was done yet, and the place of its one seat.
fn free_table<V: Parcel>(
    alloc: Global,
    plan: &Plan,
    seats: usize,
    base: &V::Base,
) -> Result<Opened<V>, AllocError>
    requires { 0 < seats }
    ensures key { IfOk result (λ t. (t.0.shared.key.plan.value ≡ plan.now) × (t.0.shared.key.base.value ≡ base.now) × (t.0.shared.key.seats.value ≡ seats)) }
    ensures size { IfOk result (λ t. (t.0.shared.table_id.words ≡ edge_word plan.now (edges plan.now)) × (t.0.shared.table_id.slots ≡ edges plan.now)) }
    ensures place { IfOk result (λ t. (t.1.table_id ≡ t.0.shared.table_id) × (t.1.me ≡ (blank_with base.now plan.now (seats - 1), []))) }
{
    let edges = plan.edges();
    let words = vec![in alloc; 0; 1 + plan.modules() + edges]?;
    let key = RuleContext {
        plan: Snapshot::of(plan),
        base: Snapshot::of(base),
        seats: Snapshot::of(&seats),
    };
    Table::vacant(alloc, words.as_slice(), edges, &key)
}
