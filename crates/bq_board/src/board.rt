//! The board and its seats.
ghost use Rattle.std.specs.Prelude.{◌≡◌};
ghost use Rattle.bq_board.specs.Board.{edge_word};
ghost use Rattle.bq_board_plan.specs.Graph.{edges};

use crate::parcel::Parcel;
use crate::rule::{Rule, RuleContext};
use crate::view::View;
use atomic_table::Table;
use bq_board_plan::Plan;
use std::alloc::Global;

pub type BoardSeat<V, B> = atomic_table::Seat<Option<V>, View<B>>;

/// Hands the modules of a plan to seats. Seats use it through a `&`, each in a thread of its own; no call but `open`
/// and `close` allocates or frees memory, and none waits.
#[derive(Drop)]
pub struct Board<V: Parcel> {
    pub(crate) plan: Plan,
    pub(crate) table: Table<Option<V>, View<V::Base>, RuleContext<V::Base>, Rule<V>, Global>,
    ghost key: { table.shared.key.plan.value ≡ plan },
    ghost wide: { table.shared.table_id.words ≡ edge_word plan (edges plan) },
    ghost deep: { table.shared.table_id.slots ≡ edges plan },
}

/// The right to use one board.
#[derive(Drop)]
pub struct Seat<V: Parcel> {
    pub(crate) place: BoardSeat<V, V::Base>,
}

impl<V: Parcel> Board<V> {
    /// Returns the plan whose modules the board hands out.
    pub fn plan(&self) -> &Plan
        ensures { result.now ≡ self.now.plan }
    {
        &self.plan
    }
}
