//! The rule that every step on the board's table keeps.
ghost use Rattle.std.specs.Prelude.{◌-◌};
ghost use Rattle.bq_board.specs.Board.{RuleHolds, blank_with};

use crate::parcel::Parcel;
use crate::view::View;
use atomic_table::TableRule;
use bq_board_plan::Plan;
use std::marker::PhantomData;
use std::snapshot::Snapshot;

/// What the rule reads and no step changes.
#[derive(Drop)]
pub struct RuleContext<B> {
    pub plan: Snapshot<Plan>,
    pub base: Snapshot<B>,
    pub seats: Snapshot<usize>,
}

pub struct Rule<V> {
    of: PhantomData<V>,
}

impl<V: Parcel> TableRule<Option<V>, View<V::Base>, RuleContext<V::Base>> for Rule<V> {
    ghost holds = { λ key. RuleHolds V.belongs key.base.value key.plan.value key.seats.value };

    ghost first = { λ key. blank_with key.base.value key.plan.value (key.seats.value - 1) };
}
