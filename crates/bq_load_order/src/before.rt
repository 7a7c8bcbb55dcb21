//! What is known before a load graph changes, and what it is after that.

use crate::shared::SharedOutcome;
use bq_board_plan::{Graph, Order};

/// A load graph, and the outcomes that its modules had.
#[derive(Drop)]
pub struct PreviousOutcomes<'a, V, F> {
    pub graph: &'a Graph,
    pub outcomes: &'a [SharedOutcome<V, F>],
}

/// A load graph with its topological order, what evaluates its modules, and for each that is unchanged the number that
/// it had.
#[derive(Drop)]
pub(crate) struct After<'a, E> {
    pub(crate) evaluator: &'a E,
    pub(crate) graph: &'a Graph,
    pub(crate) order: &'a Order,
    pub(crate) was: &'a [Option<u32>],
}
