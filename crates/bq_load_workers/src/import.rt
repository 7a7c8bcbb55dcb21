//! What a module hands to the modules that load it.
ghost use Rattle.std.specs.Prelude.{◌≡◌};
ghost use Rattle.bq_load_order.specs.Outcome.{outcome};
ghost use Rattle.bq_load_workers.specs.Work.{IsImport};

use bq_board::{Graph, Parcel};
use bq_load_order::Evaluate;
use std::alloc::Global;
use std::snapshot::Snapshot;
use std::sync::Arc;

/// What decides the outcomes: the evaluator and the load graph. It occurs in contracts alone.
#[derive(Drop)]
pub struct Base<E> {
    pub evaluator: Snapshot<E>,
    pub graph: Snapshot<Graph>,
}

impl<E> Base<E> {
    pub(crate) fn of(evaluator: &E, graph: &Graph) -> Base<E>
        ensures { (result.evaluator.value ≡ evaluator.now) × (result.graph.value ≡ graph.now) }
    {
        Base {
            evaluator: Snapshot::of(evaluator),
            graph: Snapshot::of(graph),
        }
    }
}

/// A module, and its value, if it has one.
#[derive(Drop)]
pub struct Import<E: Evaluate> {
    pub number: u32,
    pub value: Option<Arc<E::Value, Global>>,
}

impl<E: Evaluate> Parcel for Import<E> {
    type Base = Base<E>;

    ghost belongs = { λ base m x. IsImport E.see (outcome (E.means base.evaluator.value) base.graph.value) m x.number x.value };
}
