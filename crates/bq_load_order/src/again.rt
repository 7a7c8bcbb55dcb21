//! The outcomes of all modules.

ghost use Rattle.std.specs.Prelude.{◌≡◌, [], length, map, IfOk};
ghost use Rattle.bq_load_order.specs.Outcome.{outcome};
ghost use Rattle.bq_load_order.specs.SharedOutcomes.{shown, slot};
ghost use Rattle.bq_load_order.specs.Slots.{Filling, Tabulates};
ghost use Rattle.bq_load_order.specs.Again.{had, AreUnchanged};

use crate::before::{After, PreviousOutcomes};
use crate::evaluate::Evaluate;
use crate::keep::kept_in_order;
use crate::outcomes::complete;
use crate::shared::SharedOutcome;
use crate::watch::Watch;
use bq_board_plan::Graph;
use std::alloc::{AllocError, Global};

/// Returns a slot for each module of a load graph, with its outcome if it keeps the one that it had. `was` has for each
/// module that is unchanged the number that it had before. A module keeps its outcome if it is unchanged and isn't too
/// deep, all its loads keep theirs, and it had a value or a fault of its own. Nothing is evaluated.
pub fn kept_outcomes<E: Evaluate>(
    alloc: Global,
    before: &PreviousOutcomes<'_, E::Value, E::Fault>,
    evaluator: &E,
    graph: &Graph,
    was: &[Option<u32>],
) -> Result<Vec<Option<SharedOutcome<E::Value, E::Fault>>>, AllocError>
    requires before { length before.now.outcomes.now ≡ length before.now.graph.now }
    requires unchanged { AreUnchanged (had (map (shown E.see E.see_fault) before.now.outcomes.now)) before.now.graph.now (E.means evaluator.now) was.now }
    ensures { IfOk result (λ v. Filling (outcome (E.means evaluator.now) graph.now) (length graph.now) (map (slot E.see E.see_fault) v.items) []) }
{
    let order = graph.topological_order(alloc)?;
    let after = After {
        evaluator,
        graph,
        order: &order,
        was,
    };
    kept_in_order(alloc, before, &after)
}

/// Returns the outcome of each module of a load graph after a change, on one thread: what
/// `crate::outcomes::outcomes_one_thread` returns. The evaluator is called for modules alone that keep no outcome, as
/// [`kept_outcomes`] says, and notifies the watch.
pub fn outcomes_again<E: Evaluate, W: Watch>(
    alloc: Global,
    before: &PreviousOutcomes<'_, E::Value, E::Fault>,
    evaluator: &E,
    graph: &Graph,
    was: &[Option<u32>],
    watch: &W,
) -> Result<Vec<SharedOutcome<E::Value, E::Fault>>, AllocError>
    requires before { length before.now.outcomes.now ≡ length before.now.graph.now }
    requires unchanged { AreUnchanged (had (map (shown E.see E.see_fault) before.now.outcomes.now)) before.now.graph.now (E.means evaluator.now) was.now }
    ensures { IfOk result (λ v. Tabulates (length graph.now) (outcome (E.means evaluator.now) graph.now) (map (shown E.see E.see_fault) v.items)) }
{
    let order = graph.topological_order(alloc)?;
    let after = After {
        evaluator,
        graph,
        order: &order,
        was,
    };
    let found = kept_in_order(alloc, before, &after)?;
    complete(alloc, evaluator, graph, &order, found, watch)
}
