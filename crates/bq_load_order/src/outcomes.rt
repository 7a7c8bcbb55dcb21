//! The outcomes of all modules, in load order.
ghost use Rattle.std.specs.Prelude.{◌≡◌, ℕ, [], length, map, IfOk, OnOk};
ghost use Rattle.bq_board_plan.specs.Depth.{HasDepths};
ghost use Rattle.bq_board_plan.specs.Topological.{MarksCycles};
ghost use Rattle.bq_load_order.specs.Outcome.{outcome};
ghost use Rattle.bq_load_order.specs.SharedOutcomes.{shown, slot};
ghost use Rattle.bq_load_order.specs.Slots.{Filling, IsLoadOrder, Puts, Ready, Tabulates};

use crate::evaluate::Evaluate;
use crate::imports::imported;
use crate::module::outcome_by;
use crate::outcome::Outcome;
use crate::shared::SharedOutcome;
use crate::slots::{all_settled, empty_slots, first_at_limit};
use crate::watch::Watch;
use bq_board_plan::{Graph, Order};
use std::alloc::{AllocError, Global};

/// A load graph with its topological order.
#[derive(Clone, Copy)]
struct OrderedGraph<'a> {
    graph: &'a Graph,
    order: &'a Order,
}

/// Returns the outcome of each module of a load graph. It calls the evaluator once for each module whose loads all have
/// values, and the evaluator notifies the watch.
pub fn outcomes_one_thread<E: Evaluate, W: Watch>(
    alloc: Global,
    evaluator: &E,
    graph: &Graph,
    watch: &W,
) -> Result<Vec<SharedOutcome<E::Value, E::Fault>>, AllocError>
    ensures { IfOk result (λ v. Tabulates (length graph.now) (outcome (E.means evaluator.now) graph.now) (map (shown E.see E.see_fault) v.items)) }
{
    let order = graph.topological_order(alloc)?;
    let found = empty_slots(alloc, graph.len())?;
    complete(alloc, evaluator, graph, &order, found, watch)
}

/// Returns the outcome of each module, where some are known.
pub fn complete<E: Evaluate, W: Watch>(
    alloc: Global,
    evaluator: &E,
    graph: &Graph,
    order: &Order,
    mut found: Vec<Option<SharedOutcome<E::Value, E::Fault>>>,
    watch: &W,
) -> Result<Vec<SharedOutcome<E::Value, E::Fault>>, AllocError>
    requires order { IsLoadOrder graph.now order.now.modules.items }
    requires cyclic { MarksCycles graph.now order.now.pending.items }
    requires depths { HasDepths graph.now order.now.depths.items }
    requires found { Filling (outcome (E.means evaluator.now) graph.now) (length graph.now) (map (slot E.see E.see_fault) found.items) [] }
    ensures { IfOk result (λ v. Tabulates (length graph.now) (outcome (E.means evaluator.now) graph.now) (map (shown E.see E.see_fault) v.items)) }
{
    let ordered = OrderedGraph { graph, order };
    for m in order.modules.as_slice() {
        fill_one(alloc, evaluator, &ordered, *m, &mut found, watch)?;
    }
    // PROOF: the outcomes are those of the settled
    Ok(all_settled::<E>(alloc, graph, order, found.as_slice())?)
}

/// Finds the outcome of a module that isn't cyclic and whose loads have theirs.
fn fill_one<E: Evaluate, W: Watch>(
    alloc: Global,
    evaluator: &E,
    ordered: &OrderedGraph<'_>,
    m: u32,
    found: &mut Vec<Option<SharedOutcome<E::Value, E::Fault>>>,
    watch: &W,
) -> Result<(), AllocError>
    requires cyclic { MarksCycles ordered.now.graph.now ordered.now.order.now.pending.items }
    requires depths { HasDepths ordered.now.graph.now ordered.now.order.now.depths.items }
    requires ready { Ready (outcome (E.means evaluator.now) ordered.now.graph.now) ordered.now.graph.now (map (slot E.see E.see_fault) found.old.items) m }
    ensures { OnOk result (Puts (outcome (E.means evaluator.now) ordered.now.graph.now) m (map (slot E.see E.see_fault) found.old.items) (map (slot E.see E.see_fault) found.new.items)) }
{
    if found[m as usize].is_some() {
        return Ok(());
    }
    let outcome = outcome_of(alloc, evaluator, ordered, m, found.as_slice(), watch)?;
    found[m as usize] = Some(outcome);
    Ok(())
}

/// Returns the outcome of a module that isn't cyclic, by what was found for its loads.
fn outcome_of<E: Evaluate, W: Watch>(
    alloc: Global,
    evaluator: &E,
    ordered: &OrderedGraph<'_>,
    m: u32,
    found: &[Option<SharedOutcome<E::Value, E::Fault>>],
    watch: &W,
) -> Result<SharedOutcome<E::Value, E::Fault>, AllocError>
    requires cyclic { MarksCycles ordered.now.graph.now ordered.now.order.now.pending.items }
    requires depths { HasDepths ordered.now.graph.now ordered.now.order.now.depths.items }
    requires ready { Ready (outcome (E.means evaluator.now) ordered.now.graph.now) ordered.now.graph.now (map (slot E.see E.see_fault) found.now) m }
    ensures { IfOk result (λ o. shown E.see E.see_fault o ≡ outcome (E.means evaluator.now) ordered.now.graph.now m) }
{
    let graph = ordered.graph;
    let order = ordered.order;
    let loads = graph.row(m as usize);
    if order.is_too_deep(graph, m as usize) {
        return Ok(Outcome::TooDeep(first_at_limit(order, graph, loads)));
    }
    let imports = imported::<E>(alloc, found, loads)?;
    // PROOF: the outcome is by these imports
    Ok(outcome_by(alloc, evaluator, m, imports, watch)?)
}
