//! The outcomes that are known, in a slot for each module.
ghost use Rattle.std.specs.Prelude.{◌≡◌, ℕ, ◌<◌, false, None, length, map, vec_len, get_or, IfOk};
ghost use Rattle.bq_board_plan.specs.Counts.{Has};
ghost use Rattle.bq_board_plan.specs.Cycles.{is_cyclic, starts_path};
ghost use Rattle.bq_board_plan.specs.Depth.{max_load_depth, HasDepths};
ghost use Rattle.bq_board_plan.specs.Topological.{MarksCycles};
ghost use Rattle.bq_load_order.specs.Outcome.{first};
ghost use Rattle.bq_load_order.specs.SharedOutcomes.{shown, slot};
ghost use Rattle.bq_load_order.specs.Slots.{Tabulates, or_cyclic};

use crate::evaluate::Evaluate;
use crate::outcome::Outcome;
use crate::shared::{SharedOutcome, share};
use bq_board_plan::{Graph, Order};
use std::alloc::{AllocError, Global};

/// Makes a slot for each of a number of modules, without outcomes.
pub fn empty_slots<V: Drop, F: Drop>(
    alloc: Global,
    modules: usize,
) -> Result<Vec<Option<SharedOutcome<V, F>>>, AllocError>
    ensures { IfOk result (λ v. (vec_len v ≡ modules) × ((m : ℕ) → get_or v.items m None ≡ None)) }
{
    let mut slots = Vec::new(alloc);
    for _ in 0..modules {
        slots.push(None)?;
    }
    Ok(slots)
}

/// Returns the first of these loads that is cyclic, or 0 if none is. `order` is the graph's topological order.
pub fn first_cyclic(order: &Order, graph: &Graph, loads: &[u32]) -> u32
    requires cyclic { MarksCycles graph.now order.now.pending.items }
    requires known { (l : ℕ) → Has loads.now l → l < length graph.now }
    ensures { result ≡ first (is_cyclic graph.now) loads.now }
{
    for l in loads {
        if order.pending[*l as usize] > 0 {
            return *l;
        }
    }
    0
}

/// Returns the first of these loads at which a path of `MAX_LOAD_DEPTH` edges starts, or 0 if there is none. None of
/// them is cyclic.
pub fn first_at_limit(order: &Order, graph: &Graph, loads: &[u32]) -> u32
    requires depths { HasDepths graph.now order.now.depths.items }
    requires known { (l : ℕ) → Has loads.now l → l < length graph.now }
    requires acyclic { (l : ℕ) → Has loads.now l → is_cyclic graph.now l ≡ false }
    ensures { result ≡ first (starts_path graph.now max_load_depth) loads.now }
{
    for l in loads {
        if order.is_at_limit(graph, *l as usize) {
            return *l;
        }
    }
    0
}

/// Returns what was found for a module. A module for which nothing was found counts as cyclic.
fn settled<E: Evaluate>(
    graph: &Graph,
    order: &Order,
    found: &[Option<SharedOutcome<E::Value, E::Fault>>],
    m: usize,
) -> Result<SharedOutcome<E::Value, E::Fault>, AllocError>
    requires cyclic { MarksCycles graph.now order.now.pending.items }
    requires wide { length found.now ≡ length graph.now }
    requires known { m < length graph.now }
    ensures { IfOk result (λ o. shown E.see E.see_fault o ≡ or_cyclic graph.now (map (slot E.see E.see_fault) found.now) m) }
{
    match &found[m] {
        Some(outcome) => share::<E>(outcome),
        None => Ok(Outcome::Cyclic(first_cyclic(order, graph, graph.row(m)))),
    }
}

/// Returns what was found, for each module. Modules for which nothing was found count as cyclic.
pub fn all_settled<E: Evaluate>(
    alloc: Global,
    graph: &Graph,
    order: &Order,
    found: &[Option<SharedOutcome<E::Value, E::Fault>>],
) -> Result<Vec<SharedOutcome<E::Value, E::Fault>>, AllocError>
    requires cyclic { MarksCycles graph.now order.now.pending.items }
    requires wide { length found.now ≡ length graph.now }
    ensures { IfOk result (λ v. Tabulates (length graph.now) (or_cyclic graph.now (map (slot E.see E.see_fault) found.now)) (map (shown E.see E.see_fault) v.items)) }
{
    let mut all = Vec::new(alloc);
    for m in 0..graph.len() {
        all.push(settled::<E>(graph, order, found, m)?)?;
    }
    Ok(all)
}
