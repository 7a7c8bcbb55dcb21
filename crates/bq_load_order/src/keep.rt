//! The outcomes that modules keep.

ghost use Rattle.std.specs.Prelude.{◌≡◌, ℕ, ◌<◌, false, None, [], length, map, vec_len, IfOk, IfSome, OnOk};
ghost use Rattle.bq_board_plan.specs.Cycles.{is_cyclic};
ghost use Rattle.bq_board_plan.specs.Depth.{HasDepths};
ghost use Rattle.bq_board_plan.specs.Topological.{MarksCycles};
ghost use Rattle.bq_load_order.specs.Outcome.{outcome};
ghost use Rattle.bq_load_order.specs.SharedOutcomes.{shown, slot};
ghost use Rattle.bq_load_order.specs.Slots.{Filling, IsLoadOrder};
ghost use Rattle.bq_load_order.specs.Again.{number_at, had, ReachesHad, AreUnchanged, AreKept, Keeps, is_own};

use crate::before::{After, PreviousOutcomes};
use crate::evaluate::Evaluate;
use crate::outcome::Outcome;
use crate::same::{are_same, number_at};
use crate::shared::{SharedOutcome, share};
use crate::slots::empty_slots;
use std::alloc::{AllocError, Global};

/// What is known while modules are looked at: outcomes, and for each module that kept one the number that it had.
#[derive(Drop)]
struct KeptOutcomes<V, F> {
    found: Vec<Option<SharedOutcome<V, F>>>,
    numbers: Vec<Option<u32>>,
}

/// Returns whether an outcome is a value, or a fault of the module's own.
fn is_own<E: Evaluate>(outcome: &SharedOutcome<E::Value, E::Fault>) -> bool
    ensures { result ≡ is_own (shown E.see E.see_fault outcome.now) }
{
    match outcome {
        Outcome::Loaded(_) => true,
        Outcome::Faulty(_) => true,
        Outcome::Cyclic(_) => false,
        Outcome::TooDeep(_) => false,
        Outcome::LoadFailed(_) => false,
    }
}

/// Makes a place for the number of each of so many modules, without numbers.
fn no_numbers(alloc: Global, modules: usize) -> Result<Vec<Option<u32>>, AllocError>
    ensures { IfOk result (λ v. (vec_len v ≡ modules) × ((m : ℕ) → number_at v.items m ≡ None)) }
{
    let mut numbers = Vec::new(alloc);
    for _ in 0..modules {
        numbers.push(None)?;
    }
    Ok(numbers)
}

/// Returns the number of the module before the change whose outcome this module keeps, if there is one. The module
/// isn't cyclic.
fn kept_number<E: Evaluate>(
    before: &PreviousOutcomes<'_, E::Value, E::Fault>,
    after: &After<'_, E>,
    numbers: &[Option<u32>],
    m: u32,
) -> Option<u32>
    requires known { m < length after.now.graph.now }
    requires acyclic { is_cyclic after.now.graph.now m ≡ false }
    requires cyclic { MarksCycles after.now.graph.now after.now.order.now.pending.items }
    requires depths { HasDepths after.now.graph.now after.now.order.now.depths.items }
    requires unchanged { AreUnchanged (had (map (shown E.see E.see_fault) before.now.outcomes.now)) before.now.graph.now (E.means after.now.evaluator.now) after.now.was.now }
    requires kept { AreKept (had (map (shown E.see E.see_fault) before.now.outcomes.now)) (outcome (E.means after.now.evaluator.now) after.now.graph.now) before.now.graph.now after.now.was.now numbers.now }
    ensures known { IfSome result (λ k. k < length before.now.graph.now) }
    ensures keeps { IfSome result (λ k. Keeps (had (map (shown E.see E.see_fault) before.now.outcomes.now)) (outcome (E.means after.now.evaluator.now) after.now.graph.now) m k) }
    ensures reaches { IfSome result (λ k. ReachesHad before.now.graph.now after.now.was.now k) }
{
    let Some(k) = number_at(after.was, m) else {
        return None;
    };
    if k as usize >= before.graph.len() {
        return None;
    }
    if after.order.is_too_deep(after.graph, m as usize) {
        return None;
    }
    let loads = after.graph.row(m as usize);
    let loaded = before.graph.row(k as usize);
    if !are_same(numbers, loads, loaded) {
        return None;
    }
    Some(k)
}

/// Keeps the outcome of a module that isn't cyclic, if it is unchanged and its loads keep theirs.
fn keep_one<E: Evaluate>(
    before: &PreviousOutcomes<'_, E::Value, E::Fault>,
    after: &After<'_, E>,
    m: u32,
    kept: &mut KeptOutcomes<E::Value, E::Fault>,
) -> Result<(), AllocError>
    requires known { m < length after.now.graph.now }
    requires acyclic { is_cyclic after.now.graph.now m ≡ false }
    requires cyclic { MarksCycles after.now.graph.now after.now.order.now.pending.items }
    requires depths { HasDepths after.now.graph.now after.now.order.now.depths.items }
    requires before { length before.now.outcomes.now ≡ length before.now.graph.now }
    requires unchanged { AreUnchanged (had (map (shown E.see E.see_fault) before.now.outcomes.now)) before.now.graph.now (E.means after.now.evaluator.now) after.now.was.now }
    requires wide { vec_len kept.old.numbers ≡ length after.now.graph.now }
    requires found { Filling (outcome (E.means after.now.evaluator.now) after.now.graph.now) (length after.now.graph.now) (map (slot E.see E.see_fault) kept.old.found.items) [] }
    requires kept { AreKept (had (map (shown E.see E.see_fault) before.now.outcomes.now)) (outcome (E.means after.now.evaluator.now) after.now.graph.now) before.now.graph.now after.now.was.now kept.old.numbers.items }
    ensures wide { OnOk result (vec_len kept.new.numbers ≡ length after.now.graph.now) }
    ensures found { OnOk result (Filling (outcome (E.means after.now.evaluator.now) after.now.graph.now) (length after.now.graph.now) (map (slot E.see E.see_fault) kept.new.found.items) []) }
    ensures kept { OnOk result (AreKept (had (map (shown E.see E.see_fault) before.now.outcomes.now)) (outcome (E.means after.now.evaluator.now) after.now.graph.now) before.now.graph.now after.now.was.now kept.new.numbers.items) }
{
    let Some(k) = kept_number(before, after, kept.numbers.as_slice(), m) else {
        return Ok(());
    };
    let outcome = &before.outcomes[k as usize];
    if !is_own::<E>(outcome) {
        return Ok(());
    }
    let copy = share::<E>(outcome)?;
    kept.found[m as usize] = Some(copy);
    kept.numbers[m as usize] = Some(k);
    Ok(())
}

/// Returns a slot for each module, with its outcome if it keeps one.
pub(crate) fn kept_in_order<E: Evaluate>(
    alloc: Global,
    before: &PreviousOutcomes<'_, E::Value, E::Fault>,
    after: &After<'_, E>,
) -> Result<Vec<Option<SharedOutcome<E::Value, E::Fault>>>, AllocError>
    requires order { IsLoadOrder after.now.graph.now after.now.order.now.modules.items }
    requires cyclic { MarksCycles after.now.graph.now after.now.order.now.pending.items }
    requires depths { HasDepths after.now.graph.now after.now.order.now.depths.items }
    requires before { length before.now.outcomes.now ≡ length before.now.graph.now }
    requires unchanged { AreUnchanged (had (map (shown E.see E.see_fault) before.now.outcomes.now)) before.now.graph.now (E.means after.now.evaluator.now) after.now.was.now }
    ensures { IfOk result (λ v. Filling (outcome (E.means after.now.evaluator.now) after.now.graph.now) (length after.now.graph.now) (map (slot E.see E.see_fault) v.items) []) }
{
    let count = after.graph.len();
    let found = empty_slots(alloc, count)?;
    let numbers = no_numbers(alloc, count)?;
    let mut kept = KeptOutcomes { found, numbers };
    for m in after.order.modules.as_slice() {
        keep_one(before, after, *m, &mut kept)?;
    }
    Ok(kept.found)
}
