//! The outcome of each module, by several workers.
ghost use Rattle.std.specs.Prelude.{[], map, length, All, IfOk, IsOk, OnOk};
ghost use Rattle.bq_board.specs.Seats.{IsSeatOf};
ghost use Rattle.bq_load_order.specs.Outcome.{outcome};
ghost use Rattle.bq_load_order.specs.SharedOutcomes.{shown, slot};
ghost use Rattle.bq_load_order.specs.Slots.{Filling, Tabulates};
ghost use Rattle.bq_load_workers.specs.Brought.{AreRight, IsAnswer};

use crate::evaluation::{GraphEvaluation, completed};
use crate::pool::{FinishedModule, WorkerPool, WorkerSeat};
use crate::threads::{Answer, brought};
use bq_load_order::{Evaluate, SharedOutcome, Watch, empty_slots, share};
use std::alloc::{AllocError, Global};
use std::sync::Wait;
use std::thread::Threads;

/// Returns the outcome of each module of a pool, by its seats, each in a thread of its own. The watch is notified of
/// each evaluation.
pub fn outcomes_by_workers<R: Threads + Wait + Sync, E: Evaluate, W: Watch>(
    rt: &R,
    alloc: Global,
    pool: &WorkerPool<E>,
    seats: Vec<WorkerSeat<E>>,
    watch: &W,
) -> Result<Vec<SharedOutcome<E::Value, E::Fault>>, AllocError>
    requires { All (λ s. IsSeatOf pool.now.board s.place) seats.items }
    ensures { IfOk result (λ v. Tabulates (length pool.now.graph) (outcome (E.means pool.now.evaluator) pool.now.graph) (map (shown E.see E.see_fault) v.items)) }
{
    let answers = brought(rt, alloc, pool, seats, watch)?;
    let found = found_by(alloc, pool, answers.as_slice())?;
    let by = GraphEvaluation {
        evaluator: &pool.evaluator,
        graph: &pool.graph,
        order: &pool.order,
    };
    completed(rt, alloc, &by, found, watch)
}

/// Returns a slot for each module, with what the workers brought, if none of them ran out of memory.
fn found_by<E: Evaluate>(
    alloc: Global,
    pool: &WorkerPool<E>,
    answers: &[Answer<E::Value, E::Fault>],
) -> Result<Vec<Option<SharedOutcome<E::Value, E::Fault>>>, AllocError>
    requires right { All (IsAnswer E.see E.see_fault (outcome (E.means pool.now.evaluator) pool.now.graph) (length pool.now.graph)) answers.now }
    ensures had { OnOk result (All IsOk answers.now) }
    ensures found { IfOk result (λ v. Filling (outcome (E.means pool.now.evaluator) pool.now.graph) (length pool.now.graph) (map (slot E.see E.see_fault) v.items) []) }
{
    let mut found = empty_slots(alloc, pool.graph.len())?;
    for answer in answers {
        match answer {
            Ok(worked) => put_all(pool, &mut found, worked.modules.as_slice())?,
            Err(_) => return Err(AllocError),
        }
    }
    Ok(found)
}

/// Puts what one worker brought into the slots.
fn put_all<E: Evaluate>(
    pool: &WorkerPool<E>,
    found: &mut Vec<Option<SharedOutcome<E::Value, E::Fault>>>,
    modules: &[FinishedModule<E::Value, E::Fault>],
) -> Result<(), AllocError>
    requires right { AreRight E.see E.see_fault (outcome (E.means pool.now.evaluator) pool.now.graph) (length pool.now.graph) modules.now }
    requires found { Filling (outcome (E.means pool.now.evaluator) pool.now.graph) (length pool.now.graph) (map (slot E.see E.see_fault) found.old.items) [] }
    ensures { OnOk result (Filling (outcome (E.means pool.now.evaluator) pool.now.graph) (length pool.now.graph) (map (slot E.see E.see_fault) found.new.items) []) }
{
    for brought in modules {
        let copy = share::<E>(&brought.outcome)?;
        found[brought.number as usize] = Some(copy);
    }
    Ok(())
}
