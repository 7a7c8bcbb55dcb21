//! The modules that have no outcome yet, evaluated one after another in a thread that has the stack for it.

ghost use Rattle.std.specs.Prelude.{◌≡◌, [], length, map, IfOk};
ghost use Rattle.bq_board.specs.Depth.{HasDepths};
ghost use Rattle.bq_board.specs.Topological.{MarksCycles};
ghost use Rattle.bq_load_order.specs.Outcome.{outcome};
ghost use Rattle.bq_load_order.specs.SharedOutcomes.{shown, slot};
ghost use Rattle.bq_load_order.specs.Slots.{Filling, IsLoadOrder, Tabulates};

use crate::import::Base;
use crate::threads::EVALUATION_STACK;
use bq_board::{Graph, Order};
use bq_load_order::{Evaluate, SharedOutcome, Watch, complete};
use core::thread::Stack;
use std::alloc::{AllocError, Global};
use std::sync::Wait;
use std::thread;
use std::thread::{Promise, Scope, Threads};

/// What is asked for where there is no room for that much: a fifth more than the deepest evaluation takes.
const LEAST_EVALUATION_STACK: usize = 40 << 20;

/// A load graph in topological order, and what evaluates its modules.
#[derive(Drop)]
pub struct GraphEvaluation<'a, E> {
    pub evaluator: &'a E,
    pub graph: &'a Graph,
    pub order: &'a Order,
}

impl<E: Evaluate> Promise<Result<Vec<SharedOutcome<E::Value, E::Fault>>, AllocError>> for Base<E> {
    ghost kept_by = { λ base r. IfOk r (λ v. Tabulates (length base.graph.value) (outcome (E.means base.evaluator.value) base.graph.value) (map (shown E.see E.see_fault) v.items)) };
}

/// Evaluates in a thread with the least stack, or if there is none, on this one's.
fn on_the_least_stack<
    's,
    X,
    R: Threads + Wait,
    P: Promise<T> + Drop,
    F: FnOnce() -> T + Send + 's,
    T: Send + Drop + 's,
>(scope: &Scope<'s, X>, rt: &R, promise: P, evaluate: F) -> T
    requires runs { F.pre evaluate }
    requires keeps { (r : T) → F.post evaluate r → P.kept_by promise r }
    ensures { P.kept_by promise result }
{
    match Stack::new()
        .stack_size(LEAST_EVALUATION_STACK)
        .spawn_scoped_with(scope, promise, evaluate)
    {
        Ok(thread) => thread.join(rt),
        Err(refused) => (refused.value)(),
    }
}

/// Returns the outcome of each module, where some are known. The others are evaluated in a thread, or if there is none,
/// on this one's stack. The watch is notified of each evaluation.
pub fn completed<R: Threads + Wait + Sync, E: Evaluate, W: Watch>(
    rt: &R,
    alloc: Global,
    by: &GraphEvaluation<'_, E>,
    found: Vec<Option<SharedOutcome<E::Value, E::Fault>>>,
    watch: &W,
) -> Result<Vec<SharedOutcome<E::Value, E::Fault>>, AllocError>
    requires order { IsLoadOrder by.now.graph.now by.now.order.now.modules.items }
    requires cyclic { MarksCycles by.now.graph.now by.now.order.now.pending.items }
    requires depths { HasDepths by.now.graph.now by.now.order.now.depths.items }
    requires found { Filling (outcome (E.means by.now.evaluator.now) by.now.graph.now) (length by.now.graph.now) (map (slot E.see E.see_fault) found.items) [] }
    ensures { IfOk result (λ v. Tabulates (length by.now.graph.now) (outcome (E.means by.now.evaluator.now) by.now.graph.now) (map (shown E.see E.see_fault) v.items)) }
{
    thread::scope(
        thread::scope_env(),
        rt,
        |scope| -> Result<Vec<SharedOutcome<E::Value, E::Fault>>, AllocError>
            requires order { IsLoadOrder by.now.graph.now by.now.order.now.modules.items }
            requires cyclic { MarksCycles by.now.graph.now by.now.order.now.pending.items }
            requires depths { HasDepths by.now.graph.now by.now.order.now.depths.items }
            requires found { Filling (outcome (E.means by.now.evaluator.now) by.now.graph.now) (length by.now.graph.now) (map (slot E.see E.see_fault) found.items) [] }
            ensures { IfOk result (λ v. Tabulates (length by.entry.now.graph.now) (outcome (E.means by.entry.now.evaluator.now) by.entry.now.graph.now) (map (shown E.see E.see_fault) v.items)) }
        {
            let evaluate = move || -> Result<Vec<SharedOutcome<E::Value, E::Fault>>, AllocError>
                requires order { IsLoadOrder by.now.graph.now by.now.order.now.modules.items }
                requires cyclic { MarksCycles by.now.graph.now by.now.order.now.pending.items }
                requires depths { HasDepths by.now.graph.now by.now.order.now.depths.items }
                requires found { Filling (outcome (E.means by.now.evaluator.now) by.now.graph.now) (length by.now.graph.now) (map (slot E.see E.see_fault) found.items) [] }
                ensures { IfOk result (λ v. Tabulates (length by.entry.now.graph.now) (outcome (E.means by.entry.now.evaluator.now) by.entry.now.graph.now) (map (shown E.see E.see_fault) v.items)) }
            { complete(alloc, by.evaluator, by.graph, by.order, found, watch) };
            let base = Base::of(by.evaluator, by.graph);
            match Stack::new()
                .stack_size(EVALUATION_STACK)
                .spawn_scoped_with(scope, base, evaluate)
            {
                Ok(thread) => thread.join(rt),
                Err(refused) => {
                    let base = Base::of(by.evaluator, by.graph);
                    on_the_least_stack(scope, rt, base, refused.value)
                }
            }
        },
    )
}
