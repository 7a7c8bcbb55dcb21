//! What a worker does.
ghost use Rattle.std.specs.Prelude.{◌≡◌, length, IfOk, IsTrue};
ghost use Rattle.bq_board.specs.Counts.{Has};
ghost use Rattle.bq_board.specs.Seats.{IsSeatOf, view_of};
ghost use Rattle.bq_load_workers.specs.Brought.{BringsMore, BroughtOf};

use crate::candidates::Next;
use crate::pool::{FinishedModule, WorkDone, WorkerPool, WorkerSeat};
use bq_load_order::{Evaluate, Watch};
use std::alloc::{AllocError, Global};
use std::sync::Wait;
use std::sync::atomic::Ordering;

impl<E: Evaluate> WorkerPool<E> {
    /// Evaluates modules that nobody else has, each after all that it loads, until all are finished, or a worker
    /// stopped all. The watch is notified of each evaluation. It returns exactly the modules that this seat finished in
    /// this call, in that order, each with its outcome, and `all` only if this seat found all modules finished.
    pub fn work<R: Wait, W: Watch>(
        &self,
        rt: &R,
        alloc: Global,
        seat: &mut WorkerSeat<E>,
        watch: &W,
    ) -> Result<WorkDone<E::Value, E::Fault>, AllocError>
        requires seat { IsSeatOf self.now.board seat.old.place }
        ensures seat { IsSeatOf self.now.board seat.new.place }
        ensures brought { IfOk result (λ w. BroughtOf E.see E.see_fault (E.means self.now.evaluator) self.now.graph (view_of seat.old.place).finished (view_of seat.new.place).finished w.modules.items) }
        ensures all { IfOk result (λ w. IsTrue w.all → Has (view_of seat.new.place).counts (length self.now.graph)) }
    {
        let worked = self.run(rt, alloc, seat, watch);
        if worked.is_err() {
            self.halt();
        }
        worked
    }

    /// Works until all modules are finished, all workers are to stop, or memory is refused.
    fn run<R: Wait, W: Watch>(
        &self,
        rt: &R,
        alloc: Global,
        seat: &mut WorkerSeat<E>,
        watch: &W,
    ) -> Result<WorkDone<E::Value, E::Fault>, AllocError>
        requires seat { IsSeatOf self.now.board seat.old.place }
        ensures seat { IsSeatOf self.now.board seat.new.place }
        ensures brought { IfOk result (λ w. BroughtOf E.see E.see_fault (E.means self.now.evaluator) self.now.graph (view_of seat.old.place).finished (view_of seat.new.place).finished w.modules.items) }
        ensures all { IfOk result (λ w. IsTrue w.all → Has (view_of seat.new.place).counts (length self.now.graph)) }
    {
        let count = self.graph.len() as u64;
        let mut modules = Vec::new(alloc);
        let mut turns: u32 = 0;
        for _ in rt.forever() {
            let seen = self.idle.events.load(Ordering::SeqCst);
            if self.stop.load(Ordering::SeqCst) {
                return Ok(WorkDone {
                    all: false,
                    modules,
                });
            }
            let done = self.board.done(&mut seat.place);
            if done == count {
                self.idle.tell_all();
                return Ok(WorkDone { all: true, modules });
            }
            if self.turn(alloc, seat, watch, &mut modules)? {
                turns = 0;
            } else {
                self.idle.wait(rt, seen, turns);
                turns = turns.saturating_add(1);
            }
        }
        unreachable!()
    }

    /// Tries one candidate, and returns whether there may be another.
    fn turn<W: Watch>(
        &self,
        alloc: Global,
        seat: &mut WorkerSeat<E>,
        watch: &W,
        modules: &mut Vec<FinishedModule<E::Value, E::Fault>>,
    ) -> Result<bool, AllocError>
        requires seat { IsSeatOf self.now.board seat.old.place }
        ensures seat { IsSeatOf self.now.board seat.new.place }
        ensures brought { BringsMore E.see E.see_fault (E.means self.now.evaluator) self.now.graph result (view_of seat.old.place).finished modules.old.items (view_of seat.new.place).finished modules.new.items }
    {
        let m = match self.next(&mut seat.list) {
            Next::Candidate(candidate) => candidate as usize,
            Next::Contended => return Ok(true),
            Next::Nothing => return Ok(false),
        };
        if m >= self.board.plan().modules() {
            return Ok(true);
        }
        let had = modules.len();
        self.bring(alloc, &mut seat.place, m, watch, modules)?;
        if modules.len() > had {
            self.offer(&mut seat.list, m);
        }
        Ok(true)
    }
}
