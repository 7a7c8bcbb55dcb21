//! What a worker tries next. Nothing is promised of it: a candidate may be anything, and the board decides.
ghost use Rattle.std.specs.Prelude.{◌<◌, length};

use crate::pool::WorkerPool;
use bq_load_order::Evaluate;
use crossbeam_deque::{Steal, Worker};
use std::sync::atomic::Ordering;

/// What a worker finds on the lists.
#[derive(Clone, Copy)]
pub(crate) enum Next {
    Candidate(u32),
    /// Nothing, but another worker took something from a list at that moment, so there may be more on it.
    Contended,
    Nothing,
}

impl<E: Evaluate> WorkerPool<E> {
    /// Takes a module from the worker's own list, or else from another's.
    pub(crate) fn next(&self, list: &mut Worker<u32>) -> Next {
        match list.pop() {
            Some(m) => return Next::Candidate(m),
            None => {}
        }
        let mut next = Next::Nothing;
        for other in self.stealers.as_slice() {
            match other.steal() {
                Steal::Success(m) => return Next::Candidate(m),
                Steal::Empty => {}
                Steal::Retry => next = Next::Contended,
            }
        }
        next
    }

    /// Offers the modules that load `m`, and wakes workers for those that this one doesn't take next. If a list can't
    /// grow, all workers stop.
    pub(crate) fn offer(&self, list: &mut Worker<u32>, m: usize)
        requires { m < length self.now.board.plan }
    {
        let plan = self.board.plan();
        let out = plan.edges_out(m);
        for e in out {
            let target = plan.target(*e as usize);
            if list.push(target as u32).is_err() {
                self.halt();
            }
        }
        match list.len() {
            0 => {}
            1 => {}
            2 => self.idle.tell_one(),
            _ => self.idle.tell_all(),
        }
    }

    /// Makes all workers stop.
    pub(crate) fn halt(&self) {
        self.stop.store(true, Ordering::SeqCst);
        self.idle.tell_all();
    }
}
