//! A module from its claim to its end.
ghost use Rattle.std.specs.Prelude.{◌≡◌, ◌+◌, ◌<◌, ◌++◌, ◌∷◌, [], length, vec_len, All, IfOk};
ghost use Rattle.bq_board.specs.Conditions.{Owes};
ghost use Rattle.bq_board.specs.Plan.{IsOut};
ghost use Rattle.bq_board.specs.Seats.{IsSeatOf, view_of};
ghost use Rattle.bq_load_order.specs.Outcome.{outcome};
ghost use Rattle.bq_load_order.specs.SharedOutcomes.{seen_value, shown, value_in};
ghost use Rattle.bq_load_workers.specs.Brought.{BringsMore};
ghost use Rattle.bq_load_workers.specs.Work.{IsImport};

use crate::import::Import;
use crate::pool::{FinishedModule, WorkerPool};
use bq_board::Seat;
use bq_load_order::{Evaluate, SharedOutcome, Watch, share_value};
use std::alloc::{AllocError, Global};

impl<E: Evaluate> WorkerPool<E> {
    /// Claims a module, and if it is won, finds its outcome, posts it and finishes the module.
    pub(crate) fn bring<W: Watch>(
        &self,
        alloc: Global,
        seat: &mut Seat<Import<E>>,
        m: usize,
        watch: &W,
        modules: &mut Vec<FinishedModule<E::Value, E::Fault>>,
    ) -> Result<(), AllocError>
        requires seat { IsSeatOf self.now.board seat.old }
        requires known { m < length self.now.board.plan }
        ensures seat { IsSeatOf self.now.board seat.new }
        ensures brought { BringsMore E.see E.see_fault (E.means self.now.evaluator) self.now.graph result (view_of seat.old).finished modules.old.items (view_of seat.new).finished modules.new.items }
    {
        let _ = self.graph.len(); // PROOF: the graph is valid
        if !self.board.wins(seat, m) {
            return Ok(());
        }
        let outcome = self.find(alloc, seat, m, watch)?;
        let out = self.board.plan().edges_out(m);
        let number = m as u32;
        let copies = copies::<E>(alloc, number, &outcome, out.len())?;
        modules.push(FinishedModule { number, outcome })?;
        self.deliver(seat, m, out, copies);
        Ok(())
    }

    /// Posts a module's value along all edges out of it, and finishes the module.
    fn deliver(&self, seat: &mut Seat<Import<E>>, m: usize, out: &[u32], mut copies: Vec<Import<E>>)
        requires seat { IsSeatOf self.now.board seat.old }
        requires known { m < length self.now.board.plan }
        requires owes { Owes self.now.board.plan (view_of seat.old) m }
        requires out { IsOut self.now.board.plan m out.now }
        requires count { vec_len copies ≡ length out.now }
        requires copies { All (λ x. IsImport E.see (outcome (E.means self.now.evaluator) self.now.graph) m x.number x.value) copies.items }
        ensures seat { IsSeatOf self.now.board seat.new }
        ensures finished { (view_of seat.new).finished ≡ (view_of seat.old).finished ++ m ∷ [] }
    {
        for e in out {
            let copy = copies.pop().unwrap();
            self.board.post(seat, *e as usize, copy);
        }
        self.board.finish(seat, m);
    }
}

/// Makes a number of imports of one module.
fn copies<E: Evaluate>(
    alloc: Global,
    number: u32,
    outcome: &SharedOutcome<E::Value, E::Fault>,
    count: usize,
) -> Result<Vec<Import<E>>, AllocError>
    ensures count { IfOk result (λ v. vec_len v ≡ count) }
    ensures same { IfOk result (λ v. All (λ x. (x.number ≡ number) × (seen_value E.see x.value ≡ value_in (shown E.see E.see_fault outcome.now))) v.items) }
{
    let mut copies = Vec::new(alloc);
    for _ in 0..count {
        let value = share_value::<E>(outcome)?;
        copies.push(Import { number, value })?;
    }
    Ok(copies)
}
