//! The outcome of a module that a seat won.
ghost use Rattle.std.specs.Prelude.{◌≡◌, ◌<◌, length, IfOk, OnOk};
ghost use Rattle.bq_board.specs.Conditions.{Owes, Holds};
ghost use Rattle.bq_board.specs.Graph.{row};
ghost use Rattle.bq_board.specs.Seats.{IsSeatOf, view_of};
ghost use Rattle.bq_load_order.specs.Outcome.{outcome, load_values};
ghost use Rattle.bq_load_order.specs.SharedOutcomes.{seen, shown};

use crate::import::Import;
use crate::pool::WorkerPool;
use bq_board::Seat;
use bq_load_order::{
    Evaluate, Outcome, SharedOutcome, Watch, first_at_limit, first_cyclic, outcome_by,
};
use std::alloc::{AllocError, Global};
use std::sync::Arc;

impl<E: Evaluate> WorkerPool<E> {
    /// Finds the outcome of a module, by what it loads.
    pub(crate) fn find<W: Watch>(
        &self,
        alloc: Global,
        seat: &mut Seat<Import<E>>,
        m: usize,
        watch: &W,
    ) -> Result<SharedOutcome<E::Value, E::Fault>, AllocError>
        requires seat { IsSeatOf self.now.board seat.old }
        requires known { m < length self.now.board.plan }
        requires holds { Holds self.now.board.plan (view_of seat.old) m }
        ensures seat { IsSeatOf self.now.board seat.new }
        ensures owes { OnOk result (Owes self.now.board.plan (view_of seat.new) m) }
        ensures finished { (view_of seat.new).finished ≡ (view_of seat.old).finished }
        ensures outcome { IfOk result (λ o. shown E.see E.see_fault o ≡ outcome (E.means self.now.evaluator) self.now.graph m) }
    {
        let loads = self.graph.row(m);
        if self.order.pending[m] > 0 {
            return Ok(Outcome::Cyclic(first_cyclic(&self.order, &self.graph, loads)));
        }
        if self.order.is_too_deep(&self.graph, m) {
            return Ok(Outcome::TooDeep(first_at_limit(&self.order, &self.graph, loads)));
        }
        let imports = self.imports(alloc, seat, m)?;
        // PROOF: the outcome is by these imports
        Ok(outcome_by(alloc, &self.evaluator, m as u32, imports, watch)?)
    }

    /// Returns the values of all that a module loads, or the first load without one.
    fn imports(
        &self,
        alloc: Global,
        seat: &mut Seat<Import<E>>,
        m: usize,
    ) -> Result<Result<Vec<Arc<E::Value, Global>>, u32>, AllocError>
        requires seat { IsSeatOf self.now.board seat.old }
        requires known { m < length self.now.board.plan }
        requires holds { Holds self.now.board.plan (view_of seat.old) m }
        ensures seat { IsSeatOf self.now.board seat.new }
        ensures owes { OnOk result (Owes self.now.board.plan (view_of seat.new) m) }
        ensures finished { (view_of seat.new).finished ≡ (view_of seat.old).finished }
        ensures values { IfOk result (λ r. seen E.see r ≡ load_values (outcome (E.means self.now.evaluator) self.now.graph) (row self.now.board.plan m)) }
    {
        let mut imports = Vec::new(alloc);
        for e in self.board.plan().start(m)..self.board.plan().start(m + 1) {
            let import = self.board.fetch(seat, e);
            let Import { number, value } = import;
            match value {
                Some(value) => imports.push(value)?,
                None => return Ok(Err(number)),
            }
        }
        Ok(Ok(imports))
    }
}
