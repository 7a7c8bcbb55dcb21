//! What the threads that work in a pool return.

ghost use Rattle.std.specs.Prelude.{◌≡◌, ◌<◌, length, map, All, IfOk, IsTrue};
ghost use Rattle.bq_board.specs.Counts.{Has};
ghost use Rattle.bq_board.specs.Seats.{IsSeatOf, view_of};
ghost use Rattle.bq_load_order.specs.Outcome.{outcome};
ghost use Rattle.bq_load_order.specs.SharedOutcomes.{shown};
ghost use Rattle.bq_load_workers.specs.Brought.{AreRight};
ghost use Rattle.bq_load.specs.Views.{module_view, failed_view, outcome_view};
ghost use Rattle.bq_load.specs.Evaluation.{means};
ghost use Rattle.bq_load.specs.Results.{outcomes};
ghost use Rattle.bq_load.specs.Pool.{parts_of, loads_of, package_of_file, IsEvaluated, HaveFinished};

use crate::gate::{Gate, GateWatch};
use crate::outcome::ModuleOutcome;
use crate::packages::package_by;
use crate::pool::{Evaluated, Pool, PoolSeat, Worked};
use bq_load_front::kind_of;
use bq_load_module::{FailedModule, LoadedModule};
use bq_load_workers::outcomes_by_workers;
use bq_package_target::Package;
use bq_parse_grammar::FileKind;
use std::alloc::{AllocError, Global};
use std::marker::Sync;
use std::sync::Wait;
use std::thread::Threads;

/// Returns the package of a BUILD file.
fn package_of_file(alloc: Global, module: &ModuleOutcome) -> Result<Option<Package>, AllocError>
    ensures { IfOk result (λ p. p ≡ package_of_file (outcome_view «module».now)) }
{
    match kind_of(&module.label) {
        FileKind::Bzl => Ok(None),
        FileKind::Build => package_by(alloc, &module.label, &module.result),
    }
}

impl<'a> Pool<'a> {
    /// Evaluates modules that nobody else has, each after all that it loads, until all are finished or a thread ran out
    /// of memory, and notifies the gate of each evaluation. It returns exactly the modules that this seat finished in
    /// this call, in that order, and `all` only if this seat found all modules finished. If it runs out of memory, what
    /// it finished in this call is in no answer.
    pub fn work<R: Wait, G: Gate>(
        &self,
        rt: &R,
        alloc: Global,
        seat: &mut PoolSeat<'a>,
        gate: &G,
    ) -> Result<Worked, AllocError>
        requires seat { IsSeatOf self.now.shared.board seat.old.place }
        ensures seat { IsSeatOf self.now.shared.board seat.new.place }
        ensures finished { IfOk result (λ w. HaveFinished (parts_of self.now) (loads_of self.now) (view_of seat.old.place).finished (view_of seat.new.place).finished w.modules.items) }
        ensures all { IfOk result (λ w. IsTrue w.all → Has (view_of seat.new.place).counts (length (loads_of self.now))) }
    {
        let watch = GateWatch {
            gate,
            loading: self.loading(),
        };
        let worked = self.shared.work(rt, alloc, seat, &watch)?;
        let modules = self.all_evaluated(alloc, worked.modules.as_slice())?;
        Ok(Worked {
            all: worked.all,
            modules,
        })
    }

    /// Returns modules with their outcomes and packages.
    fn all_evaluated(
        &self,
        alloc: Global,
        brought: &[bq_load_workers::FinishedModule<LoadedModule, FailedModule>],
    ) -> Result<Vec<Evaluated>, AllocError>
        requires { AreRight module_view failed_view (outcome (means (parts_of self.now)) (loads_of self.now)) (length (loads_of self.now)) brought.now }
        ensures numbers { IfOk result (λ es. map (λ e. e.module) es.items ≡ map (λ e. e.number) brought.now) }
        ensures right { IfOk result (λ es. All (IsEvaluated (parts_of self.now) (loads_of self.now)) es.items) }
    {
        let mut all = Vec::with_capacity(alloc, brought.len())?;
        for one in brought {
            all.push(self.evaluated(alloc, one)?)?;
        }
        Ok(all)
    }

    /// Returns a module with its outcome and its package.
    fn evaluated(
        &self,
        alloc: Global,
        brought: &bq_load_workers::FinishedModule<LoadedModule, FailedModule>,
    ) -> Result<Evaluated, AllocError>
        requires known { brought.now.number < length (loads_of self.now) }
        requires right { shown module_view failed_view brought.now.outcome ≡ outcome (means (parts_of self.now)) (loads_of self.now) brought.now.number }
        ensures number { IfOk result (λ e. e.module ≡ brought.now.number) }
        ensures right { IfOk result (λ e. IsEvaluated (parts_of self.now) (loads_of self.now) e) }
    {
        let loading = self.loading();
        let module = brought.number;
        let read = &loading.modules[module as usize];
        let outcome = loading.outcome_at(alloc, read, &brought.outcome)?;
        let package = package_of_file(alloc, &outcome)?;
        Ok(Evaluated {
            module,
            outcome,
            package,
        })
    }

    /// Returns all modules with their outcomes, by the seats, each in a thread of its own, and notifies the gate of
    /// each evaluation.
    pub(crate) fn outcomes<R: Threads + Wait + Sync, G: Gate>(
        &self,
        rt: &R,
        alloc: Global,
        seats: Vec<PoolSeat<'a>>,
        gate: &G,
    ) -> Result<Vec<ModuleOutcome>, AllocError>
        requires { All (λ s. IsSeatOf self.now.shared.board s.place) seats.items }
        ensures { IfOk result (λ os. map outcome_view os.items ≡ outcomes (parts_of self.now) (loads_of self.now)) }
    {
        let loading = self.loading();
        let watch = GateWatch { gate, loading };
        let found = outcomes_by_workers(rt, alloc, &self.shared, seats, &watch)?;
        loading.outcomes(alloc, self.edges(), found.as_slice())
    }
}
