//! The modules of a workspace, found along loads by several threads.

ghost use Rattle.std.specs.Prelude.{◌<◌, All, IfOk, IfSome, OnOk};
ghost use Rattle.bq_base.specs.Limits.{AreBounded, number_bound};
ghost use Rattle.bq_load_front.specs.Inputs.{InputParts};
ghost use Rattle.bq_load_discover.specs.Exploring.{Explores, IsModuleAt, Finds};
ghost use Rattle.bq_load_discover.specs.Waves.{IsReading, Grows};

use crate::exploration::{Exploration, read_rest};
use crate::modules::Module;
use bq_base::Limits;
use bq_label_set::LabelSet;
use bq_load_front::Inputs;
use std::alloc::{AllocError, Global};
use std::thread;
use std::thread::Threads;

/// How many modules a thread has to read to be worth its start.
const MODULES_OF_A_THREAD: usize = 8;

/// The place of a label, and the module of that label once it is read.
#[derive(Drop)]
pub(crate) struct Reading {
    place: usize,
    read: Result<Option<Module>, AllocError>,
}

/// Returns one empty reading for each label from that place on, the last of them first. Labels past the limit, but for
/// one, get none.
fn unread(
    alloc: Global,
    labels: &LabelSet,
    from: usize,
    most: usize,
) -> Result<Vec<Reading>, AllocError>
    requires { most < number_bound }
{
    let mut readings = Vec::new(alloc);
    for place in from..most + 1 {
        if labels.get(place).is_none() {
            break;
        }
        readings.push(Reading {
            place,
            read: Ok(None),
        })?;
    }
    readings.reverse();
    Ok(readings)
}

/// Reads the module of the label at that place, if there is one.
fn module_at(
    alloc: Global,
    inputs: &Inputs<'_>,
    labels: &LabelSet,
    place: usize,
) -> Result<Option<Module>, AllocError>
    ensures { IfOk result (λ read. IfSome read (IsModuleAt inputs.now labels.now place)) }
{
    match labels.get(place) {
        None => Ok(None),
        Some(label) => Ok(Some(Module::of(alloc, inputs, label)?)),
    }
}

/// Reads the modules of labels, in at most `threads` threads.
fn read_all<R: Threads + Sync>(
    rt: &R,
    alloc: Global,
    inputs: &Inputs<'_>,
    labels: &LabelSet,
    readings: &mut [Reading],
    threads: usize,
)
    requires { 0 < threads }
    ensures { All (IsReading inputs.now labels.now) readings.new }
{
    let each = |_: usize, reading: &mut Reading|
        ensures { IsReading inputs.entry.now labels.entry.now reading.exit.now }
    { reading.read = module_at(alloc, inputs, labels, reading.place) };
    thread::for_each_mut(rt, readings, threads, &each);
}

impl Exploration {
    /// Adds what was read, if it is the next. If memory was refused to its thread, it fails too.
    #[tactic(auto, using(crate::proofs::Readings::grows, crate::proofs::Readings::grows_none, crate::proofs::Readings::at_next))]
    fn take(&mut self, reading: Option<Reading>) -> Result<(), AllocError>
        ensures explores { (inputs : InputParts) → Explores inputs self.old.found self.old.read.items → IfSome reading (IsReading inputs self.old.found) → OnOk result (Explores inputs self.new.found self.new.read.items) }
        ensures grows { OnOk result (Grows self.old.found self.new.found) }
    {
        let Some(Reading { place, read }) = reading else {
            return Ok(());
        };
        let next = match read {
            Err(_) => return Err(AllocError),
            Ok(None) => return Ok(()),
            Ok(Some(next)) => next,
        };
        if place != self.read.len() {
            return Ok(());
        }
        self.put(next)?; // PROOF: what was added, where memory was there
        Ok(())
    }

    /// Adds the modules that were read.
    fn take_all(
        &mut self,
        inputs: &Inputs<'_>,
        mut readings: Vec<Reading>,
    ) -> Result<(), AllocError>
        requires explores { Explores inputs.now self.old.found self.old.read.items }
        requires readings { All (IsReading inputs.now self.old.found) readings.items }
        ensures { OnOk result (Explores inputs.now self.new.found self.new.read.items) }
    {
        let _ = inputs; // contracts alone speak of what is read
        for _ in 0..readings.len() {
            self.take(readings.pop())?;
        }
        Ok(())
    }

    /// Reads all that is found and not read yet.
    fn read_wave<R: Threads + Sync>(
        &mut self,
        rt: &R,
        alloc: Global,
        limits: Limits,
        inputs: &Inputs<'_>,
        workers: usize,
    ) -> Result<(), AllocError>
        requires bounded { AreBounded limits }
        requires workers { 0 < workers }
        requires explores { Explores inputs.now self.old.found self.old.read.items }
        ensures { OnOk result (Explores inputs.now self.new.found self.new.read.items) }
    {
        let mut readings = unread(alloc, &self.found, self.read.len(), limits.modules)?;
        let threads = workers.min(readings.len() / MODULES_OF_A_THREAD + 1);
        read_all(
            rt,
            alloc,
            inputs,
            &self.found,
            readings.as_mut_slice(),
            threads,
        );
        self.take_all(inputs, readings)
    }
}

/// Returns the modules of a workspace in the order in which they are found; `None` if there are too many. What is found
/// and not read yet is read in at most `workers` threads, again and again. What they leave is read here.
pub(crate) fn explore_by_workers<R: Threads + Sync>(
    rt: &R,
    alloc: Global,
    limits: Limits,
    inputs: &Inputs<'_>,
    workers: usize,
) -> Result<Option<Vec<Module>>, AllocError>
    requires bounded { AreBounded limits }
    requires workers { 0 < workers }
    ensures { IfOk result (Finds limits inputs.now) }
{
    let mut exploration = Exploration::new(alloc, inputs)?;
    for _ in 0..limits.modules {
        let read = exploration.read.len();
        if read > limits.modules || exploration.found.get(read).is_none() {
            break;
        }
        exploration.read_wave(rt, alloc, limits, inputs, workers)?;
    }
    read_rest(alloc, limits, inputs, exploration)
}
