//! A run that is asked for facts.

ghost use Rattle.std.specs.Prelude.{◌≡◌, ◌-◌, ◌^◌, ◌<◌, IsErrOf};
ghost use Rattle.std.specs.Io.KnownBytes.{Keeps};
ghost use Rattle.std.specs.Option.{option_copied};
ghost use Rattle.bq_run_device.specs.Device.{OneFailed};
ghost use Rattle.bq_run_write.specs.Deeds.{DoesOne, IsSilent};
ghost use Rattle.bq_run.specs.Run.{IsInRange};
ghost use Rattle.bq_run_facts.specs.Facts.{IsFactsOver};

use crate::reports::report_facts;
use bq_run::{ByteSink, RunErr, Status, WorkspaceRun, send_report};
use std::alloc::Global;
use std::random::RandomSource;
use std::sync::Wait;
use std::thread::Threads;

/// Loads the workspace by as many workers as there are jobs. Then the faults writer gets the faults, and after it the
/// writer a first line with this version of the program, a line of JSON for each target that the query stands for, or for
/// all targets if there is no query, then one for each module, and one for each fault. The query and the output of the
/// options aren't looked at.
///
/// E5 with Q1 to Q4, Q7 or Q8, E6 and E7 take precedence in this order, and nothing is written with them. With Q5 or Q6
/// only the faults are written. E1 is returned before the first byte is written.
pub fn run_facts<T: Threads + Wait + RandomSource + Sync, W: ByteSink, F: ByteSink>(
    rt: &T,
    alloc: Global,
    version: &[u8],
    over: &WorkspaceRun<'_>,
    query: Option<&[u8]>,
    writer: &mut W,
    faults_writer: &mut F,
) -> Result<Status, RunErr>
    requires in_range { IsInRange over.now.options.now }
    requires writer { W.failed writer.old < 2 ^ 64 - 1 }
    requires faults_writer { F.failed faults_writer.old < 2 ^ 64 - 1 }

    // What is written, and how the run ends, are the definition's.
    ensures does { DoesOne (IsFactsOver version.now over.now.options.now over.now.workspace.now (option_copied query.entry)) result (F.contents faults_writer.old) (F.contents faults_writer.new) (W.contents writer.old) (W.contents writer.new) }
    ensures silent { IsSilent result → Keeps (F.contents faults_writer.old) (F.contents faults_writer.new) × Keeps (W.contents writer.old) (W.contents writer.new) }

    // E3 is returned exactly after one failed call of a writer, which is not tried again. Nothing is read.
    ensures no_read { IsErrOf result RunErr.Read → ⊥ }
    ensures write { IsErrOf result RunErr.Write → OneFailed (F.failed faults_writer.old) (F.failed faults_writer.new) (W.failed writer.old) (W.failed writer.new) }
    ensures quiet { (IsErrOf result RunErr.Write → ⊥) → (F.failed faults_writer.new ≡ F.failed faults_writer.old) × (W.failed writer.new ≡ W.failed writer.old) }
{
    let report = report_facts(rt, alloc, version, over, query)?;
    send_report(report, writer, faults_writer)
}
