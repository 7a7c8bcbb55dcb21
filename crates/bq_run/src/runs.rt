//! A run: the bytes of a bundle are read, and the texts of the faults and of the answer are written.

ghost use Rattle.std.specs.Prelude.{◌≡◌, ◌+◌, ◌-◌, ◌^◌, ◌<◌, IfSome, IsErrOf};
ghost use Rattle.std.specs.Io.KnownBytes.{Keeps};
ghost use Rattle.bq_run_device.specs.Device.{OneFailed};
ghost use Rattle.bq_run_write.specs.Deeds.{DoesOne, IsSilent};
ghost use Rattle.bq_run.specs.Run.{IsInRange, IsRunOf, IsRunOver};

use crate::bundle::read_bundle_within;
use crate::options::Options;
use crate::reports::report_workspace;
use bq_label::Workspace;
use bq_run_device::{ByteSink, ByteSource};
use bq_run_write::{RunErr, Status, send_report};
use std::alloc::Global;
use std::random::RandomSource;
use std::sync::Wait;
use std::thread::Threads;

/// Runs over a workspace: [`run`] without its reader.
pub fn run_files<T: Threads + Wait + RandomSource + Sync, W: ByteSink, F: ByteSink>(
    rt: &T,
    alloc: Global,
    workspace: &Workspace,
    writer: &mut W,
    faults_writer: &mut F,
    options: &Options,
) -> Result<Status, RunErr>
    requires in_range { IsInRange options.now }
    requires writer { W.failed writer.old < 2 ^ 64 - 1 }
    requires faults_writer { F.failed faults_writer.old < 2 ^ 64 - 1 }

    ensures does { DoesOne (IsRunOver options.now workspace.now) result (F.contents faults_writer.old) (F.contents faults_writer.new) (W.contents writer.old) (W.contents writer.new) }
    ensures silent { IsSilent result → Keeps (F.contents faults_writer.old) (F.contents faults_writer.new) × Keeps (W.contents writer.old) (W.contents writer.new) }
    ensures no_read { IsErrOf result RunErr.Read → ⊥ }
    ensures write { IsErrOf result RunErr.Write → OneFailed (F.failed faults_writer.old) (F.failed faults_writer.new) (W.failed writer.old) (W.failed writer.new) }
    ensures quiet { (IsErrOf result RunErr.Write → ⊥) → (F.failed faults_writer.new ≡ F.failed faults_writer.old) × (W.failed writer.new ≡ W.failed writer.old) }
{
    let report = report_workspace(rt, alloc, workspace, options)?;
    send_report(report, writer, faults_writer)
}

/// Runs: reads the bundle to its end, reads the query and the schema, loads the modules by as many workers as there are
/// jobs, and answers the query. Then the faults writer gets the faults, and after it the writer gets the answer.
///
/// E4, E5 with Q1 to Q4, Q7 or Q8, E6 and E7 take precedence in this order, and nothing is written with them. With Q5
/// or Q6 only the faults are written. E1 is returned before the first byte is written.
pub fn run<T: Threads + Wait + RandomSource + Sync, R: ByteSource, W: ByteSink, F: ByteSink>(
    rt: &T,
    alloc: Global,
    reader: &mut R,
    writer: &mut W,
    faults_writer: &mut F,
    options: &Options,
) -> Result<Status, RunErr>
    requires in_range { IsInRange options.now }
    requires reader { R.failed reader.old < 2 ^ 64 - 1 }
    requires writer { W.failed writer.old < 2 ^ 64 - 1 }
    requires faults_writer { F.failed faults_writer.old < 2 ^ 64 - 1 }

    // What is written, and how the run ends, are the definition's for the bytes that the reader had.
    ensures does { IfSome (R.remaining reader.old) (λ input. DoesOne (IsRunOf options.now input) result (F.contents faults_writer.old) (F.contents faults_writer.new) (W.contents writer.old) (W.contents writer.new)) }

    // With such an error nothing is written, whatever is known of the reader.
    ensures silent { IsSilent result → Keeps (F.contents faults_writer.old) (F.contents faults_writer.new) × Keeps (W.contents writer.old) (W.contents writer.new) }

    // E2 and E3 are returned exactly after one failed call of a device, which is not tried again.
    ensures read { IsErrOf result RunErr.Read → R.failed reader.new ≡ R.failed reader.old + 1 }
    ensures quiet_reader { (IsErrOf result RunErr.Read → ⊥) → R.failed reader.new ≡ R.failed reader.old }
    ensures write { IsErrOf result RunErr.Write → OneFailed (F.failed faults_writer.old) (F.failed faults_writer.new) (W.failed writer.old) (W.failed writer.new) }
    ensures quiet { (IsErrOf result RunErr.Write → ⊥) → (F.failed faults_writer.new ≡ F.failed faults_writer.old) × (W.failed writer.new ≡ W.failed writer.old) }
{
    let workspace = read_bundle_within(alloc, options.limits, reader)?;
    run_files(rt, alloc, &workspace, writer, faults_writer, options)
}
