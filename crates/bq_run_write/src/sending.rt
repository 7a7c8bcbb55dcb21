//! A report is written: the text of the faults, and then the answer.

ghost use Rattle.std.specs.Prelude.{◌≡◌, ◌-◌, ◌^◌, ◌<◌, ℕ, List, IsErrOf, OnOk, OnErr};
ghost use Rattle.std.specs.Io.KnownBytes.{Keeps};
ghost use Rattle.bq_run_device.specs.Device.{OneFailed};
ghost use Rattle.bq_run_write.specs.Report.{report_view};
ghost use Rattle.bq_run_write.specs.Deeds.{Does, IsSilent, WritesBeginnings, WritesWhole, run_by, run_report};

use crate::ending::{NoAnswer, Status};
use crate::error::RunErr;
use crate::report::Report;
use bq_run_device::{ByteSink, WriteFault, write_rope};

/// Writes the texts of a report, the faults first. A refusal has no answer, and if the workspace wasn't loaded no
/// faults.
fn write_texts<W: ByteSink, F: ByteSink>(
    report: &Report,
    writer: &mut W,
    faults_writer: &mut F,
) -> Result<(), WriteFault>
    requires writer { W.failed writer.old < 2 ^ 64 - 1 }
    requires faults_writer { F.failed faults_writer.old < 2 ^ 64 - 1 }
    ensures whole { OnOk result (WritesWhole (run_report (report_view report.now)) (F.contents faults_writer.old) (F.contents faults_writer.new) (W.contents writer.old) (W.contents writer.new)) }
    ensures begins { OnErr result (WritesBeginnings (run_report (report_view report.now)) (F.contents faults_writer.old) (F.contents faults_writer.new) (W.contents writer.old) (W.contents writer.new)) }
    ensures device { OnErr result (OneFailed (F.failed faults_writer.old) (F.failed faults_writer.new) (W.failed writer.old) (W.failed writer.new)) }
    ensures quiet { OnOk result ((F.failed faults_writer.new ≡ F.failed faults_writer.old) × (W.failed writer.new ≡ W.failed writer.old)) }
{
    match &report.end {
        Ok(_) => {
            write_rope(faults_writer, &report.faults)?;
            write_rope(writer, &report.answer)
        }
        Err(refusal) => {
            if refusal.is_unanswered() {
                write_rope(faults_writer, &report.faults)
            } else {
                Ok(())
            }
        }
    }
}

/// Returns how a run ends once its texts are written, whatever they are.
fn ended(end: Result<Status, NoAnswer>) -> Result<Status, RunErr>
    ensures { (faults answer : List ℕ) → result ≡ (run_by faults answer end).end }
{
    match end {
        Ok(status) => Ok(status),
        Err(refusal) => Err(RunErr::from(refusal)),
    }
}

/// Writes a report, the faults first, and returns how the run ends.
pub fn send_report<W: ByteSink, F: ByteSink>(
    report: Report,
    writer: &mut W,
    faults_writer: &mut F,
) -> Result<Status, RunErr>
    requires writer { W.failed writer.old < 2 ^ 64 - 1 }
    requires faults_writer { F.failed faults_writer.old < 2 ^ 64 - 1 }
    ensures does { Does (run_report (report_view report)) result (F.contents faults_writer.old) (F.contents faults_writer.new) (W.contents writer.old) (W.contents writer.new) }
    ensures silent { IsSilent result → Keeps (F.contents faults_writer.old) (F.contents faults_writer.new) × Keeps (W.contents writer.old) (W.contents writer.new) }
    ensures no_read { IsErrOf result RunErr.Read → ⊥ }
    ensures write { IsErrOf result RunErr.Write → OneFailed (F.failed faults_writer.old) (F.failed faults_writer.new) (W.failed writer.old) (W.failed writer.new) }
    ensures quiet { (IsErrOf result RunErr.Write → ⊥) → (F.failed faults_writer.new ≡ F.failed faults_writer.old) × (W.failed writer.new ≡ W.failed writer.old) }
{
    match write_texts(&report, writer, faults_writer) {
        Ok(()) => ended(report.end),
        Err(_) => Err(RunErr::Write),
    }
}
