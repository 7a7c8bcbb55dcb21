//! The exit status, and the line that names an error.

ghost use Rattle.std.specs.Prelude.{◌≡◌, ◌⊎◌, ◌++◌, ◌+◌, ◌-◌, ◌^◌, ◌<◌, IfOk, OnOk, OnErr};
ghost use Rattle.std.specs.Io.KnownBytes.{Appends};
ghost use Rattle.bq_base_texts.specs.LineText.{detail_text};
ghost use Rattle.bq_run_device.specs.Device.{Begins};
ghost use Rattle.bq_run_write.specs.Status.{error_detail, error_line, status_code, status_line};

use crate::ending::Status;
use crate::error::RunErr;
use bq_base_texts::push_detail;
use bq_run_device::{ByteSink, WriteFault, write_all};
use itoa::Buffer;
use std::alloc::{AllocError, Global};

/// The query was answered, and no file has a fault.
pub const ANSWERED: u8 = 0;
/// The program's words, the bundle, the query or the schema is refused.
pub const REFUSED: u8 = 2;
/// The query was answered, and a file has a fault.
pub const WITH_FAULTS: u8 = 3;
/// Memory was refused.
pub const NO_MEMORY: u8 = 4;
/// Reading the input or writing the output failed.
pub const DEVICE_FAILED: u8 = 5;

/// Returns the exit status of a run.
pub fn status_code(ended: &Result<Status, RunErr>) -> u8
    ensures { result ≡ status_code ended.now }
{
    match ended {
        Ok(Status::Answered) => ANSWERED,
        Ok(Status::WithFaults) => WITH_FAULTS,
        Err(RunErr::Memory) => NO_MEMORY,
        Err(RunErr::Read) => DEVICE_FAILED,
        Err(RunErr::Write) => DEVICE_FAILED,
        Err(RunErr::Bundle) => REFUSED,
        Err(RunErr::Query(_)) => REFUSED,
        Err(RunErr::Schema(_)) => REFUSED,
        Err(RunErr::TooManyModules) => REFUSED,
    }
}

/// Returns what is printed after an error's name. If it is a number, `digits` holds it.
fn detail_of<'a>(error: &'a RunErr, digits: &'a mut Buffer) -> &'a [u8]
    ensures { result.now ≡ error_detail error.now }
{
    match error {
        RunErr::Memory => &[],
        RunErr::Read => &[],
        RunErr::Write => &[],
        RunErr::Bundle => &[],
        RunErr::Query(error) => error.detail(),
        RunErr::Schema(line) => digits.format(*line).as_bytes(),
        RunErr::TooManyModules => &[],
    }
}

/// Returns the line that names an error, with its newline.
fn line_of(alloc: Global, error: &RunErr) -> Result<Vec<u8>, AllocError>
    ensures { IfOk result (λ line. line.items ≡ error_line error.now) }
{
    let mut digits = Buffer::new();
    let detail = detail_of(error, &mut digits);
    let mut line = b"bq: ".to_vec(alloc)?;
    line.extend_from_slice(error.title().as_bytes())?;
    push_detail(&mut line, detail)?;
    line.push(b'\n')?;
    Ok(line)
}

/// Returns the exit status of a run, and the line for standard error, which is empty if there is none.
pub fn status_of(alloc: Global, ended: &Result<Status, RunErr>) -> Result<(u8, Vec<u8>), AllocError>
    ensures code { IfOk result (λ r. r.0 ≡ status_code ended.now) }
    ensures line { IfOk result (λ r. r.1.items ≡ status_line ended.now) }
{
    let line = match ended {
        Ok(_) => Vec::new(alloc),
        Err(error) => line_of(alloc, error)?,
    };
    Ok((status_code(ended), line))
}

/// Writes a space and the detail, if there is one.
fn write_detail<W: ByteSink>(writer: &mut W, detail: &[u8]) -> Result<(), WriteFault>
    requires { W.failed writer.old < 2 ^ 64 - 1 }
    ensures whole { OnOk result (Appends (W.contents writer.old) (W.contents writer.new) (detail_text detail.now)) }
    ensures begins { Begins (W.contents writer.old) (W.contents writer.new) (detail_text detail.now) }
    ensures device { OnErr result (W.failed writer.new ≡ W.failed writer.old + 1) }
    ensures quiet { OnOk result (W.failed writer.new ≡ W.failed writer.old) }
{
    if detail.is_empty() {
        return Ok(());
    }
    write_all(writer, b" ")?;
    write_all(writer, detail)
}

/// Writes the line that names an error.
fn write_line<W: ByteSink>(writer: &mut W, error: &RunErr) -> Result<(), WriteFault>
    requires { W.failed writer.old < 2 ^ 64 - 1 }
    ensures whole { OnOk result (Appends (W.contents writer.old) (W.contents writer.new) (error_line error.now)) }
    ensures begins { Begins (W.contents writer.old) (W.contents writer.new) (error_line error.now) }
    ensures device { OnErr result (W.failed writer.new ≡ W.failed writer.old + 1) }
{
    let mut digits = Buffer::new();
    let detail = detail_of(error, &mut digits);
    write_all(writer, b"bq: ")?;
    write_all(writer, error.title().as_bytes())?;
    write_detail(writer, detail)?;
    write_all(writer, b"\n")
}

/// Writes the line for standard error, if there is one. It is written in pieces, so that it takes no memory: after a
/// run that has written something, no lack of memory can hide how it ended.
pub fn write_status_line<W: ByteSink>(
    writer: &mut W,
    ended: &Result<Status, RunErr>,
) -> Result<(), WriteFault>
    requires { W.failed writer.old < 2 ^ 64 - 1 }
    ensures whole { OnOk result (Appends (W.contents writer.old) (W.contents writer.new) (status_line ended.now)) }
    ensures begins { Begins (W.contents writer.old) (W.contents writer.new) (status_line ended.now) }
    ensures device { OnErr result (W.failed writer.new ≡ W.failed writer.old + 1) }
{
    match ended {
        Ok(_) => Ok(()),
        Err(error) => write_line(writer, error),
    }
}

/// Ends a run: writes its error line, if it has one, and returns its exit status. If the writer fails, only the line is
/// lost: the status is the same.
pub fn end_run<W: ByteSink>(writer: &mut W, ended: &Result<Status, RunErr>) -> u8
    requires { W.failed writer.old < 2 ^ 64 - 1 }
    ensures code { result ≡ status_code ended.now }
    ensures line { Appends (W.contents writer.old) (W.contents writer.new) (status_line ended.now) ⊎ (W.failed writer.new ≡ W.failed writer.old + 1) }
{
    let _ = write_status_line(writer, ended);
    status_code(ended)
}
