//! What is written for a query or a command: a header line `=== STATUS LINES QUERY`, and then as many lines: those of the
//! answer, or the line of the error.

ghost use Rattle.std.specs.Prelude.{◌≡◌, ◌⊎◌, ◌++◌, ◌+◌, ◌-◌, ◌^◌, ◌<◌, [], Err, take, IfOk, IsErr, IsErrOf, OnErr, OnOk};
ghost use Rattle.std.specs.Io.KnownBytes.{Appends, Keeps};
ghost use Rattle.std.specs.List.{concat};
ghost use Rattle.bq_run_device.specs.Device.{Begins};
ghost use Rattle.bq_run_write.specs.Status.{status_code, status_line};
ghost use Rattle.bq_run_session.specs.Block.{body, header, is_refused, line_count, run_block, run_end};
ghost use Rattle.bq_run_commands.specs.Queries.{max_query_bytes};
ghost use Rattle.bq_run_session.specs.Steps.{IsBlockOf, WritesOne};

use bq_base::Bytes;
use bq_base_texts::Rope;
use bq_run::{ByteSink, RunErr, status_of, write_all, write_rope};
use bq_run_commands::MAX_QUERY_BYTES;
use bq_run_device::WriteFault;
use bq_run_report::{NoAnswer, Status};
use std::alloc::{AllocError, Global};

fn line_count(text: &[u8]) -> usize
    ensures { result ≡ line_count text.now }
{
    let mut count = 0;
    for byte in text {
        if *byte == b'\n' {
            count += 1;
        }
    }
    count
}

/// Returns so many and the newlines of these strings.
fn with_lines_of(before: usize, pieces: &[Bytes]) -> Result<usize, AllocError>
    ensures { IfOk result (λ count. count ≡ before + line_count (concat pieces.now)) }
{
    let mut count = before;
    for piece in pieces {
        let more = line_count(piece.as_slice());
        match count.checked_add(more) {
            Some(sum) => count = sum,
            None => return Err(AllocError),
        }
    }
    Ok(count)
}

/// Returns so many and the newlines of a text. In strings that are shared there could be more of them than can be counted, and then it
/// fails as if memory were refused.
fn with_text_lines(before: usize, text: &Rope) -> Result<usize, AllocError>
    ensures { IfOk result (λ count. count ≡ before + line_count text.now) }
{
    let parts = text.parts();
    match before.checked_add(line_count(parts.rest)) {
        Some(count) => with_lines_of(count, parts.pieces),
        None => Err(AllocError),
    }
}

/// Returns what the header line has of a query: all, unless it is too long.
fn shown(query: &[u8]) -> &[u8]
    ensures { result.now ≡ take max_query_bytes query.now }
{
    if query.len() > MAX_QUERY_BYTES {
        &query[..MAX_QUERY_BYTES]
    } else {
        query
    }
}

/// Returns the header line.
fn header(alloc: Global, status: u8, count: usize, query: &[u8]) -> Result<Vec<u8>, AllocError>
    ensures { IfOk result (λ line. line.items ≡ header status count query.now) }
{
    let numbers = format!(in alloc; "=== {status} {count} ")?;
    let mut line = numbers.into_bytes();
    line.extend_from_slice(shown(query))?;
    line.push(b'\n')?;
    Ok(line)
}

/// Returns how a run ends.
pub(crate) fn run_end(end: Result<Status, NoAnswer>) -> Result<Status, RunErr>
    ensures { result ≡ run_end end }
{
    match end {
        Ok(status) => Ok(status),
        Err(refusal) => Err(RunErr::from(refusal)),
    }
}

/// What is written for a line: a text, or the line of an error.
#[derive(Drop)]
pub(crate) struct BlockText {
    pub text: Rope,
    pub end: Result<Status, RunErr>,
}

/// Returns what is written where something is refused.
pub(crate) fn refusal(alloc: Global, why: RunErr) -> BlockText
    ensures text { result.text ≡ [] }
    ensures end { result.end ≡ Err why }
{
    BlockText {
        text: Rope::new(alloc),
        end: Err(why),
    }
}

fn is_refused(end: &Result<Status, RunErr>) -> bool
    ensures { result ≡ is_refused end.now }
{
    match end {
        Ok(_) => false,
        Err(_) => true,
    }
}

/// What stands before and after the text of a block.
#[derive(Drop)]
struct BlockFrame {
    header: Vec<u8>,
    error: Vec<u8>,
}

fn frame_of(
    alloc: Global,
    line: &[u8],
    text: &Rope,
    end: &Result<Status, RunErr>,
) -> Result<BlockFrame, AllocError>
    ensures header { IfOk result (λ b. b.header.items ≡ header (status_code end.now) (line_count (body text.now end.now)) line.now) }
    ensures error { IfOk result (λ b. b.error.items ≡ status_line end.now) }
{
    let (code, error) = status_of(alloc, end)?;
    let count = with_text_lines(line_count(&error), text)?;
    let header = header(alloc, code, count, line)?;
    Ok(BlockFrame { header, error })
}

/// Writes the text of a block, and the error line.
fn write_body<W: ByteSink>(
    writer: &mut W,
    text: &Rope,
    frame: &BlockFrame,
) -> Result<(), WriteFault>
    requires { W.failed writer.old < 2 ^ 64 - 1 }
    ensures whole { OnOk result (Appends (W.contents writer.old) (W.contents writer.new) (text.now ++ frame.now.error.items)) }
    ensures begins { Begins (W.contents writer.old) (W.contents writer.new) (text.now ++ frame.now.error.items) }
    ensures device { OnErr result (W.failed writer.new ≡ W.failed writer.old + 1) }
    ensures quiet { OnOk result (W.failed writer.new ≡ W.failed writer.old) }
{
    write_rope(writer, text)?;
    write_all(writer, &frame.error)?;
    Ok(())
}

/// Writes the block of a line: this text, or the error line. No byte is written where memory is refused.
pub(crate) fn write_block<W: ByteSink>(
    alloc: Global,
    writer: &mut W,
    line: &[u8],
    text: &Rope,
    end: &Result<Status, RunErr>,
) -> Result<(), RunErr>
    requires { W.failed writer.old < 2 ^ 64 - 1 }
    ensures whole { OnOk result (Appends (W.contents writer.old) (W.contents writer.new) (run_block line.now text.now end.now)) }
    ensures memory { IsErrOf result RunErr.Memory → Keeps (W.contents writer.old) (W.contents writer.new) }
    ensures begins { IsErrOf result RunErr.Write → Begins (W.contents writer.old) (W.contents writer.new) (run_block line.now text.now end.now) }
    ensures only { IsErr result → IsErrOf result RunErr.Memory ⊎ IsErrOf result RunErr.Write }
    ensures device { IsErrOf result RunErr.Write → W.failed writer.new ≡ W.failed writer.old + 1 }
    ensures quiet { (IsErrOf result RunErr.Write → ⊥) → W.failed writer.new ≡ W.failed writer.old }
{
    let frame = frame_of(alloc, line, text, end)?;
    write_all(writer, &frame.header)?;
    write_body(writer, text, &frame)?;
    Ok(())
}

/// Writes the block of a line. Returns whether what it asks is refused.
pub(crate) fn write_told<W: ByteSink>(
    alloc: Global,
    writer: &mut W,
    line: &[u8],
    told: BlockText,
) -> Result<bool, RunErr>
    requires { W.failed writer.old < 2 ^ 64 - 1 }
    ensures does { WritesOne (IsBlockOf line.now told.text told.end) result (W.contents writer.old) (W.contents writer.new) }
    ensures device { IsErrOf result RunErr.Write → W.failed writer.new ≡ W.failed writer.old + 1 }
    ensures quiet { (IsErrOf result RunErr.Write → ⊥) → W.failed writer.new ≡ W.failed writer.old }
{
    write_block(alloc, writer, line, &told.text, &told.end)?;
    Ok(is_refused(&told.end))
}
