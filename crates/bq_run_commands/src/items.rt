//! The items of what a session reads: a line each, and the bytes of a file after the line that puts it.

ghost use Rattle.std.specs.Prelude.{◌≡◌, ◌⊎◌, ◌+◌, ◌-◌, ◌^◌, ◌<◌, ◌≤◌, IfOk, IfSome, IfNone, IsErr, IsErrOf, length};
ghost use Rattle.std.specs.Io.KnownBytes.{Consumes, IsAtEnd};
ghost use Rattle.bq_run_commands.specs.Items.{EndsWithin, IsItem, IsPut, IsRequest};
ghost use Rattle.bq_run_commands.specs.Reading.{Known, ahead};

use crate::commands::{Command, command_of};
use crate::edits::Edit;
use crate::lines::{next_line, read_byte};
use bq_label::{Bytes, File};
use bq_run::{ByteSource, RunErr};
use std::alloc::Global;

/// What is asked of a session.
#[derive(Drop)]
pub enum Request {
    /// Nothing.
    Nothing,
    /// The answer to the query that the line is.
    Answer,
    /// That a file is put or removed.
    Edit(Edit),
    /// That the workspace is loaded as it is by now.
    Reload,
    /// The facts behind the answer to a query, or all.
    Facts(Option<Bytes>),
    /// A command that is refused.
    Bad,
    /// A file that is put, of which only a beginning came.
    Cut,
}

/// A line, and what is asked by it.
#[derive(Drop)]
pub struct Item {
    pub line: Vec<u8>,
    pub request: Request,
}

/// Reads so many bytes. None is fewer.
fn read_content<R: ByteSource>(
    alloc: Global,
    reader: &mut R,
    left: &mut u64,
    count: usize,
) -> Result<Option<Vec<u8>>, RunErr>
    requires { R.failed reader.old < 2 ^ 64 - 1 }
    ensures whole { IfOk result (λ r. IfSome r (λ bytes. Consumes (ahead left.old (R.remaining reader.old)) (ahead left.new (R.remaining reader.new)) bytes.items × (length bytes.items ≡ count))) }
    ensures cut { IfOk result (λ r. IfNone r (Known (EndsWithin count) (ahead left.old (R.remaining reader.old)) (ahead left.new (R.remaining reader.new)))) }
    ensures no_more { left.new ≤ left.old }
    ensures only { IsErr result → IsErrOf result RunErr.Memory ⊎ IsErrOf result RunErr.Read }
    ensures device { IsErrOf result RunErr.Read → R.failed reader.new ≡ R.failed reader.old + 1 }
    ensures quiet { (IsErrOf result RunErr.Read → ⊥) → R.failed reader.new ≡ R.failed reader.old }
{
    let mut bytes = Vec::new(alloc);
    while bytes.len() < count {
        let Some(byte) = read_byte(reader, left)? else {
            return Ok(None);
        };
        bytes.push(byte)?;
    }
    Ok(Some(bytes))
}

/// Reads what comes after the line that puts a file.
fn read_put<R: ByteSource>(
    alloc: Global,
    reader: &mut R,
    left: &mut u64,
    count: usize,
    path: Bytes,
) -> Result<Request, RunErr>
    requires { R.failed reader.old < 2 ^ 64 - 1 }
    ensures asks { IfOk result (λ request. Known (λ text rest. IsPut count path text rest request) (ahead left.old (R.remaining reader.old)) (ahead left.new (R.remaining reader.new))) }
    ensures no_more { left.new ≤ left.old }
    ensures only { IsErr result → IsErrOf result RunErr.Memory ⊎ IsErrOf result RunErr.Read }
    ensures device { IsErrOf result RunErr.Read → R.failed reader.new ≡ R.failed reader.old + 1 }
    ensures quiet { (IsErrOf result RunErr.Read → ⊥) → R.failed reader.new ≡ R.failed reader.old }
{
    let Some(bytes) = read_content(alloc, reader, left, count)? else {
        return Ok(Request::Cut);
    };
    let Some(end) = read_byte(reader, left)? else {
        return Ok(Request::Cut);
    };
    if end != b'\n' {
        return Ok(Request::Bad);
    }
    let content = Bytes::from_vec(alloc, bytes)?;
    Ok(Request::Edit(Edit::Put(File { path, content })))
}

/// Reads what a command needs besides its line.
fn request_of<R: ByteSource>(
    alloc: Global,
    reader: &mut R,
    left: &mut u64,
    command: Command,
) -> Result<Request, RunErr>
    requires { R.failed reader.old < 2 ^ 64 - 1 }
    ensures asks { IfOk result (λ request. Known (λ text rest. IsRequest command text rest request) (ahead left.old (R.remaining reader.old)) (ahead left.new (R.remaining reader.new))) }
    ensures no_more { left.new ≤ left.old }
    ensures only { IsErr result → IsErrOf result RunErr.Memory ⊎ IsErrOf result RunErr.Read }
    ensures device { IsErrOf result RunErr.Read → R.failed reader.new ≡ R.failed reader.old + 1 }
    ensures quiet { (IsErrOf result RunErr.Read → ⊥) → R.failed reader.new ≡ R.failed reader.old }
{
    match command {
        Command::Nothing => Ok(Request::Nothing),
        Command::Answer => Ok(Request::Answer),
        Command::Put(count, path) => read_put(alloc, reader, left, count, path),
        Command::Remove(path) => Ok(Request::Edit(Edit::Remove(path))),
        Command::Reload => Ok(Request::Reload),
        Command::Facts(query) => Ok(Request::Facts(query)),
        Command::Bad => Ok(Request::Bad),
    }
}

/// Reads the next item, where a file that is put has at most `limit` bytes.
pub fn next_item<R: ByteSource>(
    alloc: Global,
    reader: &mut R,
    left: &mut u64,
    limit: usize,
) -> Result<Option<Item>, RunErr>
    requires { R.failed reader.old < 2 ^ 64 - 1 }
    ensures item { IfOk result (λ r. IfSome r (λ item. Known (λ text rest. IsItem limit text rest item.line.items item.request) (ahead left.old (R.remaining reader.old)) (ahead left.new (R.remaining reader.new)))) }
    ensures fewer { IfOk result (λ r. IfSome r (λ item. left.new < left.old)) }
    ensures end { IfOk result (λ r. IfNone r (IsAtEnd (ahead left.old (R.remaining reader.old)))) }
    ensures only { IsErr result → IsErrOf result RunErr.Memory ⊎ IsErrOf result RunErr.Read }
    ensures device { IsErrOf result RunErr.Read → R.failed reader.new ≡ R.failed reader.old + 1 }
    ensures quiet { (IsErrOf result RunErr.Read → ⊥) → R.failed reader.new ≡ R.failed reader.old }
{
    let Some(line) = next_line(alloc, reader, left)? else {
        return Ok(None);
    };
    let command = command_of(alloc, &line, limit)?;
    let request = request_of(alloc, reader, left, command)?;
    Ok(Some(Item { line, request }))
}
