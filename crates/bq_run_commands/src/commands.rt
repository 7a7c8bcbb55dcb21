//! What a line of a session asks for: the answer to the query that it is, or what a command says, a line that begins with
//! `=== ` as no query does.

ghost use Rattle.std.specs.Prelude.{◌≡◌, ◌≤◌, ◌*◌, ◌+◌, ◌-◌, Some, None, true, false, IfOk, IfSome, IfNone};
ghost use Rattle.bq_run_commands.specs.Commands.{command_by, command_of, goes_on, put_of, put_words, remove_of};
ghost use Rattle.bq_run_commands.specs.Queries.{is_skipped};

use crate::lines::MAX_QUERY_BYTES;
use bq_label::{Bytes, is_path};
use std::alloc::{AllocError, Global};

const PUT: &[u8] = b"=== put ";

const REMOVE: &[u8] = b"=== remove ";

const FACTS_OF: &[u8] = b"=== facts ";

const FACTS: &[u8] = b"=== facts";

const RELOAD: &[u8] = b"=== reload";

/// What a line asks for.
#[derive(Drop)]
pub enum Command {
    /// Nothing: it is empty, or a comment.
    Nothing,
    /// The answer to the query that it is.
    Answer,
    /// That a file is put: after the line it has so many bytes, and then a newline comes. It is at this path.
    Put(usize, Bytes),
    /// That the file at this path is removed.
    Remove(Bytes),
    /// That the workspace is loaded as it is by now.
    Reload,
    /// The facts behind the answer to a query, or all.
    Facts(Option<Bytes>),
    /// It is a command with a bad number or path.
    Bad,
}

/// A number of bytes, and a path.
#[derive(Clone, Copy)]
struct PutWords<'a> {
    count: usize,
    path: &'a [u8],
}

/// Returns the number with a digit more, if that is a digit and the number isn't past the limit.
fn with_digit(count: usize, byte: u8, limit: usize) -> Option<usize>
    ensures some { IfSome result (λ n. (n ≡ count * 10 + (byte - 48)) × (goes_on limit count byte ≡ true)) }
    ensures none { IfNone result (goes_on limit count byte ≡ false) }
{
    if !byte.is_ascii_digit() {
        return None;
    }
    let ten = count.checked_mul(10)?;
    let more = ten.checked_add(usize::from(byte - b'0'))?;
    if more > limit {
        return None;
    }
    Some(more)
}

/// Reads a number, and the path after the space.
fn put_words(text: &[u8], limit: usize) -> Option<PutWords<'_>>
    ensures some { IfSome result (λ w. put_words limit text.now ≡ Some (w.count, w.path.now)) }
    ensures none { IfNone result (put_words limit text.now ≡ None) }
{
    if text.starts_with(b" ") {
        return None;
    }
    let mut count = 0;
    let mut at = 0;
    while at < text.len() {
        if text[at] == b' ' {
            let path = &text[at + 1..];
            return Some(PutWords { count, path });
        }
        let Some(more) = with_digit(count, text[at], limit) else {
            return None;
        };
        count = more;
        at += 1;
    }
    None
}

/// Reads what comes after the word `put`.
fn put_of(alloc: Global, text: &[u8], limit: usize) -> Result<Command, AllocError>
    ensures { IfOk result (λ c. c ≡ put_of limit text.now) }
{
    let Some(words) = put_words(text, limit) else {
        return Ok(Command::Bad);
    };
    if !is_path(words.path) {
        return Ok(Command::Bad);
    }
    Ok(Command::Put(words.count, Bytes::from_slice(alloc, words.path)?))
}

/// Reads what comes after the word `remove`.
fn remove_of(alloc: Global, path: &[u8]) -> Result<Command, AllocError>
    ensures { IfOk result (λ c. c ≡ remove_of path.now) }
{
    if !is_path(path) {
        return Ok(Command::Bad);
    }
    Ok(Command::Remove(Bytes::from_slice(alloc, path)?))
}

/// Returns what a line asks for that isn't skipped and isn't too long for a query.
#[tactic(auto, unfolding(crate::specs::Commands::command_by))]
fn command_by(alloc: Global, line: &[u8], limit: usize) -> Result<Command, AllocError>
    ensures { IfOk result (λ c. c ≡ command_by limit line.now) }
{
    if line.starts_with(PUT) {
        return put_of(alloc, &line[PUT.len()..], limit);
    }
    if line.starts_with(REMOVE) {
        return remove_of(alloc, &line[REMOVE.len()..]);
    }
    if line.starts_with(FACTS_OF) {
        let query = Bytes::from_slice(alloc, &line[FACTS_OF.len()..])?;
        return Ok(Command::Facts(Some(query)));
    }
    if line == FACTS {
        return Ok(Command::Facts(None));
    }
    if line == RELOAD {
        return Ok(Command::Reload);
    }
    Ok(Command::Answer)
}

fn is_skipped(line: &[u8]) -> bool
    ensures { result ≡ is_skipped line.now }
{
    match line.first() {
        Some(byte) => *byte == b'#',
        None => true,
    }
}

/// Returns what a line asks for, where a file that is put has at most `limit` bytes.
#[tactic(auto, unfolding(crate::specs::Commands::command_of))]
pub fn command_of(alloc: Global, line: &[u8], limit: usize) -> Result<Command, AllocError>
    ensures { IfOk result (λ c. c ≡ command_of limit line.now) }
{
    if is_skipped(line) {
        return Ok(Command::Nothing);
    }
    if line.len() > MAX_QUERY_BYTES {
        return Ok(Command::Answer);
    }
    command_by(alloc, line, limit)
}
