//! A workspace from the text form that holds it: header lines `=== PATH`, each followed by the bytes of its file.

ghost use Rattle.std.specs.Prelude.{◌≡◌, ◌⊎◌, ◌+◌, ◌-◌, ◌^◌, ◌<◌, ◌≤◌, ◌∷◌, [], Some, None, true, false, take, drop, length, option_and_then, IfOk, IfSome, IfNone, IsErr, IsErrOf};
ghost use Rattle.std.specs.List.{list_all};
ghost use Rattle.bq_base.specs.Limits.{AreBounded};
ghost use Rattle.bq_label.specs.Workspace.{workspace_within};
ghost use Rattle.bq_run.specs.Bundle.{BeginsWith, bundle_of, bundle_within, cut, files_of, is_whole, lines};

use bq_base::{Bytes, Limits};
use bq_label::{File, Workspace};
use bq_run_device::{ByteSource, ReadFault, read_all};
use bq_run_write::RunErr;
use memchr::{memchr, memmem};
use std::alloc::{AllocError, Global};

/// What a header line begins with.
const MARKER: &[u8] = b"=== ";

/// The end of a line, and then what a header line begins with.
const NEXT_HEADER: &[u8] = b"\n=== ";

/// Returns the length of the first line, with its newline.
fn line_len(text: &[u8]) -> usize
    requires { 0 < length text.now }
    ensures some { 0 < result }
    ensures within { result ≤ length text.now }
    ensures first { lines text.now ≡ take result text.now ∷ lines (drop result text.now) }
{
    match memchr(b'\n', text) {
        Some(at) => at + 1,
        None => text.len(),
    }
}

/// Returns how many bytes there are before the first header.
fn lead(text: &[u8]) -> usize
    ensures within { result ≤ length text.now }
    ensures bytes { (cut (lines text.now)).before ≡ take result text.now }
    ensures parts { (cut (lines text.now)).parts ≡ (cut (lines (drop result text.now))).parts }
    ensures stops { (cut (lines (drop result text.now))).before ≡ [] }
{
    if text.starts_with(MARKER) {
        return 0;
    }
    match memmem::find(text, NEXT_HEADER) {
        Some(newline) => newline + 1,
        None => text.len(),
    }
}

/// A file as the text has it: its path, its content, and the text from the next header on.
#[derive(Clone, Copy)]
struct BundleFile<'a> {
    path: &'a [u8],
    content: &'a [u8],
    rest: &'a [u8],
}

/// Returns the first piece of a text that begins with a header, if that header has a newline.
fn first_piece(text: &[u8]) -> Option<BundleFile<'_>>
    requires some { 0 < length text.now }
    requires header { (cut (lines text.now)).before ≡ [] }
    ensures found { IfSome result (λ p. BeginsWith text.now p.path.now p.content.now p.rest.now) }
    ensures none { IfNone result (list_all is_whole (cut (lines text.now)).parts ≡ false) }
{
    let n = line_len(text);
    let line = &text[..n];
    if n < 5 || line[n - 1] != b'\n' {
        return None;
    }
    let body = &text[n..];
    let size = lead(body);
    Some(BundleFile {
        path: &line[4..n - 1],
        content: &body[..size],
        rest: &body[size..],
    })
}

fn make_file(alloc: Global, path: &[u8], content: &[u8]) -> Result<File, AllocError>
    ensures { IfOk result (λ file. file ≡ record { path = path.now; content = content.now }) }
{
    let path = Bytes::from_slice(alloc, path)?;
    let content = Bytes::from_slice(alloc, content)?;
    Ok(File { path, content })
}

/// Returns the files of a text in their order there. At the first that is one too many it ends, so that no more are kept.
fn files_in(alloc: Global, limits: Limits, text: &[u8]) -> Result<Vec<File>, RunErr>
    ensures found { IfOk result (λ files. files_of text.now ≡ Some files.items) }
    ensures none { IsErrOf result RunErr.Bundle → option_and_then (workspace_within limits) (files_of text.now) ≡ None }
    ensures only { IsErr result → IsErrOf result RunErr.Bundle ⊎ IsErrOf result RunErr.Memory }
{
    if lead(text) != 0 {
        return Err(RunErr::Bundle);
    }
    let mut files = Vec::new(alloc);
    let mut rest = text;
    while !rest.is_empty() {
        let Some(piece) = first_piece(rest) else {
            return Err(RunErr::Bundle);
        };
        if files.len() >= limits.files {
            return Err(RunErr::Bundle);
        }
        files.push(make_file(alloc, piece.path, piece.content)?)?;
        rest = piece.rest;
    }
    Ok(files)
}

/// Makes the workspace of a bundle. The text is dropped before the files are put in order.
#[tactic(auto, unfolding(crate::specs::Bundle::bundle_within))]
fn workspace_in(alloc: Global, limits: Limits, text: Vec<u8>) -> Result<Workspace, RunErr>
    requires bounded { AreBounded limits }
    requires short { length text.items ≤ limits.bundle_bytes }
    ensures found { IfOk result (λ w. bundle_within limits text.items ≡ Some w) }
    ensures none { IsErrOf result RunErr.Bundle → bundle_within limits text.items ≡ None }
    ensures only { IsErr result → IsErrOf result RunErr.Bundle ⊎ IsErrOf result RunErr.Memory }
{
    let files = files_in(alloc, limits, &text)?;
    drop(text);
    match Workspace::within(limits, files) {
        Ok(workspace) => Ok(workspace),
        Err(_) => Err(RunErr::Bundle),
    }
}

/// Reads a bundle to its end, by the standard limits.
///
/// E2: a read failed; it is not tried again. E4: the bytes are no bundle, or are more than the limit, as they are of a
/// reader that never ends. E1: memory was refused.
pub fn read_bundle<R: ByteSource>(alloc: Global, reader: &mut R) -> Result<Workspace, RunErr>
    requires { R.failed reader.old < 2 ^ 64 - 1 }
    ensures found { IfOk result (λ w. IfSome (R.remaining reader.old) (λ input. bundle_of input ≡ Some w)) }
    ensures none { IsErrOf result RunErr.Bundle → IfSome (R.remaining reader.old) (λ input. bundle_of input ≡ None) }
    ensures device { IsErrOf result RunErr.Read → R.failed reader.new ≡ R.failed reader.old + 1 }
    ensures quiet { (IsErrOf result RunErr.Read → ⊥) → R.failed reader.new ≡ R.failed reader.old }
    ensures only { IsErr result → IsErrOf result RunErr.Bundle ⊎ IsErrOf result RunErr.Memory ⊎ IsErrOf result RunErr.Read }
{
    read_bundle_within(alloc, Limits::standard(), reader)
}

/// Reads a bundle to its end, as [`read_bundle`] does, by these limits.
#[tactic(auto, unfolding(crate::specs::Bundle::bundle_within))]
pub fn read_bundle_within<R: ByteSource>(
    alloc: Global,
    limits: Limits,
    reader: &mut R,
) -> Result<Workspace, RunErr>
    requires bounded { AreBounded limits }
    requires reader { R.failed reader.old < 2 ^ 64 - 1 }
    ensures found { IfOk result (λ w. IfSome (R.remaining reader.old) (λ input. bundle_within limits input ≡ Some w)) }
    ensures none { IsErrOf result RunErr.Bundle → IfSome (R.remaining reader.old) (λ input. bundle_within limits input ≡ None) }
    ensures device { IsErrOf result RunErr.Read → R.failed reader.new ≡ R.failed reader.old + 1 }
    ensures quiet { (IsErrOf result RunErr.Read → ⊥) → R.failed reader.new ≡ R.failed reader.old }
    ensures only { IsErr result → IsErrOf result RunErr.Bundle ⊎ IsErrOf result RunErr.Memory ⊎ IsErrOf result RunErr.Read }
{
    match read_all(alloc, reader, limits.bundle_bytes) {
        Ok(text) => workspace_in(alloc, limits, text),
        Err(ReadFault::Memory) => Err(RunErr::Memory),
        Err(ReadFault::Device) => Err(RunErr::Read),
        Err(ReadFault::TooLong) => Err(RunErr::Bundle),
    }
}
