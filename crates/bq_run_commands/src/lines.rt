//! The lines of a text, which end with LF or CRLF, as far as they count.

ghost use Rattle.std.specs.Prelude.{◌≡◌, ◌⊎◌, ◌+◌, ◌-◌, ◌^◌, ◌<◌, ◌≤◌, ◌∷◌, [], IfOk, IfSome, IfNone, IsErr, IsErrOf};
ghost use Rattle.std.specs.Io.KnownBytes.{Consumes, IsAtEnd};
ghost use Rattle.bq_run_commands.specs.Queries.{without_last};
ghost use Rattle.bq_run_commands.specs.Reading.{TakesLine, TakesText, ahead};

use bq_run::{ByteSource, RunErr};
use std::alloc::Global;

/// The most bytes that a query has.
pub const MAX_QUERY_BYTES: usize = 1 << 20;

/// How much of a line is kept: more than the longest query and the CR after it.
const MAX_LINE_BYTES: usize = MAX_QUERY_BYTES + 2;

/// Reads a byte, of which at most `left` are to come. None is the end.
pub(crate) fn read_byte<R: ByteSource>(reader: &mut R, left: &mut u64) -> Result<Option<u8>, RunErr>
    requires { R.failed reader.old < 2 ^ 64 - 1 }
    ensures byte { IfOk result (λ r. IfSome r (λ b. Consumes (ahead left.old (R.remaining reader.old)) (ahead left.new (R.remaining reader.new)) (b ∷ []))) }
    ensures fewer { IfOk result (λ r. IfSome r (λ b. left.new < left.old)) }
    ensures no_more { left.new ≤ left.old }
    ensures end { IfOk result (λ r. IfNone r (Consumes (ahead left.old (R.remaining reader.old)) (ahead left.new (R.remaining reader.new)) [] × IsAtEnd (ahead left.new (R.remaining reader.new)))) }
    ensures only { IsErr result → IsErrOf result RunErr.Read }
    ensures device { IsErr result → R.failed reader.new ≡ R.failed reader.old + 1 }
    ensures quiet { IfOk result (λ _. R.failed reader.new ≡ R.failed reader.old) }
{
    if *left == 0 {
        return Ok(None);
    }
    let mut byte = [0];
    match reader.read(&mut byte) {
        Err(_) => Err(RunErr::Read),
        Ok(0) => Ok(None),
        Ok(_) => {
            *left -= 1;
            Ok(Some(byte[0]))
        }
    }
}

/// Reads a line, and returns what counts of it, without its newline.
fn read_line<R: ByteSource>(
    alloc: Global,
    reader: &mut R,
    left: &mut u64,
) -> Result<Option<Vec<u8>>, RunErr>
    requires { R.failed reader.old < 2 ^ 64 - 1 }
    ensures line { IfOk result (λ r. IfSome r (λ line. TakesLine (ahead left.old (R.remaining reader.old)) (ahead left.new (R.remaining reader.new)) line.items)) }
    ensures fewer { IfOk result (λ r. IfSome r (λ line. left.new < left.old)) }
    ensures end { IfOk result (λ r. IfNone r (IsAtEnd (ahead left.old (R.remaining reader.old)))) }
    ensures only { IsErr result → IsErrOf result RunErr.Memory ⊎ IsErrOf result RunErr.Read }
    ensures device { IsErrOf result RunErr.Read → R.failed reader.new ≡ R.failed reader.old + 1 }
    ensures quiet { (IsErrOf result RunErr.Read → ⊥) → R.failed reader.new ≡ R.failed reader.old }
{
    let mut line = Vec::new(alloc);
    while let Some(byte) = read_byte(reader, left)? {
        if byte == b'\n' {
            return Ok(Some(line));
        }
        if line.len() < MAX_LINE_BYTES {
            line.push(byte)?;
        }
    }
    if line.is_empty() {
        return Ok(None);
    }
    Ok(Some(line))
}

/// Drops the CR at the end, if there is one.
#[tactic(auto, using(crate::proofs::FirstLines::last_dropped, crate::proofs::FirstLines::last_kept, crate::proofs::FirstLines::none_kept))]
fn drop_cr(line: &mut Vec<u8>)
    ensures { line.new.items ≡ without_last 13 line.old.items }
{
    if line.is_empty() {
        return;
    }
    let last = line.len() - 1;
    if line[last] == b'\r' {
        line.truncate(last);
    }
}

/// Reads a line, and returns what counts of it, without its LF or CRLF.
pub(crate) fn next_line<R: ByteSource>(
    alloc: Global,
    reader: &mut R,
    left: &mut u64,
) -> Result<Option<Vec<u8>>, RunErr>
    requires { R.failed reader.old < 2 ^ 64 - 1 }
    ensures line { IfOk result (λ r. IfSome r (λ line. TakesText (ahead left.old (R.remaining reader.old)) (ahead left.new (R.remaining reader.new)) line.items)) }
    ensures fewer { IfOk result (λ r. IfSome r (λ line. left.new < left.old)) }
    ensures end { IfOk result (λ r. IfNone r (IsAtEnd (ahead left.old (R.remaining reader.old)))) }
    ensures only { IsErr result → IsErrOf result RunErr.Memory ⊎ IsErrOf result RunErr.Read }
    ensures device { IsErrOf result RunErr.Read → R.failed reader.new ≡ R.failed reader.old + 1 }
    ensures quiet { (IsErrOf result RunErr.Read → ⊥) → R.failed reader.new ≡ R.failed reader.old }
{
    let Some(mut line) = read_line(alloc, reader, left)? else {
        return Ok(None);
    };
    drop_cr(&mut line);
    Ok(Some(line))
}
