//! How byte strings and faults are shown to people who look for a mistake. The output of runs is made elsewhere.

ghost use Rattle.std.specs.Prelude.{Some};
ghost use Rattle.std.specs.Fmt.{WritesOnOk};
ghost use Rattle.bq_base.specs.Shown.{shown_byte, shown_text, fault_shown};

use crate::bytes::Bytes;
use crate::fault::{Fault, FaultKind};
use std::fmt;

/// Writes a byte as `escape_ascii` does.
fn write_escaped<W: fmt::Write>(byte: u8, f: &mut fmt::Formatter<W>) -> fmt::Result
    ensures { WritesOnOk W.write_str_gives f.old result (shown_byte byte) f.new }
{
    let mut rest = byte.escape_ascii();
    'escape: while let Some(escaped) = rest.next() {
        f.write_char(escaped as char)?;
    }
    Ok(())
}

/// Printable ASCII stands for itself, but quotes and the backslash with a backslash before them, as any other byte as an escape.
impl fmt::Debug for Bytes {
    ghost debug_output = { λ b. Some (shown_text b) };

    fn fmt<W: fmt::Write>(&self, f: &mut fmt::Formatter<W>) -> fmt::Result {
        for byte in self.as_slice() {
            write_escaped(*byte, f)?;
        }
        Ok(())
    }
}

/// As `line 3: F36 LoadFailed //:f.bzl`.
impl fmt::Display for Fault<FaultKind> {
    ghost output = { λ e. Some (fault_shown e) };

    fn fmt<W: fmt::Write>(&self, f: &mut fmt::Formatter<W>) -> fmt::Result {
        write!(
            f,
            "line {}: F{} {}",
            self.line,
            self.kind.number(),
            self.kind.name()
        )?;
        if !self.detail.is_empty() {
            write!(f, " {:?}", self.detail)?;
        }
        Ok(())
    }
}
