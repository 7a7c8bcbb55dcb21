//! Reading to the end, and writing a whole text.

ghost use Rattle.std.specs.Prelude.{◌≡◌, ◌+◌, ◌-◌, ◌^◌, ◌<◌, ◌≤◌, length, IfOk, OnOk, OnErr, IfSome, IsErrOf};
ghost use Rattle.std.specs.Io.KnownBytes.{Appends};
ghost use Rattle.std.specs.List.{concat};
ghost use Rattle.bq_run_device.specs.Device.{Begins};
ghost use Rattle.bq_run_device.specs.declared.transfer.ReadFault.TheVariants.{Memory};

use crate::device::{ByteSink, ByteSource};
use bq_base::Bytes;
use bq_base_texts::Rope;
use std::alloc::{AllocError, Global};

/// Why a reader was not read to its end.
#[derive(Clone, Copy, Debug, PartialEq, Eq)]
pub enum ReadFault {
    Memory,
    /// A read failed.
    Device,
    TooLong,
}

impl From<AllocError> for ReadFault {
    ghost from_gives = { λ _ e. e ≡ Memory };

    fn from(_: AllocError) -> Self {
        ReadFault::Memory
    }
}

/// How many bytes a read asks for.
const CHUNK: usize = 65_536;

/// Reads all that the reader has left, at most `limit` bytes of it. The first failed read ends it: none is tried again.
pub fn read_all<R: ByteSource>(
    alloc: Global,
    reader: &mut R,
    limit: usize,
) -> Result<Vec<u8>, ReadFault>
    requires { R.failed reader.old < 2 ^ 64 - 1 }
    ensures fits { IfOk result (λ bytes. length bytes.items ≤ limit) }
    ensures all { IfOk result (λ bytes. IfSome (R.remaining reader.old) (λ left. bytes.items ≡ left)) }
    ensures too_long { IsErrOf result ReadFault.TooLong → IfSome (R.remaining reader.old) (λ left. limit < length left) }
    ensures device { IsErrOf result ReadFault.Device → R.failed reader.new ≡ R.failed reader.old + 1 }
    ensures quiet { (IsErrOf result ReadFault.Device → ⊥) → R.failed reader.new ≡ R.failed reader.old }
{
    let mut bytes = Vec::new(alloc);
    let mut chunk = [0; CHUNK];
    while bytes.len() <= limit {
        match reader.read(&mut chunk) {
            Err(_) => return Err(ReadFault::Device),
            Ok(0) => return Ok(bytes),
            Ok(n) => bytes.extend_from_slice(&chunk[..n])?,
        }
    }
    Err(ReadFault::TooLong)
}

/// A writer failed before it had the whole text.
#[derive(Clone, Copy, Debug, PartialEq, Eq)]
pub struct WriteFault;

/// Writes the whole text. A write of some bytes that takes none is a failure. The first failed write ends it: none is
/// tried again.
pub fn write_all<W: ByteSink>(writer: &mut W, text: &[u8]) -> Result<(), WriteFault>
    requires { W.failed writer.old < 2 ^ 64 - 1 }
    ensures whole { OnOk result (Appends (W.contents writer.old) (W.contents writer.new) text.now) }
    ensures begins { Begins (W.contents writer.old) (W.contents writer.new) text.now }
    ensures device { OnErr result (W.failed writer.new ≡ W.failed writer.old + 1) }
    ensures quiet { OnOk result (W.failed writer.new ≡ W.failed writer.old) }
{
    let mut at = 0;
    while at < text.len() {
        match writer.write(&text[at..]) {
            Err(_) => return Err(WriteFault),
            Ok(0) => return Err(WriteFault),
            Ok(n) => at += n,
        }
    }
    Ok(())
}

/// Writes all these strings, one after another.
fn write_pieces<W: ByteSink>(writer: &mut W, pieces: &[Bytes]) -> Result<(), WriteFault>
    requires { W.failed writer.old < 2 ^ 64 - 1 }
    ensures whole { OnOk result (Appends (W.contents writer.old) (W.contents writer.new) (concat pieces.now)) }
    ensures begins { Begins (W.contents writer.old) (W.contents writer.new) (concat pieces.now) }
    ensures device { OnErr result (W.failed writer.new ≡ W.failed writer.old + 1) }
    ensures quiet { OnOk result (W.failed writer.new ≡ W.failed writer.old) }
{
    for piece in pieces {
        write_all(writer, piece.as_slice())?;
    }
    Ok(())
}

/// Writes all of a text that is held in parts, as [`write_all`] does.
pub fn write_rope<W: ByteSink>(writer: &mut W, text: &Rope) -> Result<(), WriteFault>
    requires { W.failed writer.old < 2 ^ 64 - 1 }
    ensures whole { OnOk result (Appends (W.contents writer.old) (W.contents writer.new) text.now) }
    ensures begins { Begins (W.contents writer.old) (W.contents writer.new) text.now }
    ensures device { OnErr result (W.failed writer.new ≡ W.failed writer.old + 1) }
    ensures quiet { OnOk result (W.failed writer.new ≡ W.failed writer.old) }
{
    let parts = text.parts();
    write_pieces(writer, parts.pieces)?;
    write_all(writer, parts.rest)
}
