//! The first bytes of files.

ghost use Rattle.std.specs.Prelude.{◌≡◌, ◌≤◌, length, take, IfOk, IfSome};

use std::alloc::Global;
use std::fs::{File, Files, OpenFile};
use std::io::Read;
use std::{fs, io};

/// Returns what the reader gives, but at most the first `most` bytes. Room is made at once for as many as are expected.
fn prefix_of<R: Read + Drop>(
    alloc: Global,
    reader: R,
    most: usize,
    expected: usize,
) -> io::Result<Vec<u8>>
    ensures fits { IfOk result (λ bytes. length bytes.items ≤ most) }
    ensures bytes { IfOk result (λ bytes. IfSome (R.remaining reader) (λ left. bytes.items ≡ take most left)) }
{
    // The read that finds the end takes room for a byte, too.
    let mut bytes = Vec::with_capacity(alloc, expected.saturating_add(1))?;
    let mut prefix = reader.take(most as u64);
    prefix.read_to_end(&mut bytes)?;
    bytes.truncate(most); // PROOF: how many bytes these are is only said of readers whose bytes are known
    Ok(bytes)
}

/// Returns whether a path leads to what isn't a regular file.
fn is_other<R: Files>(rt: &R, path: &str) -> bool {
    match fs::metadata(rt, path) {
        Ok(metadata) => !metadata.is_file(),
        Err(_) => false,
    }
}

/// Returns the first bytes of the file at a path, at most `most`; or nothing, if it isn't a regular file.
///
/// What is at the path may have changed since it was looked at. So what was opened is looked at again, and nothing is read
/// of a device, a pipe or a directory.
pub fn read_prefix<R: Files + Alloc<A = Global>>(
    rt: &R,
    path: &str,
    most: usize,
) -> io::Result<Option<Vec<u8>>>
    ensures { IfOk result (λ found. IfSome found (λ bytes. length bytes.items ≤ most)) }
{
    let file = match File::open(rt, path) {
        Ok(file) => file,
        // A socket can't be opened.
        Err(_) if is_other(rt, path) => return Ok(None),
        Err(error) => return Err(error),
    };
    let metadata = file.metadata()?;
    if !metadata.is_file() {
        return Ok(None);
    }
    let expected = metadata.len().min(most as u64) as usize;
    let bytes = prefix_of(rt.alloc(), file, most, expected)?;
    Ok(Some(bytes))
}
