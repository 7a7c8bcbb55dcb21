//! The directories that a workspace tells Bazel to leave out.

use crate::directory_err::DirectoryErr;
use crate::prefix::read_prefix;
use bq_base::Bytes;
use bq_base_texts::NameSet;
use std::alloc::{AllocError, Global};
use std::fs::Files;
use std::{fs, io};

/// The file at the root that names them, one on each line.
pub const IGNORE_FILE: &str = ".bazelignore";

/// The most bytes that it may have.
const MAX_IGNORE_BYTES: usize = 1_048_576;

/// Returns the path that a line names: without blanks around it, `./` before it and a slash after it.
fn path_of(line: &[u8]) -> &[u8] {
    let path = line.trim_ascii();
    let path = path.strip_prefix(b"./").unwrap_or(path);
    path.strip_suffix(b"/").unwrap_or(path)
}

/// Returns the directories that a text names, one on each line, by their paths from the root. Blank lines, and lines that begin with `#`,
/// name none.
fn ignored_directories(alloc: Global, text: &[u8]) -> Result<NameSet, AllocError> {
    let mut ignored = NameSet::new(alloc);
    for line in text.split(|byte| *byte == b'\n') {
        let path = path_of(line);
        if !path.is_empty() && !path.starts_with(b"#") {
            ignored.add(&Bytes::from_slice(alloc, path)?)?;
        }
    }
    Ok(ignored)
}

/// Returns the directories that the file at this path names: none, if it isn't there or isn't a regular file.
pub fn read_ignored<R: Files + Alloc<A = Global>>(
    rt: &R,
    path: &str,
) -> Result<NameSet, DirectoryErr> {
    let alloc = rt.alloc();
    match fs::metadata(rt, path) {
        Ok(metadata) if metadata.is_file() => {}
        Ok(_) => return Ok(NameSet::new(alloc)),
        Err(error) if error.kind() == io::ErrorKind::NotFound => return Ok(NameSet::new(alloc)),
        Err(error) => return Err(error.into()),
    }
    let Some(text) = read_prefix(rt, path, MAX_IGNORE_BYTES + 1)? else {
        return Ok(NameSet::new(alloc));
    };
    if text.len() > MAX_IGNORE_BYTES {
        return Err(DirectoryErr::TooManyBytes);
    }
    Ok(ignored_directories(alloc, &text)?)
}
