//! The descriptors of standard input, output and error.

use std::fs::File;
use std::os::fd::{AsRawFd, IntoRawFd};

/// The descriptors from 0 on.
const STANDARD: i32 = 3;

/// Opens the root directory in the place of each of them that is closed. Reads of it fail, and writes to it do, just as those of
/// a closed one. Else the next file that is opened would have that number, and would be read as the bundle.
pub fn fill_standard_descriptors(rt: &HostRuntime) {
    for _ in 0..STANDARD {
        let Ok(directory) = File::open(rt, "/") else {
            return;
        };
        // A new descriptor has the lowest number that is free.
        if directory.as_raw_fd() >= STANDARD {
            return;
        }
        let _ = directory.into_raw_fd(); // It stays open.
    }
}
