//! What a run reads and writes. A device and a text, or a limit, come in; the text goes out to the device whole, or all
//! that the device gives comes back. The path of a directory comes in; the workspace of the files in it and below it
//! goes out.
//!
//! The promise: [`write_all`] and [`write_rope`] write exactly the text, or a beginning of it after one failed call;
//! [`read_all`] returns all that the reader had left, or fails after one failed call or beyond its limit. No failed
//! call is hidden or tried again: each device counts those that failed (`specs/Device.antt`). What [`read_directory`]
//! reads makes a workspace whose files have no more bytes together than a bundle may have, or there is a reason why not
//! ([`DirectoryErr`]). No contract says what a disk holds; the tests of the program show that a directory is read as
//! the bundle of its files would be.
//!
//! Of a directory only the bytes of BUILD files, of .bzl files and of the schema at the root are read, each once; of
//! all other files the paths count. Of a BUILD or .bzl file at most as many bytes are read as a run looks at, and of
//! all files together no more than a bundle may have, and one. Nothing is read but regular files. Links are followed: a
//! link to a file is that file, a link to a directory is a directory with the same files. Left out are
//!
//! - a directory inside itself, by a link that leads back: it is known by its device and inode;
//! - a link that leads to nothing, or in a circle of links, where its bytes would not be read;
//! - what is neither a file nor a directory, and each name that makes no valid path of a workspace;
//! - `.git`, links named `bazel-..` at the root, and the directories that a file `.bazelignore` at the root names.
//!
//! At most 1,048,576 directories are read, so that links which lead to one another in very many ways end the walk, too.
//!
//! In reading order:
//!
//! - `device`: readers and writers that count their failures;
//! - `transfer`: reading to the end, and writing a whole text;
//! - `directory_err`: why a directory makes no workspace;
//! - `content`: how much a run reads of a file;
//! - `prefix`: the first bytes of files;
//! - `ignored`: the directories that `.bazelignore` names;
//! - `walk`: the directories that are still to be read, and the files so far;
//! - `directory`: the workspace;
//! - `laws`: a run makes the same of what is read of a file as of the whole file.
#![tactic(auto)]

mod content;
mod device;
mod directory;
mod directory_err;
mod ignored;
mod laws;
mod prefix;
mod transfer;
mod walk;

pub use device::{ByteSink, ByteSource, Counted, Metered};
pub use directory::read_directory;
pub use directory_err::DirectoryErr;
pub use laws::cut_files_read_the_same;
pub use transfer::{ReadFault, WriteFault, read_all, write_all, write_rope};
