//! Directories on disk, read as the workspaces of their files.
//!
//! A row is a call: `new` makes an empty directory of a path, `dir` one with those around it, `file` a file of these bytes, `link` a
//! link to where it leads; `read` gives the files below a path, a line each, or says that they are refused; and `within` does so where
//! those that are read may have so many bytes together.

ghost use Rattle.bq_base.specs.Limits.{AreBounded};

use crate::rows::{Row, Subject, check_rows};
use bq_base::Limits;
use bq_label::{File, Workspace};
use bq_run_device::{DirectoryErr, read_directory};
use std::alloc::{AllocError, Global};
use std::os::fd::AsRawFd;
use std::os::unix::fs::symlink;
use std::{fs, io};

/// Adds a file a line: its path, ` = ` and its bytes.
fn add_files(text: &mut Vec<u8>, files: &[File]) -> Result<(), AllocError> {
    for file in files {
        text.extend_from_slice(file.path.as_slice())?;
        text.extend_from_slice(b" = ")?;
        text.extend_from_slice(file.content.as_slice())?;
        text.push(b'\n')?;
    }
    Ok(())
}

fn shown(alloc: Global, workspace: &Workspace) -> Result<Vec<u8>, AllocError> {
    let mut text = Vec::new(alloc);
    add_files(&mut text, workspace.files())?;
    Ok(text)
}

/// The standard limits, but for the bytes.
fn limits_of(bundle_bytes: usize) -> Limits
    ensures { AreBounded result }
{
    Limits {
        bundle_bytes,
        ..Limits::standard()
    }
}

/// The files of a directory.
fn read(rt: &HostRuntime, root: &str, limits: Limits) -> Result<Vec<u8>, AllocError>
    requires { AreBounded limits }
{
    let found = read_directory(rt, root, limits);
    let text = match &found {
        Ok(workspace) => shown(rt.alloc(), workspace),
        Err(DirectoryErr::Read) => b"refused".to_vec(rt.alloc()),
        Err(DirectoryErr::TooManyBytes) => b"too many bytes".to_vec(rt.alloc()),
        Err(_) => b"no answer".to_vec(rt.alloc()),
    };
    drop(found);
    text
}

fn fresh(rt: &HostRuntime, root: &str) -> io::Result<()> {
    if fs::exists(rt, root)? {
        fs::remove_dir_all(rt, root)?;
    }
    fs::create_dir_all(rt, root)
}

/// Makes what the first letter of a word says.
fn make(rt: &HostRuntime, word: &[u8], path: &str, of: &str) -> io::Result<()> {
    match word {
        [b'd', ..] => fs::create_dir_all(rt, path),
        [b'f', ..] => fs::write(rt, path, of.as_bytes()),
        [b'l', ..] => symlink(rt, of, path),
        _ => fresh(rt, path),
    }
}

fn text_of(bytes: &[u8]) -> &str {
    str::from_utf8(bytes).unwrap_or("?")
}

/// Calls on a disk.
#[derive(Drop)]
struct Disk<'a>(&'a HostRuntime);

/// What a call of a row gives, with a path and what it is made of.
fn called(rt: &HostRuntime, word: &[u8], path: &str, of: &str) -> Result<Vec<u8>, AllocError> {
    if word == b"read".as_slice() {
        return read(rt, path, Limits::standard());
    }
    if word == b"within".as_slice() {
        return read(rt, path, limits_of(of.parse::<usize>().unwrap_or(0)));
    }
    match make(rt, word, path, of) {
        Ok(()) => Ok(Vec::new(rt.alloc())),
        Err(_) => b"failed".to_vec(rt.alloc()),
    }
}

impl Subject for Disk<'_> {
    fn answer(&self, alloc: Global, text: &[u8], row: Row) -> Result<Vec<u8>, AllocError> {
        let path = row.bytes(alloc, 1)?;
        let of = row.bytes(alloc, 2)?;
        called(self.0, text, text_of(&path), text_of(&of))
    }
}

#[test]
fn reads_what_lies_below(rt: HostRuntime) -> Result<(), AllocError> {
    check_rows(&rt, rt.alloc(), BELOW, &Disk(&rt))
}

#[test]
fn reads_only_the_bytes_that_count(rt: HostRuntime) -> Result<(), AllocError> {
    check_rows(&rt, rt.alloc(), BYTES, &Disk(&rt))
}

#[test]
fn follows_links(rt: HostRuntime) -> Result<(), AllocError> {
    check_rows(&rt, rt.alloc(), LINKS, &Disk(&rt))
}

#[test]
fn enters_no_directory_from_within(rt: HostRuntime) -> Result<(), AllocError> {
    check_rows(&rt, rt.alloc(), CIRCLES, &Disk(&rt))
}

#[test]
fn leaves_out_what_is_not_of_the_workspace(rt: HostRuntime) -> Result<(), AllocError> {
    check_rows(&rt, rt.alloc(), OTHERS, &Disk(&rt))
}

#[test]
fn stops_at_what_is_not_there(rt: HostRuntime) -> Result<(), AllocError> {
    check_rows(&rt, rt.alloc(), LOST, &Disk(&rt))
}

/// Makes a link to the pipe of this number. Whether it could.
fn links_to_pipe(rt: &HostRuntime, pipe: i32) -> bool {
    match format!(in rt.alloc(); "/proc/self/fd/{pipe}") {
        Ok(pipe) => symlink(rt, pipe.as_str(), "out/special/BUILD").is_ok(),
        Err(_) => false,
    }
}

/// What is read of a directory with a file and links to a device and to the pipe of this number.
fn read_special(rt: &HostRuntime, pipe: i32) -> Result<Vec<u8>, AllocError> {
    if links_to_pipe(rt, pipe) {
        return read(rt, "out/special", Limits::standard());
    }
    b"failed".to_vec(rt.alloc())
}

/// Whether nothing of a pipe and of a device is read.
fn are_left_out(rt: &HostRuntime) -> Result<bool, AllocError> {
    let Ok((reader, writer)) = io::pipe(rt) else {
        return Ok(false);
    };
    let found = read_special(rt, reader.as_raw_fd());
    drop(reader);
    drop(writer);
    Ok(found?.as_slice() == b"x = \n".as_slice())
}

#[test]
fn leaves_out_what_is_no_file(rt: HostRuntime) -> Result<(), AllocError> {
    check_rows(&rt, rt.alloc(), SPECIAL, &Disk(&rt))?;
    assert!(rt; are_left_out(&rt)?);
    Ok(())
}

const BELOW: &str = r#"
new | out/below | |
dir | out/below/a/b | |
dir | out/below/empty/.git | |
file | out/below/a/b/BUILD | inner |
file | out/below/BUILD | outer |
file | out/below/a/b.c | |
file | out/below/a/no:path | left out |
file | out/below/a/n\xc3\xa4me | left out |
read | out/below | | BUILD = outer\na/b.c = \na/b/BUILD = inner\n
read | out/below/ | | BUILD = outer\na/b.c = \na/b/BUILD = inner\n
read | ./out/below | | BUILD = outer\na/b.c = \na/b/BUILD = inner\n
"#;

/// The core is a file that is there, and that no one can read from its start.
const BYTES: &str = r#"
new | out/bytes | |
dir | out/bytes/a | |
file | out/bytes/rules.schema | rule r |
file | out/bytes/a/rules.schema | another |
file | out/bytes/a/BUILD | b |
file | out/bytes/a/BUILD.bazel | bazel |
file | out/bytes/a/BUILD.gn | another |
file | out/bytes/a/m.bzl | m |
file | out/bytes/a/main.c | int main; |
link | out/bytes/core | /proc/self/mem |
read | out/bytes | | a/BUILD = b\na/BUILD.bazel = bazel\na/BUILD.gn = \na/m.bzl = m\na/main.c = \na/rules.schema = \ncore = \nrules.schema = rule r\n
# 1 and 5 and 1 byte of a, and 6 of the schema
within | out/bytes | 13 | a/BUILD = b\na/BUILD.bazel = bazel\na/BUILD.gn = \na/m.bzl = m\na/main.c = \na/rules.schema = \ncore = \nrules.schema = rule r\n
within | out/bytes | 12 | too many bytes
within | out/bytes | 0 | too many bytes
link | out/bytes/core.bzl | /proc/self/mem |
read | out/bytes | | refused
"#;

const LINKS: &str = r#"
new | out/links | |
dir | out/links/there | |
file | out/links/there/x.bzl | 1 |
link | out/links/BUILD | there/x.bzl |
link | out/links/again | there |
read | out/links | | BUILD = 1\nagain/x.bzl = 1\nthere/x.bzl = 1\n
"#;

const CIRCLES: &str = r#"
new | out/circle | |
dir | out/circle/a/b | |
dir | out/circle/c | |
file | out/circle/a/b/x | |
file | out/circle/c/y | |
link | out/circle/round | . |
link | out/circle/a/b/up | ../.. |
link | out/circle/a/again | ../../circle |
# Two that lead into one another: each is seen in the other, once.
link | out/circle/a/b/there | ../../c |
link | out/circle/c/back | ../a/b |
read | out/circle | | a/b/there/y = \na/b/x = \nc/back/x = \nc/y = \n
# From outside through a link: the root itself is one of the directories around.
dir | out/circle/outside/root | |
link | out/circle/outside/root/out | .. |
file | out/circle/outside/z | |
read | out/circle/outside/root | | out/z = \n
"#;

const OTHERS: &str = r#"
new | out/others | |
dir | out/others/.git/objects | |
dir | out/others/a/.git | |
dir | out/others/a/node_modules/x | |
dir | out/others/node_modules | |
dir | out/others/build/out | |
dir | out/others/bazel-tools | |
file | out/others/.git/objects/BUILD | 1 |
file | out/others/a/.git/BUILD | 1 |
file | out/others/a/node_modules/x/BUILD | 1 |
file | out/others/node_modules/BUILD | 2 |
file | out/others/build/out/BUILD | 3 |
file | out/others/build/outer | |
file | out/others/bazel-tools/BUILD | 4 |
link | out/others/bazel-out | build |
link | out/others/bazel-bin | nothing |
link | out/others/a/bazel-out | ../build/out |
read | out/others | | a/bazel-out/BUILD = 3\na/node_modules/x/BUILD = 1\nbazel-tools/BUILD = 4\nbuild/out/BUILD = 3\nbuild/outer = \nnode_modules/BUILD = 2\n
file | out/others/.bazelignore | \x23 of other tools\n\nnode_modules/\n./build/out\nbuild/outer\r\n |
read | out/others | | .bazelignore = \na/bazel-out/BUILD = 3\na/node_modules/x/BUILD = 1\nbazel-tools/BUILD = 4\nbuild/outer = \n
"#;

const SPECIAL: &str = r#"
new | out/special | |
file | out/special/x | |
link | out/special/null.bzl | /dev/null |
"#;

const LOST: &str = r#"
new | out/lost | |
link | out/lost/link | nothing |
link | out/lost/loop | loop |
read | out/lost | |
link | out/lost/link.bzl | nothing |
read | out/lost | | refused
new | out/lost | |
link | out/lost/BUILD | BUILD |
read | out/lost | | refused
read | out/lost/nowhere | | refused
read | out/lost/BUILD | | refused
read | out/| | refused
"#;
