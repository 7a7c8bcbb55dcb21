//! A text of queries and edits in which what changed in a directory stands before each line that reloads.

ghost use Rattle.bq_base.specs.Limits.{AreBounded};

use crate::changes::push_changes;
use crate::commands::{Command, command_of};
use crate::lines::MAX_QUERY_BYTES;
use bq_base::Limits;
use bq_label::Workspace;
use bq_run_device::{DirectoryErr, read_directory};
use std::alloc::{AllocError, Global};
use std::fs::Files;
use std::io;
use std::io::{BufRead, Read};
use std::marker::Model;

/// How much of a line is looked at: more than the longest command and the CR after it.
const MAX_LINE_BYTES: usize = MAX_QUERY_BYTES + 2;

/// How much is read at once of a file that is put.
const PART_BYTES: usize = 65_536;

/// Commands that put files which make no workspace, since one is where a directory of the other is. What is read of a directory
/// has none of these paths.
const REFUSED: &[u8] = b"=== put 0 .git\n\n=== put 0 .git/HEAD\n\n";

/// Commands that remove these files again.
const ALLOWED: &[u8] = b"=== remove .git\n=== remove .git/HEAD\n";

/// What comes next of the text.
#[derive(Clone, Copy)]
enum NextPart {
    /// A line.
    Line,
    /// What is left of a line that is too long to be a command.
    Rest,
    /// So many bytes of a file that is put, with the newline after them.
    Content(usize),
}

/// Limits that a directory may be read by.
#[derive(Drop)]
struct DirectoryLimits {
    limits: Limits,
}

impl Model for DirectoryLimits {
    ghost use Rattle.bq_base.specs.Limits.{AreBounded};
    ghost use Rattle.bq_base.specs.declared.limits.Limits.{Limits};

    ghost Value = { Limits };

    ghost view = { λ l. l.limits };

    ghost invariant = { λ l. AreBounded l.limits };
}

impl DirectoryLimits {
    /// Returns the limits.
    fn get(&self) -> Limits
        ensures { AreBounded result }
    {
        self.limits
    }
}

/// A text of queries and edits over a directory. It reads as the text does, but before each line that reloads come the commands
/// that edit the files of the last look to those that the directory has now. Where it can't be read, or is past the limits, they
/// put files that make no workspace: a session refuses that reload as E4, and goes on.
#[derive(Drop)]
pub struct FollowedText<'a, R, T> {
    rt: &'a R,
    root: &'a str,
    limits: DirectoryLimits,
    text: T,
    /// The files of the directory at the last look that could read it.
    files: Workspace,
    /// Whether it could not be read at the last look.
    is_refused: bool,
    next: NextPart,
    /// What is given next, of which `given` bytes have been.
    ready: Vec<u8>,
    given: usize,
}

impl<'a, R: Files + Alloc<A = Global> + Clone + Drop, T: BufRead> FollowedText<'a, R, T> {
    /// Returns the text over the directory at `root`, which had these files at the first look.
    pub fn new(
        rt: &'a R,
        root: &'a str,
        limits: Limits,
        files: Workspace,
        text: T,
    ) -> FollowedText<'a, R, T>
        requires { AreBounded limits }
    {
        FollowedText {
            rt,
            root,
            limits: DirectoryLimits { limits },
            text,
            files,
            is_refused: false,
            next: NextPart::Line,
            ready: Vec::new(rt.alloc()),
            given: 0,
        }
    }

    /// Looks at the directory, and puts the commands for what became of its files before the line that is ready.
    fn look(&mut self) -> Result<(), AllocError> {
        let mut text = Vec::new(self.rt.alloc());
        if self.is_refused {
            text.extend_from_slice(ALLOWED)?;
        }
        match read_directory(self.rt, self.root, self.limits.get()) {
            Ok(files) => {
                push_changes(&mut text, &self.files, &files)?;
                self.files = files;
                self.is_refused = false;
            }
            Err(DirectoryErr::Memory) => return Err(AllocError),
            Err(_) => {
                text.extend_from_slice(REFUSED)?;
                self.is_refused = true;
            }
        }
        text.extend_from_slice(self.ready.as_slice())?;
        self.ready = text;
        Ok(())
    }

    /// Reads a line, or the first part of one that is too long to be a command. A line that reloads has its commands before it.
    fn read_line(&mut self) -> io::Result<()> {
        self.read_to_newline()?;
        if !self.ends_line() && self.ready.len() == MAX_LINE_BYTES {
            self.next = NextPart::Rest;
            return Ok(());
        }
        let line = without_end(self.ready.as_slice());
        match command_of(self.rt.alloc(), line, self.limits.get().bundle_bytes)? {
            Command::Put(count, _) => self.next = NextPart::Content(count.saturating_add(1)),
            Command::Reload => self.look()?,
            _ => {}
        }
        Ok(())
    }

    /// Reads up to a newline, but at most what is looked at of a line.
    fn read_to_newline(&mut self) -> io::Result<()> {
        let mut part = self.text.by_ref().take(MAX_LINE_BYTES as u64);
        part.read_until(b'\n', &mut self.ready)?;
        Ok(())
    }

    /// Returns whether what is ready ends a line.
    fn ends_line(&self) -> bool {
        self.ready.ends_with(b"\n")
    }

    /// Reads bytes of a file that is put, of which so many are to come.
    fn read_content(&mut self, count: usize) -> io::Result<()> {
        let part = count.min(PART_BYTES);
        let read = self
            .text
            .by_ref()
            .take(part as u64)
            .read_to_end(&mut self.ready)?;
        self.next = match count.saturating_sub(read) {
            0 => NextPart::Line,
            left => NextPart::Content(left),
        };
        Ok(())
    }

    /// Makes ready what comes next. At the end of the text that is nothing.
    fn fill(&mut self) -> io::Result<()> {
        self.ready.clear();
        self.given = 0;
        match self.next {
            NextPart::Line => self.read_line(),
            NextPart::Rest => {
                self.read_to_newline()?;
                if self.ends_line() {
                    self.next = NextPart::Line;
                }
                Ok(())
            }
            NextPart::Content(count) => self.read_content(count),
        }
    }
}

impl<'a, R: Files + Alloc<A = Global> + Clone + Drop, T: BufRead> Read for FollowedText<'a, R, T> {
    fn read(&mut self, buf: &mut [u8]) -> io::Result<usize> {
        if self.given >= self.ready.len() {
            self.fill()?;
        }
        let mut left = self.ready.get(self.given..).unwrap_or(&[]);
        let count = left.read(buf)?;
        self.given = self.given.saturating_add(count);
        Ok(count)
    }
}

/// Returns a line without its LF or CRLF.
fn without_end(line: &[u8]) -> &[u8] {
    let line = line.strip_suffix(b"\n").unwrap_or(line);
    line.strip_suffix(b"\r").unwrap_or(line)
}
