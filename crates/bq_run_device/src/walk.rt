//! A walk through a directory: the directories that are still to be read, and the files so far.

ghost use Rattle.std.specs.Prelude.{◌≡◌, ◌+◌, length, IfOk, IfSome, IfNone, OnOk};
ghost use Rattle.bq_run_device.specs.Walk.{GoesOn, KeepsLimit};

use crate::content::bytes_looked_at;
use crate::directory_err::DirectoryErr;
use crate::ignored::{IGNORE_FILE, read_ignored};
use crate::prefix::read_prefix;
use bq_base::{Bytes, Limits};
use bq_base_texts::NameSet;
use bq_label::{File, is_path};
use std::alloc::Global;
use std::fs::{DirEntry, Files, Metadata};
use std::os::unix::fs::MetadataExt;
use std::path::Path;
use std::{fs, io};

/// Which directory of the system this is, by whatever path.
#[derive(Clone, Copy, PartialEq, Eq)]
pub struct Identity {
    device: u64,
    inode: u64,
}

impl Identity {
    fn of(metadata: &Metadata) -> Identity {
        Identity {
            device: metadata.dev(),
            inode: metadata.ino(),
        }
    }
}

/// A directory that is still to be read.
#[derive(Drop)]
pub struct Pending {
    pub path: String,
    pub identity: Identity,
    /// How many directories it lies in, the root among them.
    pub depth: usize,
}

/// A walk through the directory at a root.
#[derive(Drop)]
pub struct DirectoryWalk {
    alloc: Global,
    /// How many bytes come before the path of a file in the workspace: those of the root, with a slash.
    root_len: usize,
    /// The directories that `.bazelignore` at the root names.
    ignored: NameSet,
    /// The directories that are still to be read. The last one is read next.
    pub pending: Vec<Pending>,
    /// The directories around the one that is read now, the root first, and then that one itself.
    pub around: Vec<Identity>,
    /// The files so far.
    pub files: Vec<File>,
    /// How much is read at most.
    pub limits: Limits,
    /// How many bytes the files that are still to be read may have together.
    bytes_left: usize,
}

impl DirectoryWalk {
    /// Begins a walk: the root is to be read, and `.bazelignore` there has been.
    pub fn new<R: Files + Alloc<A = Global>>(
        rt: &R,
        root: &str,
        limits: Limits,
    ) -> Result<DirectoryWalk, DirectoryErr>
        ensures keeps { IfOk result (λ w. KeepsLimit w) }
        ensures limits { IfOk result (λ w. w.limits ≡ limits) }
    {
        let alloc = rt.alloc();
        let identity = Identity::of(&fs::metadata(rt, root)?);
        let slash = if root.ends_with('/') { "" } else { "/" };
        let path = format!(in alloc; "{root}{slash}{IGNORE_FILE}")?;
        let ignored = read_ignored(rt, path.as_str())?;
        let mut walk = DirectoryWalk {
            alloc,
            root_len: root.len().saturating_add(slash.len()),
            ignored,
            pending: Vec::new(alloc),
            around: Vec::new(alloc),
            files: Vec::new(alloc),
            limits,
            bytes_left: limits.bundle_bytes,
        };
        walk.push(root, identity)?;
        Ok(walk)
    }

    /// Adds a directory inside the one that is read now to those that are still to be read.
    fn push(&mut self, path: &str, identity: Identity) -> Result<(), DirectoryErr>
        ensures { OnOk result (GoesOn self.old self.new) }
    {
        self.pending.push(Pending {
            path: String::from_str(self.alloc, path)?,
            identity,
            depth: self.around.len(),
        })?;
        Ok(())
    }

    /// Looks at an entry of the directory that is read now, links followed: a file is kept, and a directory will be
    /// read, unless it is ignored or is inside itself by a link.
    pub fn visit<R: Files + Alloc<A = Global>>(
        &mut self,
        rt: &R,
        entry: &DirEntry<R, Global>,
    ) -> Result<(), DirectoryErr>
        ensures { OnOk result (GoesOn self.old self.new) }
    {
        let path = entry.path();
        let inner = path.as_str().as_bytes().get(self.root_len..).unwrap_or(b"");
        // Git keeps its own files in a folder of this name, or names it in such a file.
        let is_git = inner == b".git".as_slice() || inner.ends_with(b"/.git");
        if !is_path(inner) || is_git {
            return Ok(());
        }
        // Bazel shows its output tree by such links at the root.
        let may_be_output = inner.starts_with(b"bazel-") && !inner.contains(&b'/');
        if may_be_output && fs::symlink_metadata(rt, path)?.is_symlink() {
            return Ok(());
        }
        let is_read = bytes_looked_at(inner) > 0;
        let metadata = match fs::metadata(rt, path) {
            Ok(metadata) => metadata,
            Err(error) if error.kind() == io::ErrorKind::OutOfMemory || is_read => {
                return Err(error.into());
            }
            // A link that can't be followed, and isn't a file that has to be read, is passed over.
            Err(_) if fs::symlink_metadata(rt, path)?.is_symlink() => return Ok(()),
            Err(error) => return Err(error.into()),
        };
        if metadata.is_dir() {
            let identity = Identity::of(&metadata);
            let is_ignored = self.ignored.place(inner).is_some();
            if !is_ignored && !self.around.contains(&identity) {
                self.push(path.as_str(), identity)?;
            }
        }
        if metadata.is_file() {
            self.keep(rt, path, inner)?;
        }
        Ok(())
    }

    /// Reads the first bytes of a file, at most `most`, unless it isn't a regular file any longer.
    fn read<R: Files + Alloc<A = Global>>(
        &mut self,
        rt: &R,
        path: &str,
        most: usize,
    ) -> Result<Option<Vec<u8>>, DirectoryErr>
        ensures limits { self.new.limits ≡ self.old.limits }
        ensures files { self.new.files ≡ self.old.files }
        ensures counted { IfOk result (λ found. IfSome found (λ bytes. self.new.bytes_left + length bytes.items ≡ self.old.bytes_left)) }
        ensures nothing { IfOk result (λ found. IfNone found (self.new.bytes_left ≡ self.old.bytes_left)) }
    {
        // One byte more than may be read shows that there are too many.
        let most = most.min(self.bytes_left.saturating_add(1));
        let Some(bytes) = read_prefix(rt, path, most)? else {
            return Ok(None);
        };
        if bytes.len() > self.bytes_left {
            return Err(DirectoryErr::TooManyBytes);
        }
        self.bytes_left -= bytes.len();
        Ok(Some(bytes))
    }

    /// Keeps a file, with its bytes if a run reads them.
    fn keep<R: Files + Alloc<A = Global>>(
        &mut self,
        rt: &R,
        path: Path<'_>,
        inner: &[u8],
    ) -> Result<(), DirectoryErr>
        ensures { OnOk result (GoesOn self.old self.new) }
    {
        if self.files.len() >= self.limits.files {
            return Err(DirectoryErr::TooManyFiles);
        }
        let most = bytes_looked_at(inner);
        let mut content = Bytes::empty();
        if most > 0 {
            let Some(bytes) = self.read(rt, path.as_str(), most)? else {
                return Ok(());
            };
            content = Bytes::from_vec(self.alloc, bytes)?;
        }
        let path = Bytes::from_slice(self.alloc, inner)?;
        self.files.push(File { path, content })?;
        Ok(())
    }
}
