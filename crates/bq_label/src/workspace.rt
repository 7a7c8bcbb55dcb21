//! The files of a workspace.

ghost use Rattle.std.specs.Prelude.{◌≡◌, List, Some, None, IfOk, MatchResult};
ghost use Rattle.std.specs.List.{list_all};
ghost use Rattle.std.specs.List.Sorted.{IsPermutation, IsSorted, IsStrictlySortedBy};
ghost use Rattle.bq_base.specs.Limits.{AreBounded};
ghost use Rattle.bq_label.specs.Paths.{is_path, common_len};
ghost use Rattle.bq_label.specs.Workspace.{paths_of, path_cmp, file_at, are_apart, are_distinct, parts_at_file, are_paths, workspace_of, workspace_within, IsWorkspace};
ghost use Rattle.std.specs.Option.{option_copied};
ghost use Rattle.std.specs.Bool.{OnTrue};

use crate::path::is_path;
use bq_base::{Bytes, Limits};
use std::alloc::AllocError;
use std::marker::Model;
use thiserror::Error;

/// A file: its path in the workspace, and its bytes.
#[derive(Debug, Drop)]
pub struct File {
    pub path: Bytes,
    pub content: Bytes,
}

impl File {
    /// Returns another owner of the file. No byte is copied.
    pub fn share(&self) -> Result<File, AllocError>
        ensures { IfOk result (λ f. f ≡ self.now) }
    {
        Ok(File {
            path: self.path.share()?,
            content: self.content.share()?,
        })
    }
}

/// Why files make no workspace.
#[derive(Clone, Copy, Debug, PartialEq, Eq, Error)]
pub enum PathErr {
    /// A path is not valid, is there twice, or is a directory of another, or there are too many files.
    #[error("the paths of the files are not the valid paths of a workspace")]
    Bad,
}

/// The files of a workspace, by their paths. Contracts see the list of files, ascending by the bytes of the paths.
#[derive(Debug)]
pub struct Workspace {
    files: Vec<File>,
}

impl Drop for Workspace {
    // PROOF: a drop that is written out is proved here alone, and a derived one in each crate that drops a workspace
    fn drop(self) {
        let Workspace { files: _ } = self;
    }
}

impl Model for Workspace {
    ghost use Rattle.std.specs.Prelude.{List};
    ghost use Rattle.bq_label.specs.declared.workspace.File.{File};
    ghost use Rattle.bq_label.specs.Workspace.{IsWorkspace};

    ghost Value = { List File };

    ghost view = { λ w. w.files.items };

    ghost invariant = { λ w. IsWorkspace w.files.items };
}

/// Returns whether every path is valid.
fn have_valid_paths(files: &[File]) -> bool
    ensures { result ≡ list_all (λ f. is_path f.path) files.now }
{
    files.iter().all(|file| is_path(file.path.as_slice()))
}

/// Returns the file at a path.
fn find_file<'a>(files: &'a [File], path: &[u8]) -> Option<&'a File>
    requires { IsStrictlySortedBy path_cmp files.now }
    ensures { option_copied result ≡ file_at files.now path.now }
{
    match files.binary_search_by(|file| file.path.as_slice().cmp(path)) {
        Ok(at) => Some(&files[at]),
        Err(_) => None,
    }
}

/// Returns how many bytes two texts have in common at the front.
#[tactic(auto, unfolding(crate::specs::Paths::common_len))]
pub(crate) fn common_len(a: &[u8], b: &[u8]) -> usize
    ensures { result ≡ common_len a.now b.now }
{
    let mut at = 0;
    while at < a.len() && at < b.len() && a[at] == b[at] {
        at += 1;
    }
    at
}

/// Returns whether the path goes on with a slash where it parts from the path before it, and a file is there.
#[tactic(auto, unfolding(crate::specs::Workspace::parts_at_file))]
fn parts_at_file(files: &[File], before: &[u8], path: &[u8]) -> bool
    requires { IsStrictlySortedBy path_cmp files.now }
    ensures { result ≡ parts_at_file files.now before.now path.now }
{
    let at = common_len(before, path);
    at < path.len() && path[at] == b'/' && find_file(files, &path[..at]).is_some()
}

/// Returns whether no file is where a directory of another is.
///
/// A directory of a path that the path before has too was looked up for that one, and no file is between two
/// neighbours: so the only place to look at is the one where a path parts from the path before it.
fn are_apart(files: &[File]) -> bool
    requires { IsStrictlySortedBy path_cmp files.now }
    ensures { result ≡ are_apart (paths_of files.now) }
{
    for at in 1..files.len() {
        if parts_at_file(
            files,
            files[at - 1].path.as_slice(),
            files[at].path.as_slice(),
        ) {
            return false;
        }
    }
    true
}

/// Returns whether no path is there twice.
fn are_ascending(files: &[File]) -> bool
    requires { IsSorted path_cmp files.now }
    ensures strict { OnTrue result (IsStrictlySortedBy path_cmp files.now) }
    ensures distinct { result ≡ are_distinct (paths_of files.now) }
{
    for at in 1..files.len() {
        if files[at - 1].path.cmp(&files[at].path).is_ge() {
            return false;
        }
    }
    true
}

/// Returns whether the paths are those of a workspace.
#[tactic(auto, using(crate::proofs::Workspaces::are_paths_is))]
fn are_valid(files: &[File]) -> bool
    requires { IsSorted path_cmp files.now }
    ensures strict { OnTrue result (IsStrictlySortedBy path_cmp files.now) }
    ensures valid { result ≡ are_paths (paths_of files.now) }
{
    if !have_valid_paths(files) || !are_ascending(files) {
        return false;
    }
    are_apart(files)
}

impl Workspace {
    /// Makes the workspace of these files, in any order. A path is refused if it isn't valid, is there twice, or is a
    /// directory of another, and so are more files than the standard limit.
    pub fn new(files: Vec<File>) -> Result<Workspace, PathErr>
        ensures { MatchResult result (λ w. workspace_of files.items ≡ Some w) (λ _. workspace_of files.items ≡ None) }
    {
        Workspace::within(Limits::standard(), files)
    }

    /// Makes the workspace of these files, as [`Workspace::new`] does, by these limits.
    pub fn within(limits: Limits, files: Vec<File>) -> Result<Workspace, PathErr>
        requires { AreBounded limits }
        ensures { MatchResult result (λ w. workspace_within limits files.items ≡ Some w) (λ _. workspace_within limits files.items ≡ None) }
    {
        if files.len() > limits.files {
            return Err(PathErr::Bad);
        }
        let mut files = files;
        files.sort_unstable_by(|a, b| a.path.cmp(&b.path));
        if !are_valid(&files) {
            return Err(PathErr::Bad);
        }
        Ok(Workspace { files })
    }

    /// Returns the files, ascending by the bytes of their paths.
    pub fn files(&self) -> &[File]
        ensures value { result.now ≡ self.now }
        ensures valid { IsWorkspace self.now }
    {
        self.files.as_slice()
    }

    /// Returns the file at a path, in time logarithmic in the number of files.
    pub fn file(&self, path: &[u8]) -> Option<&File>
        ensures { option_copied result ≡ file_at self.now path.now }
    {
        find_file(&self.files, path)
    }
}
