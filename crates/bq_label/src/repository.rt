//! The repository that a path lies in, and the path and the file that a label names.

ghost use Rattle.std.specs.Prelude.{◌≡◌, Some, None, MatchOption, IfOk};
ghost use Rattle.std.specs.Option.{option_copied};
ghost use Rattle.bq_label.specs.Packages.{split_repository, label_path, label_file};

use crate::label::Label;
use crate::path::is_repository;
use crate::split::split_once;
use crate::workspace::{File, Workspace};
use std::alloc::{AllocError, Global};

/// The directory of the other repositories' directories.
const EXTERNAL: &[u8] = b"external/";

/// A path's repository, and its path there.
#[derive(Clone, Copy)]
pub(crate) struct RepositoryPath<'a> {
    pub(crate) repo: &'a [u8],
    pub(crate) rest: &'a [u8],
}

/// Returns where a path lies: `external/NAME/REST` is REST of repository NAME, any other path below `external` is in no
/// repository, and every other path is in the main repository.
#[tactic(auto, unfolding(crate::specs::Packages::split_repository))]
pub(crate) fn split_repository(path: &[u8]) -> Option<RepositoryPath<'_>>
    ensures { MatchOption result (split_repository path.now ≡ None) (λ h. split_repository path.now ≡ Some (h.repo.now, h.rest.now)) }
{
    if !path.starts_with(EXTERNAL) {
        return Some(RepositoryPath {
            repo: &[],
            rest: path,
        });
    }
    let Some((repo, rest)) = split_once(&path[EXTERNAL.len()..], b'/') else {
        return None;
    };
    if repo.is_empty() || !is_repository(repo) {
        return None;
    }
    Some(RepositoryPath { repo, rest })
}

/// Returns the path that a label names: its package's directory, then its name.
#[tactic(auto, unfolding(crate::specs::Packages::label_path))]
pub fn label_path(alloc: Global, label: &Label) -> Result<Vec<u8>, AllocError>
    ensures { IfOk result (λ path. path.items ≡ label_path label.now) }
{
    let mut path = Vec::new(alloc);
    if !label.repo().is_empty() {
        path.extend_from_slice(EXTERNAL)?;
        path.extend_from_slice(label.repo().as_slice())?;
        path.push(b'/')?;
    }
    if !label.package().is_empty() {
        path.extend_from_slice(label.package().as_slice())?;
        path.push(b'/')?;
    }
    path.extend_from_slice(label.name().as_slice())?;
    Ok(path)
}

/// Returns the file that a label names: the one at its path, if that is a path of the label's repository. So no label
/// of the main repository names a file below `external`.
pub fn label_file<'a>(
    alloc: Global,
    workspace: &'a Workspace,
    label: &Label,
) -> Result<Option<&'a File>, AllocError>
    ensures { IfOk result (λ file. option_copied file ≡ label_file workspace.now label.now) }
{
    let path = label_path(alloc, label)?;
    let Some(found) = split_repository(&path) else {
        return Ok(None);
    };
    if found.repo != label.repo().as_slice() {
        return Ok(None);
    }
    Ok(workspace.file(&path))
}
