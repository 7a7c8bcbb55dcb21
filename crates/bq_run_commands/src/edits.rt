//! The files of a workspace as they are edited: files that are put and removed.

ghost use Rattle.std.specs.Prelude.{◌≡◌, ◌++◌, ◌∷◌, [], IfOk, OnOk, reverse};
ghost use Rattle.std.specs.List.{filter};
ghost use Rattle.bq_base_texts.specs.NameSet.{with_name};
ghost use Rattle.bq_run_commands.specs.Edits.{edited, file_put, is_untouched, path_of};

use bq_base_texts::NameSet;
use bq_label::{Bytes, File, Workspace};
use std::alloc::{AllocError, Global};

/// What becomes of a file.
#[derive(Drop)]
pub enum Edit {
    /// It is there from now on, in the place of the one at its path, if there is one.
    Put(File),
    /// There is none at this path from now on.
    Remove(Bytes),
}

/// Returns whether none of these paths is the file's.
fn is_untouched(paths: &NameSet, file: &File) -> bool
    ensures { result ≡ is_untouched paths.now file.now }
{
    paths.place(file.path.as_slice()).is_none()
}

/// Keeps a file that is put, unless its path is one of those that later edits are about.
fn note_put(later: &mut NameSet, puts: &mut Vec<File>, file: &File) -> Result<(), AllocError>
    ensures later { OnOk result (later.new ≡ with_name later.old file.now.path) }
    ensures puts { OnOk result (puts.new.items ≡ puts.old.items ++ filter (is_untouched later.old) (file.now ∷ [])) }
{
    if !later.add(&file.path)? {
        return Ok(());
    }
    puts.push(file.share()?)?;
    Ok(())
}

/// Notes the path of an edit, and the file that it puts, if it is still there after the later edits.
fn note(later: &mut NameSet, puts: &mut Vec<File>, edit: &Edit) -> Result<(), AllocError>
    ensures later { OnOk result (later.new ≡ with_name later.old (path_of edit.now)) }
    ensures puts { OnOk result (puts.new.items ≡ puts.old.items ++ filter (is_untouched later.old) (file_put edit.now)) }
{
    match edit {
        Edit::Put(file) => note_put(later, puts, file)?,
        Edit::Remove(path) => {
            later.add(path)?;
        }
    }
    Ok(())
}

/// Returns other owners of those of the files that are at none of these paths.
fn share_untouched(alloc: Global, files: &[File], paths: &NameSet) -> Result<Vec<File>, AllocError>
    ensures { IfOk result (λ left. left.items ≡ filter (is_untouched paths.now) files.now) }
{
    let mut left = Vec::with_capacity(alloc, files.len())?;
    for file in files {
        if !is_untouched(paths, file) {
            continue;
        }
        left.push(file.share()?)?;
    }
    Ok(left)
}

/// Appends files of which the last comes first.
fn append_reversed(files: &mut Vec<File>, mut last_first: Vec<File>) -> Result<(), AllocError>
    ensures { OnOk result (files.new.items ≡ files.old.items ++ reverse last_first.items) }
{
    last_first.reverse();
    files.append(&mut last_first)?;
    Ok(())
}

/// Returns the files of a workspace after these edits. No byte of them is copied. From the last edit to the first, each
/// counts where no later one is about its path: what it costs is about as much as there are edits and files.
pub fn edited_files(
    alloc: Global,
    workspace: &Workspace,
    edits: &[Edit],
) -> Result<Vec<File>, AllocError>
    ensures { IfOk result (λ files. files.items ≡ edited workspace.now edits.now) }
{
    let mut later = NameSet::new(alloc);
    let mut puts = Vec::new(alloc);
    for i in (0..edits.len()).rev() {
        note(&mut later, &mut puts, &edits[i])?;
    }
    let mut files = share_untouched(alloc, workspace.files(), &later)?;
    append_reversed(&mut files, puts)?;
    Ok(files)
}
