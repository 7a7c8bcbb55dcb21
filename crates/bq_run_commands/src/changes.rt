//! What became of the files of a workspace, as the commands by which a session edits them.

ghost use Rattle.std.specs.Prelude.{◌≡◌, ◌++◌, OnOk};
ghost use Rattle.std.specs.List.{flat_map};
ghost use Rattle.bq_label.specs.Workspace.{file_at};
ghost use Rattle.bq_run_commands.specs.Changes.{changes, edits_text, has_bytes, if_gone, if_new, put_text, remove_line};

use bq_label::{File, Workspace};
use itoa::Buffer;
use std::alloc::AllocError;

/// Returns whether a file of the workspace has the path and the bytes of this one.
fn has_same(workspace: &Workspace, file: &File) -> bool
    ensures { result ≡ has_bytes file.now.content (file_at workspace.now file.now.path) }
{
    match workspace.file(file.path.as_slice()) {
        Some(other) => other.content == file.content,
        None => false,
    }
}

/// Appends the line that removes a file.
fn push_remove(text: &mut Vec<u8>, file: &File) -> Result<(), AllocError>
    ensures { OnOk result (text.new.items ≡ text.old.items ++ remove_line file.now.path) }
{
    text.extend_from_slice(b"=== remove ")?;
    text.extend_from_slice(file.path.as_slice())?;
    text.push(b'\n')?;
    Ok(())
}

/// Appends the line that puts a file, and its bytes.
fn push_put(text: &mut Vec<u8>, file: &File) -> Result<(), AllocError>
    ensures { OnOk result (text.new.items ≡ text.old.items ++ put_text file.now) }
{
    let mut digits = Buffer::new();
    text.extend_from_slice(b"=== put ")?;
    text.extend_from_slice(digits.format(file.content.len()).as_bytes())?;
    text.push(b' ')?;
    text.extend_from_slice(file.path.as_slice())?;
    text.push(b'\n')?;
    text.extend_from_slice(file.content.as_slice())?;
    text.push(b'\n')?;
    Ok(())
}

/// Appends the line that removes a file of before, if it is gone.
#[tactic(auto, unfolding(crate::specs::Changes::if_gone))]
fn push_if_gone(text: &mut Vec<u8>, after: &Workspace, file: &File) -> Result<(), AllocError>
    ensures { OnOk result (text.new.items ≡ text.old.items ++ edits_text (if_gone after.now file.now)) }
{
    if after.file(file.path.as_slice()).is_some() {
        return Ok(());
    }
    push_remove(text, file)
}

/// Appends the command that puts a file of after, if it is new or has other bytes.
#[tactic(auto, unfolding(crate::specs::Changes::if_new))]
fn push_if_new(text: &mut Vec<u8>, before: &Workspace, file: &File) -> Result<(), AllocError>
    ensures { OnOk result (text.new.items ≡ text.old.items ++ edits_text (if_new before.now file.now)) }
{
    if has_same(before, file) {
        return Ok(());
    }
    push_put(text, file)
}

/// Appends the lines for those of these files of before that are gone.
fn push_all_gone(text: &mut Vec<u8>, after: &Workspace, files: &[File]) -> Result<(), AllocError>
    ensures { OnOk result (text.new.items ≡ text.old.items ++ flat_map (λ f. edits_text (if_gone after.now f)) files.now) }
{
    for file in files {
        push_if_gone(text, after, file)?;
    }
    Ok(())
}

/// Appends the commands for those of these files of after that are new or have other bytes.
fn push_all_new(text: &mut Vec<u8>, before: &Workspace, files: &[File]) -> Result<(), AllocError>
    ensures { OnOk result (text.new.items ≡ text.old.items ++ flat_map (λ f. edits_text (if_new before.now f)) files.now) }
{
    for file in files {
        push_if_new(text, before, file)?;
    }
    Ok(())
}

/// Appends the commands that turn the files of `before` into those of `after`: a line for each file that is gone, then a line
/// and the bytes of each that is new or has other bytes.
#[tactic(auto, using(crate::proofs::Texts::both_appended))]
pub fn push_changes(
    text: &mut Vec<u8>,
    before: &Workspace,
    after: &Workspace,
) -> Result<(), AllocError>
    ensures { OnOk result (text.new.items ≡ text.old.items ++ edits_text (changes before.now after.now)) }
{
    push_all_gone(text, after, before.files())?;
    push_all_new(text, before, after.files())
}
