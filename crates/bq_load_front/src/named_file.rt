//! The file that a load names.

ghost use Rattle.std.specs.Prelude.{◌≡◌, IfOk, codes};
ghost use Rattle.std.specs.List.{starts_with, ends_with};
ghost use Rattle.bq_base.specs.Gives.{Gives};
ghost use Rattle.bq_label.specs.Label.{full_form};
ghost use Rattle.bq_base.specs.declared.fault.SourceErr.TheVariants.{Bad};
ghost use Rattle.bq_load_front.specs.NamedFile.{bzl_label, fault_of_file, unless_fault, load_label};

use crate::crossing::crosses;
use bq_base::{Bytes, Fault, LoadFault, SourceErr};
use bq_label::{Label, PackageId, Packages, Workspace, label_file, print_label, read_label};
use std::alloc::{AllocError, Global};

/// Reads the text as the label of a .bzl file: a label of a load begins with `//`, `@` or `:`.
#[tactic(auto, unfolding(crate::specs::NamedFile::bzl_label, crate::specs::NamedFile::has_load_form))]
fn bzl_label(alloc: Global, own: &PackageId, text: &[u8]) -> Result<Option<Label>, AllocError>
    ensures { IfOk result (λ label. label ≡ bzl_label own.now text.now) }
{
    let has_form = text.starts_with(b"//") || text.starts_with(b"@") || text.starts_with(b":");
    if !has_form {
        return Ok(None);
    }
    match read_label(alloc, text, own) {
        Ok(label) => {
            if !label.name().as_slice().ends_with(b".bzl") {
                return Ok(None);
            }
            Ok(Some(label))
        }
        Err(SourceErr::Bad(_)) => Ok(None),
        Err(SourceErr::Memory) => Err(AllocError),
    }
}

/// Returns the fault of a load, in this line, of the file of this label.
fn file_fault(
    alloc: Global,
    kind: LoadFault,
    line: u32,
    label: &Label,
) -> Result<Fault<LoadFault>, AllocError>
    ensures { IfOk result (λ fault. fault ≡ record { kind = kind; line = line; detail = full_form label.now }) }
{
    let detail = Bytes::from_vec(alloc, print_label(alloc, label)?)?;
    Ok(Fault { kind, line, detail })
}

/// Returns nothing if the label names a file that can be loaded, else the first fault that applies.
#[tactic(auto, unfolding(crate::specs::NamedFile::fault_of_file))]
fn check_file(
    alloc: Global,
    workspace: &Workspace,
    packages: &Packages,
    line: u32,
    label: &Label,
) -> Result<(), SourceErr<LoadFault>>
    ensures { Gives (λ _. label.now) Bad result (unless_fault line label.now (fault_of_file workspace.now packages.now label.now)) }
{
    let kind = if packages.named(label.package_id()).is_none() {
        LoadFault::NoPackage
    } else if crosses(alloc, packages, label)? {
        LoadFault::CrossesPackage
    } else if label_file(alloc, workspace, label)?.is_none() {
        LoadFault::NoSuchFile
    } else {
        return Ok(());
    };
    Err(SourceErr::Bad(file_fault(alloc, kind, line, label)?))
}

/// Returns the label of the file that a load in the package `own` names by this text. The fault names the line of the
/// load. It is F30, with an empty detail, if the text is no label of a .bzl file that begins with `//`, `@` or `:`;
/// then F32 if the label has no package, F37 if another package owns its path, and F31 if its repository has no such
/// file, with the label in full form as the detail.
#[tactic(auto, unfolding(crate::specs::NamedFile::load_label))]
pub fn load_label(
    alloc: Global,
    workspace: &Workspace,
    packages: &Packages,
    own: &PackageId,
    line: u32,
    text: &[u8],
) -> Result<Label, SourceErr<LoadFault>>
    ensures { Gives (λ label. label) Bad result (load_label workspace.now packages.now own.now line text.now) }
{
    let Some(label) = bzl_label(alloc, own, text)? else {
        return Err(SourceErr::Bad(Fault::at(LoadFault::BadLoadLabel, line)));
    };
    match check_file(alloc, workspace, packages, line, &label) {
        Ok(()) => Ok(label),
        Err(why) => {
            drop(label);
            Err(why)
        }
    }
}
