//! The lines of faults.

ghost use Rattle.std.specs.Prelude.{◌≡◌, ◌++◌, ◌∷◌, IfOk, OnOk};
ghost use Rattle.std.specs.List.{join_by};
ghost use Rattle.bq_package_values.specs.JsonParts.{comma, member_text};
ghost use Rattle.bq_facts.specs.Members.{further_members};
ghost use Rattle.bq_facts.specs.FaultObject.{file_labelled, what_members, where_members, fault_object};

use crate::members::{next_number, next_string, open_with_string};
use crate::shared_text::SharedText;
use bq_base::SourceErr;
use bq_base_texts::FaultLine;
use bq_label::{PackageId, label_path, read_label};
use std::alloc::{AllocError, Global};

/// Returns the path of the file with this label, which is in full.
#[tactic(auto, unfolding(crate::specs::FaultObject::file_labelled))]
fn file_labelled(alloc: Global, label: &[u8]) -> Result<Vec<u8>, AllocError>
    ensures { IfOk result (λ path. path.items ≡ file_labelled label.now) }
{
    let root = PackageId::root(alloc)?;
    match read_label(alloc, label, &root) {
        Ok(label) => label_path(alloc, &label),
        Err(SourceErr::Bad(_)) => Ok(Vec::new(alloc)),
        Err(SourceErr::Memory) => Err(AllocError),
    }
}

/// Begins the object of a fault: its number, its name and the label of its file.
fn push_what(alloc: Global, text: &mut SharedText, line: &FaultLine) -> Result<(), AllocError>
    ensures { OnOk result (text.new ≡ text.old ++ (123 ∷ join_by member_text comma (what_members line.now))) }
{
    let number = line.kind.number();
    let code = format!(in alloc; "F{number}")?;
    open_with_string(alloc, text, b"fault", code.as_bytes())?;
    next_string(alloc, text, b"name", line.kind.name().as_bytes())?;
    next_string(alloc, text, b"label", line.label.as_slice())
}

/// Appends the path of the fault's file, its line and its detail.
fn push_where(alloc: Global, text: &mut SharedText, line: &FaultLine) -> Result<(), AllocError>
    ensures { OnOk result (text.new ≡ text.old ++ further_members (where_members line.now)) }
{
    let file = file_labelled(alloc, line.label.as_slice())?;
    next_string(alloc, text, b"file", &file)?;
    next_number(text, b"line", line.line as u64)?;
    next_string(alloc, text, b"detail", line.detail.as_slice())
}

/// Appends the line of a fault: an object with its number, its name, the label and the path of its file, its line and its detail.
pub fn push_fault(alloc: Global, text: &mut SharedText, line: &FaultLine) -> Result<(), AllocError>
    ensures { OnOk result (text.new ≡ text.old ++ fault_object line.now) }
{
    push_what(alloc, text, line)?;
    push_where(alloc, text, line)?;
    text.push(b'}')?;
    text.end_line(alloc)?;
    Ok(())
}
