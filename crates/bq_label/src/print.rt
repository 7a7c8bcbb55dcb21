//! How a label is printed.

ghost use Rattle.std.specs.Prelude.{◌≡◌, ◌++◌, IfOk, OnOk};
ghost use Rattle.bq_label.specs.Label.{full_form};

use crate::label::Label;
use std::alloc::{AllocError, Global};

/// Appends the full form: `//package:name`, or `@repository//package:name` outside the main repository.
#[tactic(auto, unfolding(crate::specs::Label::full_form))]
pub fn write_label(label: &Label, text: &mut Vec<u8>) -> Result<(), AllocError>
    ensures { OnOk result (text.new.items ≡ text.old.items ++ full_form label.now) }
{
    if !label.repo().is_empty() {
        text.push(b'@')?;
        text.extend_from_slice(label.repo().as_slice())?;
    }
    text.extend_from_slice(b"//")?;
    text.extend_from_slice(label.package().as_slice())?;
    text.push(b':')?;
    text.extend_from_slice(label.name().as_slice())
}

/// Returns the full form.
pub fn print_label(alloc: Global, label: &Label) -> Result<Vec<u8>, AllocError>
    ensures { IfOk result (λ text. text.items ≡ full_form label.now) }
{
    let names = label.repo().len().saturating_add(label.package().len());
    let len = names.saturating_add(label.name().len()).saturating_add(4);
    let mut text = Vec::with_capacity(alloc, len)?;
    write_label(label, &mut text)?;
    Ok(text)
}
