//! Strings and labels as JSON: labels in full.

ghost use Rattle.std.specs.Prelude.{◌≡◌, ◌++◌, OnOk};
ghost use Rattle.std.specs.List.{flat_map, join_by};
ghost use Rattle.bq_package_values.specs.JsonParts.{comma, json_array};
ghost use Rattle.bq_package_values.specs.Json.{json_label, json_labels, json_strings};

use crate::json_parts::push_strings;
use crate::json_string::push_string;
use bq_base::Bytes;
use bq_label::{Label, write_label};
use std::alloc::{AllocError, Global};

/// Appends a list of strings.
pub(crate) fn push_string_list(text: &mut Vec<u8>, strings: &[Bytes]) -> Result<(), AllocError>
    ensures { OnOk result (text.new.items ≡ text.old.items ++ json_strings strings.now) }
{
    push_strings(text, strings)?;
    Ok(())
}

/// Appends a label in full.
pub(crate) fn push_label(alloc: Global, text: &mut Vec<u8>, label: &Label) -> Result<(), AllocError>
    ensures { OnOk result (text.new.items ≡ text.old.items ++ json_label label.now) }
{
    let mut full = Vec::new(alloc);
    write_label(label, &mut full)?;
    push_string(text, &full)
}

/// Appends further labels of a list, each after a comma.
fn push_further(alloc: Global, text: &mut Vec<u8>, labels: &[Label]) -> Result<(), AllocError>
    ensures { OnOk result (text.new.items ≡ text.old.items ++ flat_map (λ l. comma ++ json_label l) labels.now) }
{
    for label in labels {
        text.push(b',')?;
        push_label(alloc, text, label)?;
    }
    Ok(())
}

/// Appends the labels of a list.
fn push_items(alloc: Global, text: &mut Vec<u8>, labels: &[Label]) -> Result<(), AllocError>
    ensures { OnOk result (text.new.items ≡ text.old.items ++ join_by json_label comma labels.now) }
{
    match labels {
        [] => Ok(()),
        [first, rest @ ..] => {
            push_label(alloc, text, first)?;
            push_further(alloc, text, rest)
        }
    }
}

/// Appends a list of labels between brackets.
#[tactic(auto, unfolding(crate::specs::JsonParts::json_array))]
fn push_array(alloc: Global, text: &mut Vec<u8>, labels: &[Label]) -> Result<(), AllocError>
    ensures { OnOk result (text.new.items ≡ text.old.items ++ json_array json_label labels.now) }
{
    text.push(b'[')?;
    push_items(alloc, text, labels)?;
    text.push(b']')?;
    Ok(())
}

/// Appends a list of labels.
pub fn push_labels(alloc: Global, text: &mut Vec<u8>, labels: &[Label]) -> Result<(), AllocError>
    ensures { OnOk result (text.new.items ≡ text.old.items ++ json_labels labels.now) }
{
    push_array(alloc, text, labels)?;
    Ok(())
}
