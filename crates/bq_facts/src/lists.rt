//! Lists and values of attributes as JSON, in a text whose long pieces are shared. A list that comes again is one piece.

ghost use Rattle.std.specs.Prelude.{◌≡◌, ◌++◌, OnOk};
ghost use Rattle.std.specs.List.{flat_map, join_by};
ghost use Rattle.bq_package_values.specs.JsonString.{json_string};
ghost use Rattle.bq_package_values.specs.JsonParts.{comma, json_array};
ghost use Rattle.bq_package_values.specs.Json.{json_label, json_labels, json_strings};
ghost use Rattle.bq_package_values.specs.Types.{json_value};

use crate::json_text::{push_label, push_string};
use crate::shared_text::SharedText;
use bq_base::Bytes;
use bq_label::Label;
use bq_package_values as typed;
use bq_value_datum::AttributeValue;
use std::alloc::{AllocError, Global};

/// Appends further labels of a list, each after a comma.
fn push_further_labels(
    alloc: Global,
    text: &mut SharedText,
    labels: &[Label],
) -> Result<(), AllocError>
    ensures { OnOk result (text.new ≡ text.old ++ flat_map (λ l. comma ++ json_label l) labels.now) }
{
    for label in labels {
        text.push(b',')?;
        push_label(alloc, text, label)?;
    }
    Ok(())
}

/// Appends the labels of a list.
fn push_label_items(
    alloc: Global,
    text: &mut SharedText,
    labels: &[Label],
) -> Result<(), AllocError>
    ensures { OnOk result (text.new ≡ text.old ++ join_by json_label comma labels.now) }
{
    match labels {
        [] => Ok(()),
        [first, rest @ ..] => {
            push_label(alloc, text, first)?;
            push_further_labels(alloc, text, rest)
        }
    }
}

/// Appends a list of labels between brackets.
#[tactic(auto, unfolding(bq_package_values::specs::JsonParts::json_array))]
fn push_label_array(
    alloc: Global,
    text: &mut SharedText,
    labels: &[Label],
) -> Result<(), AllocError>
    ensures { OnOk result (text.new ≡ text.old ++ json_array json_label labels.now) }
{
    text.begin_piece();
    text.push(b'[')?;
    push_label_items(alloc, text, labels)?;
    text.push(b']')?;
    text.end_piece(alloc, 0)
}

/// Appends a list of labels.
pub(crate) fn push_labels(
    alloc: Global,
    text: &mut SharedText,
    labels: &[Label],
) -> Result<(), AllocError>
    ensures { OnOk result (text.new ≡ text.old ++ json_labels labels.now) }
{
    push_label_array(alloc, text, labels)?;
    Ok(())
}

/// Appends further strings of a list, each after a comma.
fn push_further_strings(
    alloc: Global,
    text: &mut SharedText,
    strings: &[Bytes],
) -> Result<(), AllocError>
    ensures { OnOk result (text.new ≡ text.old ++ flat_map (λ s. comma ++ json_string s) strings.now) }
{
    for string in strings {
        text.push(b',')?;
        push_string(alloc, text, string.as_slice())?;
    }
    Ok(())
}

/// Appends the strings of a list.
fn push_string_items(
    alloc: Global,
    text: &mut SharedText,
    strings: &[Bytes],
) -> Result<(), AllocError>
    ensures { OnOk result (text.new ≡ text.old ++ join_by json_string comma strings.now) }
{
    match strings {
        [] => Ok(()),
        [first, rest @ ..] => {
            push_string(alloc, text, first.as_slice())?;
            push_further_strings(alloc, text, rest)
        }
    }
}

/// Appends a list of strings between brackets.
#[tactic(auto, unfolding(bq_package_values::specs::JsonParts::json_array))]
fn push_string_array(
    alloc: Global,
    text: &mut SharedText,
    strings: &[Bytes],
) -> Result<(), AllocError>
    ensures { OnOk result (text.new ≡ text.old ++ json_array json_string strings.now) }
{
    text.begin_piece();
    text.push(b'[')?;
    push_string_items(alloc, text, strings)?;
    text.push(b']')?;
    text.end_piece(alloc, 0)
}

/// Appends a list of strings.
fn push_strings(alloc: Global, text: &mut SharedText, strings: &[Bytes]) -> Result<(), AllocError>
    ensures { OnOk result (text.new ≡ text.old ++ json_strings strings.now) }
{
    push_string_array(alloc, text, strings)?;
    Ok(())
}

/// Appends a value that is no list.
fn push_single(
    alloc: Global,
    text: &mut SharedText,
    value: &AttributeValue,
) -> Result<(), AllocError>
    ensures { OnOk result (text.new ≡ text.old ++ json_value value.now) }
{
    text.begin_piece();
    typed::push_value(alloc, &mut text.rest, value)?;
    text.end_piece(alloc, 0)
}

/// Appends the value of an attribute: strings as they are, integers as numbers, labels in full.
pub(crate) fn push_value(
    alloc: Global,
    text: &mut SharedText,
    value: &AttributeValue,
) -> Result<(), AllocError>
    ensures { OnOk result (text.new ≡ text.old ++ json_value value.now) }
{
    match value {
        AttributeValue::StringList(strings) => push_strings(alloc, text, strings.as_slice()),
        AttributeValue::LabelList(labels) => push_labels(alloc, text, labels.as_slice()),
        AttributeValue::OutputList(labels) => push_labels(alloc, text, labels.as_slice()),
        _ => push_single(alloc, text, value),
    }
}
