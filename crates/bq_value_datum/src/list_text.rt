//! How integers and lists are written for patterns.

ghost use Rattle.std.specs.Prelude.{◌≡◌, ◌++◌, map, OnOk};
ghost use Rattle.std.specs.Fmt.{signed_decimal};
ghost use Rattle.bq_label.specs.Label.{full_form};
ghost use Rattle.bq_value_datum.specs.ListText.{further, list_text};

use bq_label::{Bytes, Label, write_label};
use itoa::Buffer;
use std::alloc::AllocError;

fn write_further_strings(strings: &[Bytes], text: &mut Vec<u8>) -> Result<(), AllocError>
    ensures { OnOk result (text.new.items ≡ text.old.items ++ further strings.now) }
{
    for string in strings {
        text.extend_from_slice(b", ")?;
        text.extend_from_slice(string.as_slice())?;
    }
    Ok(())
}

#[tactic(auto, unfolding(crate::specs::ListText::list_text))]
pub(crate) fn write_strings(strings: &[Bytes], text: &mut Vec<u8>) -> Result<(), AllocError>
    ensures { OnOk result (text.new.items ≡ text.old.items ++ list_text strings.now) }
{
    text.push(b'[')?;
    if let [first, rest @ ..] = strings {
        text.extend_from_slice(first.as_slice())?;
        write_further_strings(rest, text)?;
    }
    text.extend_from_slice(b"]")
}

fn write_further_labels(labels: &[Label], text: &mut Vec<u8>) -> Result<(), AllocError>
    ensures { OnOk result (text.new.items ≡ text.old.items ++ further (map full_form labels.now)) }
{
    for label in labels {
        text.extend_from_slice(b", ")?;
        write_label(label, text)?;
    }
    Ok(())
}

#[tactic(auto, unfolding(crate::specs::ListText::list_text))]
pub(crate) fn write_labels(labels: &[Label], text: &mut Vec<u8>) -> Result<(), AllocError>
    ensures { OnOk result (text.new.items ≡ text.old.items ++ list_text (map full_form labels.now)) }
{
    text.push(b'[')?;
    if let [first, rest @ ..] = labels {
        write_label(first, text)?;
        write_further_labels(rest, text)?;
    }
    text.extend_from_slice(b"]")
}

pub(crate) fn write_int(n: i64, text: &mut Vec<u8>) -> Result<(), AllocError>
    ensures { OnOk result (text.new.items ≡ text.old.items ++ signed_decimal n) }
{
    let mut buffer = Buffer::new();
    text.extend_from_slice(buffer.format(n).as_bytes())
}
