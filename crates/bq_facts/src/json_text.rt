//! Keys, numbers, strings and labels as JSON, in a text whose long pieces are shared.

ghost use Rattle.std.specs.Prelude.{◌≡◌, ◌++◌, ◌∷◌, OnOk};
ghost use Rattle.std.specs.Fmt.{decimal};
ghost use Rattle.bq_package_values.specs.JsonString.{json_string};
ghost use Rattle.bq_package_values.specs.JsonParts.{json_key};
ghost use Rattle.bq_package_values.specs.Json.{json_label};

use crate::shared_text::{LONG, SharedText};
use bq_label::{Label, print_label};
use bq_package_values as json;
use itoa::Buffer;
use std::alloc::{AllocError, Global};

/// Appends the key of a member, and a colon.
pub(crate) fn push_key(text: &mut SharedText, key: &[u8]) -> Result<(), AllocError>
    ensures { OnOk result (text.new ≡ text.old ++ json_key key.now) }
{
    json::push_key(&mut text.rest, key)
}

/// Begins an object, with the key of its first member.
pub(crate) fn open_object(text: &mut SharedText, key: &[u8]) -> Result<(), AllocError>
    ensures { OnOk result (text.new ≡ text.old ++ (123 ∷ json_key key.now)) }
{
    json::open_object(&mut text.rest, key)
}

/// Begins the next member of an object with its key.
pub(crate) fn next_key(text: &mut SharedText, key: &[u8]) -> Result<(), AllocError>
    ensures { OnOk result (text.new ≡ text.old ++ (44 ∷ json_key key.now)) }
{
    json::next_key(&mut text.rest, key)
}

/// Appends a number in decimal.
pub(crate) fn push_number(text: &mut SharedText, number: u64) -> Result<(), AllocError>
    ensures { OnOk result (text.new ≡ text.old ++ decimal number) }
{
    let mut buffer = Buffer::new();
    text.rest
        .extend_from_slice(buffer.format(number).as_bytes())
}

/// Appends a string of a list, or an only one. What is before a long one is a piece, and so is the string.
pub(crate) fn push_string(
    alloc: Global,
    text: &mut SharedText,
    string: &[u8],
) -> Result<(), AllocError>
    ensures { OnOk result (text.new ≡ text.old ++ json_string string.now) }
{
    if string.len() < LONG {
        return json::push_string(&mut text.rest, string);
    }
    text.end_piece(alloc, 0)?;
    json::push_string(&mut text.rest, string)?;
    text.end_piece(alloc, 0)
}

/// Appends a label in full. What is before one of a long package is a piece, and so is what is before the label's name.
pub(crate) fn push_label(
    alloc: Global,
    text: &mut SharedText,
    label: &Label,
) -> Result<(), AllocError>
    ensures { OnOk result (text.new ≡ text.old ++ json_label label.now) }
{
    let full = print_label(alloc, label)?;
    if full.len() < LONG {
        return json::push_string(&mut text.rest, &full);
    }
    text.end_piece(alloc, 0)?;
    json::push_string(&mut text.rest, &full)?;
    text.end_piece(alloc, label.name().len().saturating_add(1))
}
