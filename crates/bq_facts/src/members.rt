//! Members of objects whose values are strings, labels or numbers.

ghost use Rattle.std.specs.Prelude.{◌≡◌, ◌++◌, ◌∷◌, OnOk};
ghost use Rattle.bq_package_values.specs.JsonParts.{comma, member_text};
ghost use Rattle.bq_label.specs.Label.{full_form};
ghost use Rattle.bq_facts.specs.Members.{number_member, string_member};

use crate::json_text::{next_key, open_object, push_label, push_number, push_string};
use crate::shared_text::SharedText;
use bq_label::Label;
use std::alloc::{AllocError, Global};

/// Begins an object with a member whose value is a string.
pub(crate) fn open_with_string(
    alloc: Global,
    text: &mut SharedText,
    key: &[u8],
    value: &[u8],
) -> Result<(), AllocError>
    ensures { OnOk result (text.new ≡ text.old ++ (123 ∷ member_text (string_member key.now value.now))) }
{
    open_object(text, key)?;
    text.begin_piece();
    push_string(alloc, text, value)
}

/// Appends a further member whose value is a string.
pub(crate) fn next_string(
    alloc: Global,
    text: &mut SharedText,
    key: &[u8],
    value: &[u8],
) -> Result<(), AllocError>
    ensures { OnOk result (text.new ≡ text.old ++ (comma ++ member_text (string_member key.now value.now))) }
{
    next_key(text, key)?;
    text.begin_piece();
    push_string(alloc, text, value)
}

/// Begins an object with a member whose value is a label in full.
pub(crate) fn open_with_label(
    alloc: Global,
    text: &mut SharedText,
    key: &[u8],
    label: &Label,
) -> Result<(), AllocError>
    ensures { OnOk result (text.new ≡ text.old ++ (123 ∷ member_text (string_member key.now (full_form label.now)))) }
{
    open_object(text, key)?;
    text.begin_piece();
    push_label(alloc, text, label)
}

/// Begins an object with a member whose value is a number.
pub(crate) fn open_with_number(
    text: &mut SharedText,
    key: &[u8],
    number: u64,
) -> Result<(), AllocError>
    ensures { OnOk result (text.new ≡ text.old ++ (123 ∷ member_text (number_member key.now number))) }
{
    open_object(text, key)?;
    push_number(text, number)
}

/// Appends a further member whose value is a number.
pub(crate) fn next_number(text: &mut SharedText, key: &[u8], number: u64) -> Result<(), AllocError>
    ensures { OnOk result (text.new ≡ text.old ++ (comma ++ member_text (number_member key.now number))) }
{
    next_key(text, key)?;
    push_number(text, number)
}
