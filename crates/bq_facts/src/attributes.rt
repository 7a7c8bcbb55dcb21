//! The attributes that a target keeps, as an object.

ghost use Rattle.std.specs.Prelude.{◌≡◌, ◌++◌, map, OnOk};
ghost use Rattle.std.specs.List.{join_by};
ghost use Rattle.bq_package_values.specs.JsonParts.{comma, member_text};
ghost use Rattle.bq_facts.specs.Attributes.{attribute_member, json_attributes};
ghost use Rattle.bq_facts.specs.Members.{further_members};

use crate::json_text::push_key;
use crate::lists::push_value;
use crate::shared_text::SharedText;
use bq_package_target::GivenAttribute;
use std::alloc::{AllocError, Global};

/// Appends an attribute: its name, and its value.
fn push_attribute(
    alloc: Global,
    text: &mut SharedText,
    given: &GivenAttribute,
) -> Result<(), AllocError>
    ensures { OnOk result (text.new ≡ text.old ++ member_text (attribute_member given.now)) }
{
    push_key(text, given.name.as_slice())?;
    push_value(alloc, text, &given.value)
}

/// Appends further attributes, each after a comma.
fn push_further(
    alloc: Global,
    text: &mut SharedText,
    attributes: &[GivenAttribute],
) -> Result<(), AllocError>
    ensures { OnOk result (text.new ≡ text.old ++ further_members (map attribute_member attributes.now)) }
{
    for given in attributes {
        text.push(b',')?;
        push_attribute(alloc, text, given)?;
    }
    Ok(())
}

/// Appends the members of the object of attributes.
fn push_members(
    alloc: Global,
    text: &mut SharedText,
    attributes: &[GivenAttribute],
) -> Result<(), AllocError>
    ensures { OnOk result (text.new ≡ text.old ++ join_by member_text comma (map attribute_member attributes.now)) }
{
    match attributes {
        [] => Ok(()),
        [first, rest @ ..] => {
            push_attribute(alloc, text, first)?;
            push_further(alloc, text, rest)
        }
    }
}

/// Appends attributes as an object.
#[tactic(auto, unfolding(bq_package_values::specs::JsonParts::json_object))]
pub(crate) fn push_attributes(
    alloc: Global,
    text: &mut SharedText,
    attributes: &[GivenAttribute],
) -> Result<(), AllocError>
    ensures { OnOk result (text.new ≡ text.old ++ json_attributes attributes.now) }
{
    text.push(b'{')?;
    push_members(alloc, text, attributes)?;
    text.push(b'}')
}
