//! Numbers, truth values, lists of strings, and the parts of objects.

ghost use Rattle.std.specs.Prelude.{◌≡◌, ◌++◌, ◌∷◌, [], OnOk};
ghost use Rattle.std.specs.Fmt.{decimal, signed_decimal};
ghost use Rattle.std.specs.List.{flat_map, join_by};
ghost use Rattle.bq_package_values.specs.JsonString.{json_string};
ghost use Rattle.bq_package_values.specs.JsonParts.{comma, json_bool, json_array, json_key};

use crate::json_string::push_string;
use bq_base::Bytes;
use itoa::Buffer;
use std::alloc::AllocError;

/// Appends a count or a line in decimal.
pub fn push_number(text: &mut Vec<u8>, number: u32) -> Result<(), AllocError>
    ensures { OnOk result (text.new.items ≡ text.old.items ++ decimal number) }
{
    let mut buffer = Buffer::new();
    text.extend_from_slice(buffer.format(number).as_bytes())
}

/// Appends an integer in decimal.
pub fn push_int(text: &mut Vec<u8>, int: i64) -> Result<(), AllocError>
    ensures { OnOk result (text.new.items ≡ text.old.items ++ signed_decimal int) }
{
    let mut buffer = Buffer::new();
    text.extend_from_slice(buffer.format(int).as_bytes())
}

/// Appends `true` or `false`.
pub fn push_bool(text: &mut Vec<u8>, truth: bool) -> Result<(), AllocError>
    ensures { OnOk result (text.new.items ≡ text.old.items ++ json_bool truth) }
{
    match truth {
        true => text.extend_from_slice(b"true"),
        false => text.extend_from_slice(b"false"),
    }
}

/// Appends further strings of a list, each after a comma.
fn push_further(text: &mut Vec<u8>, strings: &[Bytes]) -> Result<(), AllocError>
    ensures { OnOk result (text.new.items ≡ text.old.items ++ flat_map (λ s. comma ++ json_string s) strings.now) }
{
    for string in strings {
        text.push(b',')?;
        push_string(text, string.as_slice())?;
    }
    Ok(())
}

/// Appends the strings of a list.
fn push_items(text: &mut Vec<u8>, strings: &[Bytes]) -> Result<(), AllocError>
    ensures { OnOk result (text.new.items ≡ text.old.items ++ join_by json_string comma strings.now) }
{
    match strings {
        [] => Ok(()),
        [first, rest @ ..] => {
            push_string(text, first.as_slice())?;
            push_further(text, rest)
        }
    }
}

/// Appends a list of strings.
#[tactic(auto, unfolding(crate::specs::JsonParts::json_array))]
pub fn push_strings(text: &mut Vec<u8>, strings: &[Bytes]) -> Result<(), AllocError>
    ensures { OnOk result (text.new.items ≡ text.old.items ++ json_array json_string strings.now) }
{
    text.push(b'[')?;
    push_items(text, strings)?;
    text.push(b']')?;
    Ok(())
}

/// Appends the key of a member, and a colon.
pub fn push_key(text: &mut Vec<u8>, key: &[u8]) -> Result<(), AllocError>
    ensures { OnOk result (text.new.items ≡ text.old.items ++ json_key key.now) }
{
    push_string(text, key)?;
    text.push(b':')?;
    Ok(())
}

/// Begins an object, with the key of its first member.
pub fn open_object(text: &mut Vec<u8>, key: &[u8]) -> Result<(), AllocError>
    ensures { OnOk result (text.new.items ≡ text.old.items ++ (123 ∷ json_key key.now)) }
{
    text.push(b'{')?;
    push_key(text, key)
}

/// Begins the next member of an object with its key.
pub fn next_key(text: &mut Vec<u8>, key: &[u8]) -> Result<(), AllocError>
    ensures { OnOk result (text.new.items ≡ text.old.items ++ (44 ∷ json_key key.now)) }
{
    text.push(b',')?;
    push_key(text, key)
}

/// Ends an object.
pub fn close_object(text: &mut Vec<u8>) -> Result<(), AllocError>
    ensures { OnOk result (text.new.items ≡ text.old.items ++ 125 ∷ []) }
{
    text.push(b'}')?;
    Ok(())
}
