//! The escapes of code points in strings.

ghost use Rattle.std.specs.Prelude.{◌≡◌, ◌++◌, ◌<◌, OnOk};
ghost use Rattle.std.specs.Char.{digit_char};
ghost use Rattle.bq_package_values.specs.JsonString.{unicode_escape, escape};

use std::alloc::AllocError;

/// Returns a hexadecimal digit.
fn hex_digit(value: u16) -> u8
    requires { value < 16 }
    ensures { result ≡ digit_char value }
{
    if value < 10 {
        b'0' + value as u8
    } else {
        b'a' + (value - 10) as u8
    }
}

/// Appends `\uXXXX`.
fn push_unicode_escape(text: &mut Vec<u8>, point: u16) -> Result<(), AllocError>
    ensures { OnOk result (text.new.items ≡ text.old.items ++ unicode_escape point) }
{
    let escape = [
        b'\\',
        b'u',
        hex_digit(point / 4096),
        hex_digit(point / 256 % 16),
        hex_digit(point / 16 % 16),
        hex_digit(point % 16),
    ];
    text.extend_from_slice(&escape)
}

/// Appends the escape of a code point.
#[tactic(auto, unfolding(crate::specs::JsonString::escape))]
pub(crate) fn push_escape(text: &mut Vec<u8>, point: u16) -> Result<(), AllocError>
    ensures { OnOk result (text.new.items ≡ text.old.items ++ escape point) }
{
    match point {
        0x22 => text.extend_from_slice(b"\\\""),
        0x5C => text.extend_from_slice(b"\\\\"),
        0x08 => text.extend_from_slice(b"\\b"),
        0x09 => text.extend_from_slice(b"\\t"),
        0x0A => text.extend_from_slice(b"\\n"),
        0x0C => text.extend_from_slice(b"\\f"),
        0x0D => text.extend_from_slice(b"\\r"),
        _ => push_unicode_escape(text, point),
    }
}
