//! Strings in quotes (Starlark, "repr").

ghost use Rattle.std.specs.Prelude.{◌≡◌, OnOk};
ghost use Rattle.bq_source.specs.StringLiteral.{quoted, quoted_byte};
ghost use Rattle.bq_value_text.specs.Page.{written};

use crate::page::Page;
use std::alloc::AllocError;

/// Writes a string in double quotes, with escapes for a backslash, a double quote, LF, CR and tab.
pub(crate) fn write_quoted(bytes: &[u8], page: &mut Page) -> Result<(), AllocError>
    ensures { OnOk result (page.new ≡ written page.old (quoted bytes.now)) }
{
    if page.is_over() {
        return Ok(());
    }
    page.write(b"\"")?;
    for byte in bytes {
        write_quoted_byte(*byte, page)?;
    }
    page.write(b"\"")
}

fn write_quoted_byte(byte: u8, page: &mut Page) -> Result<(), AllocError>
    ensures { OnOk result (page.new ≡ written page.old (quoted_byte byte)) }
{
    match byte {
        b'\\' => page.write(b"\\\\"),
        b'"' => page.write(b"\\\""),
        b'\n' => page.write(b"\\n"),
        b'\r' => page.write(b"\\r"),
        b'\t' => page.write(b"\\t"),
        other => page.write(&[other]),
    }
}
