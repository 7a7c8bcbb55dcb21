//! The texts of values that have no values in them.

ghost use Rattle.std.specs.Prelude.{◌≡◌, OnOk};
ghost use Rattle.std.specs.Fmt.{signed_decimal};
ghost use Rattle.bq_predeclared.specs.Predeclared.{name_of};
ghost use Rattle.bq_value.specs.Datum.{text_of_name};
ghost use Rattle.bq_value_text.specs.Page.{written};
ghost use Rattle.bq_value_text.specs.Leaf.{leaf_written, range_written, named_written};

use crate::page::Page;
use crate::quoted::write_quoted;
use bq_predeclared::{Predeclared, RuleFunction};
use bq_value::{Node, Range, Value};
use itoa::Buffer;
use std::alloc::AllocError;

/// Writes a value that is no tuple, list, dict or rule; of these it writes nothing.
#[tactic(auto, unfolding(crate::specs::Leaf::leaf_written))]
pub(crate) fn write_leaf(value: &Value, page: &mut Page) -> Result<(), AllocError>
    ensures { OnOk result (page.new ≡ leaf_written page.old value.now) }
{
    match &value.node {
        Node::NoneValue => page.write(b"None"),
        Node::Bool(true) => page.write(b"True"),
        Node::Bool(false) => page.write(b"False"),
        Node::Int(n) => write_int(*n, page),
        Node::Text(bytes) => write_quoted(bytes.as_slice(), page),
        Node::Range(range) => write_range(*range, page),
        Node::Function(function) => write_named(b"<function ", function.name.as_slice(), page),
        Node::BuiltIn(function) => {
            write_named(b"<built-in function ", own_name(*function), page)
        }
        Node::SchemaRule(_, name) => { write_named(b"<built-in function ", name.as_slice(), page) }
        Node::Rule => write_named(b"<built-in function ", RuleFunction::Rule.name(), page),
        Node::Attr(kind) => {
            write_named(
                b"<built-in function ",
                RuleFunction::Attr(*kind).name(),
                page,
            )
        }
        Node::Attribute(attribute) => write_named(b"<attr.", attribute.kind.name(), page),
        Node::Tuple(_) | Node::Cell(_) => Ok(()),
    }
}

/// Returns the name of a function of the language, or of a build function.
fn own_name(function: Predeclared) -> &'static [u8]
    ensures { result.now ≡ text_of_name (name_of function) }
{
    match function.name() {
        None => b"",
        Some(name) => name,
    }
}

fn write_int(n: i64, page: &mut Page) -> Result<(), AllocError>
    ensures { OnOk result (page.new ≡ written page.old (signed_decimal n)) }
{
    let mut buffer = Buffer::new();
    page.write(buffer.format(n).as_bytes())
}

/// Writes `range(0, 3)`, or with a step other than 1 `range(0, 6, 2)`.
#[tactic(auto, unfolding(crate::specs::Leaf::range_written))]
fn write_range(range: Range, page: &mut Page) -> Result<(), AllocError>
    ensures { OnOk result (page.new ≡ range_written page.old range.start range.stop range.step) }
{
    page.write(b"range(")?;
    write_int(range.start, page)?;
    page.write(b", ")?;
    write_int(range.stop, page)?;
    if range.step != 1 {
        page.write(b", ")?;
        write_int(range.step, page)?;
    }
    page.write(b")")
}

/// Writes `<function NAME>`, `<built-in function NAME>` or `<attr.NAME>`.
#[tactic(auto, unfolding(crate::specs::Leaf::named_written))]
fn write_named(before: &[u8], name: &[u8], page: &mut Page) -> Result<(), AllocError>
    ensures { OnOk result (page.new ≡ named_written before.now name.now page.old) }
{
    page.write(before)?;
    page.write(name)?;
    page.write(b">")
}
