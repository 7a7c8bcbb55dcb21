//! How the lines of faults are printed.

ghost use Rattle.std.specs.Prelude.{◌≡◌, ◌++◌, IfOk};
ghost use Rattle.bq_base_texts.specs.LineText.{detail_text, line_text};

use crate::fault_line::FaultLine;
use crate::rope::Rope;
use std::alloc::{AllocError, Global};

/// Appends a space and the detail, if there is one.
pub fn push_detail(text: &mut Vec<u8>, detail: &[u8]) -> Result<(), AllocError>
    ensures { IfOk result (λ _. text.new.items ≡ text.old.items ++ detail_text detail.now) }
{
    if detail.is_empty() {
        return Ok(());
    }
    text.push(b' ')?;
    text.extend_from_slice(detail)
}

/// Appends a space and the detail of a line, if it has one. A long detail is shared, not copied.
fn push_detail_of(alloc: Global, text: &mut Rope, line: &FaultLine) -> Result<(), AllocError>
    ensures { IfOk result (λ _. text.new ≡ text.old ++ detail_text line.now.detail) }
{
    if line.detail.is_empty() {
        return Ok(());
    }
    text.push_slice(b" ")?;
    text.push_bytes(alloc, &line.detail)
}

/// Appends `LABEL:LINE: F<number> <Name> DETAIL` and a newline. A long label is shared, not copied.
#[tactic(auto, unfolding(crate::specs::LineText::line_text))]
pub(crate) fn push_line(alloc: Global, text: &mut Rope, line: &FaultLine) -> Result<(), AllocError>
    ensures { IfOk result (λ _. text.new ≡ text.old ++ line_text line.now) }
{
    let place = line.line;
    let number = line.kind.number();
    let name = line.kind.name();
    let fault = format!(in alloc; ":{place}: F{number} {name}")?;
    text.push_bytes(alloc, &line.label)?;
    text.push_slice(fault.as_bytes())?;
    push_detail_of(alloc, text, line)?;
    text.push_slice(b"\n")?;
    Ok(())
}
