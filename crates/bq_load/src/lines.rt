//! The fault lines and the print lines of modules.

ghost use Rattle.std.specs.Prelude.{◌≡◌, ◌++◌, map, IfOk, OnOk};
ghost use Rattle.std.specs.List.{flat_map};
ghost use Rattle.bq_base_texts.specs.FaultLine.{put_lines, sorted_lines};
ghost use Rattle.bq_load.specs.Views.{failed_view, result_view, outcome_view};
ghost use Rattle.bq_load.specs.Loaded.{line_of, lines_by, fault_lines, print_line, prints_by, prints_of, print_lines};

use crate::outcome::ModuleOutcome;
use crate::results::shown;
use bq_base::Bytes;
use bq_base_texts::{FaultLine, FaultLines, Rope};
use bq_label::Label;
use bq_load_module::FailedModule;
use std::alloc::{AllocError, Global};

/// Returns the line of a module that failed.
fn line_of(alloc: Global, label: &Label, failed: &FailedModule) -> Result<FaultLine, AllocError>
    ensures { IfOk result (λ line. line ≡ line_of label.now (failed_view failed.now)) }
{
    Ok(FaultLine {
        label: shown(alloc, label)?,
        line: failed.fault.line,
        kind: failed.fault.kind,
        detail: failed.fault.detail.share()?,
    })
}

/// Adds the line of a module that failed.
#[tactic(auto, unfolding(bq_base_texts::specs::FaultLine::put_lines))]
fn add_line(alloc: Global, module: &ModuleOutcome, lines: &mut FaultLines) -> Result<(), AllocError>
    ensures { OnOk result (lines.new ≡ put_lines lines.old (lines_by «module».now.label (result_view «module».now.result))) }
{
    match &module.result {
        Ok(_) => Ok(()),
        Err(failed) => {
            let line = line_of(alloc, &module.label, failed)?;
            lines.add(line)?;
            Ok(())
        }
    }
}

/// Returns the fault lines of modules, in order.
pub(crate) fn fault_lines(
    alloc: Global,
    modules: &[ModuleOutcome],
) -> Result<FaultLines, AllocError>
    ensures { IfOk result (λ lines. lines ≡ sorted_lines (fault_lines (map outcome_view modules.now))) }
{
    let mut lines = FaultLines::new(alloc);
    for each in modules {
        add_line(alloc, each, &mut lines)?;
    }
    Ok(lines)
}

/// Appends `LABEL: TEXT` and a newline for each text. Long labels and texts are shared, not copied.
fn push_prints(
    alloc: Global,
    text: &mut Rope,
    form: &Bytes,
    prints: &[Bytes],
) -> Result<(), AllocError>
    ensures { OnOk result (text.new ≡ text.old ++ flat_map (print_line form.now) prints.now) }
{
    for print in prints {
        text.push_bytes(alloc, form)?;
        text.push_slice(b": ")?;
        text.push_bytes(alloc, print)?;
        text.push_slice(b"\n")?;
    }
    Ok(())
}

/// Appends what a module printed. Most print nothing, and then no label is written out.
fn push_module(alloc: Global, text: &mut Rope, module: &ModuleOutcome) -> Result<(), AllocError>
    ensures { OnOk result (text.new ≡ text.old ++ prints_of (outcome_view «module».now)) }
{
    let prints = match &module.result {
        Ok(loaded) => loaded.prints.as_slice(),
        Err(failed) => failed.prints.as_slice(),
    };
    if prints.is_empty() {
        return Ok(());
    }
    let form = shown(alloc, &module.label)?;
    push_prints(alloc, text, &form, prints)
}

/// Returns the print lines of modules: in the order of their labels, and for each in the order of its calls.
pub(crate) fn print_lines(alloc: Global, modules: &[ModuleOutcome]) -> Result<Rope, AllocError>
    ensures { IfOk result (λ text. text ≡ print_lines (map outcome_view modules.now)) }
{
    let mut text = Rope::new(alloc);
    for each in modules {
        push_module(alloc, &mut text, each)?;
    }
    Ok(text)
}
