//! Fault F79: labels of other packages that name no target.

ghost use Rattle.std.specs.Prelude.{◌≡◌, ◌↔◌, ◌++◌, List, false, IfOk, OnOk};
ghost use Rattle.std.specs.List.{Contains};
ghost use Rattle.bq_base_texts.specs.declared.fault_line.FaultLine.{FaultLine};
ghost use Rattle.bq_label.specs.Label.{full_form};
ghost use Rattle.bq_package_target.specs.Package.{PackageTargets};
ghost use Rattle.bq_query_target_graph.specs.Dangling.{dangling, dangling_line, all_dangling, IsDangling};

use bq_base::{Bytes, FaultKind};
use bq_base_texts::FaultLine;
use bq_label::{Label, print_label};
use bq_package_target::is_of;
use std::alloc::{AllocError, Global};

/// Returns the full form of a label.
fn shown(alloc: Global, label: &Label) -> Result<Bytes, AllocError>
    ensures { IfOk result (λ text. text ≡ full_form label.now) }
{
    Bytes::from_vec(alloc, print_label(alloc, label)?)
}

/// Returns the text, or another owner of the other one where they are the same.
fn share_of(text: Bytes, other: &Bytes) -> Result<Bytes, AllocError>
    ensures { IfOk result (λ b. b ≡ text) }
{
    if other.as_slice() == text.as_slice() {
        return other.share();
    }
    Ok(text)
}

/// Returns the full form of a BUILD file's label. The lines of a package come one after another, and share it.
fn shown_file(alloc: Global, build_file: &Label, lines: &[FaultLine]) -> Result<Bytes, AllocError>
    ensures { IfOk result (λ text. text ≡ full_form build_file.now) }
{
    let text = shown(alloc, build_file)?;
    match lines.last() {
        Some(last) => share_of(text, &last.label),
        None => Ok(text),
    }
}

/// Returns the line of the fault, which comes after these lines.
fn dangling_line(
    alloc: Global,
    build_file: &Label,
    line: u32,
    label: &Label,
    lines: &[FaultLine],
) -> Result<FaultLine, AllocError>
    ensures { IfOk result (λ x. x ≡ dangling_line build_file.now line label.now) }
{
    let file = shown_file(alloc, build_file, lines)?;
    Ok(FaultLine {
        label: file,
        line,
        kind: FaultKind::DanglingLabel,
        detail: shown(alloc, label)?,
    })
}

/// Appends the line of a label that names no target, if it is of another package than the BUILD file.
pub(crate) fn add_dangling(
    alloc: Global,
    build_file: &Label,
    line: u32,
    label: &Label,
    lines: &mut Vec<FaultLine>,
) -> Result<(), AllocError>
    ensures { OnOk result (lines.new.items ≡ lines.old.items ++ dangling (λ _. false) build_file.now line label.now) }
{
    if is_of(build_file.package_id(), label) {
        return Ok(());
    }
    let found = dangling_line(alloc, build_file, line, label, lines.as_slice())?;
    lines.push(found)?;
    Ok(())
}

/// The lines are those of the labels of other packages that a target of a package depends on and no target has.
pub fn dangling_in_words()
    ensures { (ps : List PackageTargets) (x : FaultLine) → Contains (all_dangling ps) x ↔ IsDangling ps x }
{}
