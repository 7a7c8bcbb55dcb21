//! The text of an answer: each target on a line. Long names of packages, targets and rules are shared, not copied, so that
//! a package's path stands in memory once however many of its targets are printed.

ghost use Rattle.std.specs.Prelude.{◌≡◌, ◌++◌, ◌∷◌, ◌<◌, [], length, IfOk, OnOk};
ghost use Rattle.std.specs.List.{All, flat_map};
ghost use Rattle.bq_label.specs.Label.{full_form, repository_prefix};
ghost use Rattle.bq_query_function.specs.Texts.{kind_text};
ghost use Rattle.bq_query.specs.Printed.{answer_line, printed};

use bq_base_texts::Rope;
use bq_label::{Bytes, Label};
use bq_package_target::{Target, TargetKind};
use std::alloc::{AllocError, Global};

/// What is printed for a target.
#[derive(Clone, Copy)]
pub enum OutputForm {
    /// Its label in full.
    Label,
    /// Its kind, a space, and its label in full.
    LabelKind,
}

/// Appends `@` and the name of a repository, unless it is the main one.
fn push_repository(alloc: Global, repo: &Bytes, text: &mut Rope) -> Result<(), AllocError>
    ensures { OnOk result (text.new ≡ text.old ++ repository_prefix repo.now) }
{
    if repo.is_empty() {
        return Ok(());
    }
    text.push_slice(b"@")?;
    text.push_bytes(alloc, repo)
}

/// Appends a label in full.
#[tactic(auto, unfolding(bq_label::specs::Label::full_form))]
fn push_label(alloc: Global, label: &Label, text: &mut Rope) -> Result<(), AllocError>
    ensures { OnOk result (text.new ≡ text.old ++ full_form label.now) }
{
    push_repository(alloc, label.repo(), text)?;
    text.push_slice(b"//")?;
    text.push_bytes(alloc, label.package())?;
    text.push_slice(b":")?;
    text.push_bytes(alloc, label.name())
}

/// Appends the text of a kind.
#[tactic(auto, unfolding(bq_query_function::specs::Texts::kind_text))]
fn push_kind(alloc: Global, kind: &TargetKind, text: &mut Rope) -> Result<(), AllocError>
    ensures { OnOk result (text.new ≡ text.old ++ kind_text kind.now) }
{
    match kind {
        TargetKind::Rule(name, _) => {
            text.push_bytes(alloc, name)?;
            text.push_slice(b" rule")
        }
        TargetKind::Source => text.push_slice(b"source file"),
        TargetKind::Generated(_) => text.push_slice(b"generated file"),
        TargetKind::Group => text.push_slice(b"package group"),
    }
}

/// Appends a label in full and a newline.
fn push_label_line(alloc: Global, label: &Label, text: &mut Rope) -> Result<(), AllocError>
    ensures { OnOk result (text.new ≡ text.old ++ (full_form label.now ++ 10 ∷ [])) }
{
    push_label(alloc, label, text)?;
    text.push_slice(b"\n")
}

/// Appends the line of a target.
fn push_line(
    alloc: Global,
    form: OutputForm,
    target: &Target,
    text: &mut Rope,
) -> Result<(), AllocError>
    ensures { OnOk result (text.new ≡ text.old ++ answer_line form target.now) }
{
    match form {
        OutputForm::Label => push_label_line(alloc, &target.label, text),
        OutputForm::LabelKind => {
            push_kind(alloc, &target.kind, text)?;
            text.push_slice(b" ")?;
            push_label_line(alloc, &target.label, text)
        }
    }
}

/// Returns the lines of an answer.
pub fn print_answer(
    alloc: Global,
    form: OutputForm,
    targets: &[Target],
    answer: &[usize],
) -> Result<Rope, AllocError>
    requires { All (λ at. at < length targets.now) answer.now }
    ensures { IfOk result (λ text. text ≡ printed form targets.now answer.now) }
{
    let mut text = Rope::new(alloc);
    for at in answer {
        push_line(alloc, form, &targets[*at], &mut text)?;
    }
    Ok(text)
}
