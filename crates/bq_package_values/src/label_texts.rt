//! The labels that the texts of a call stand for.

ghost use Rattle.std.specs.Prelude.{◌≡◌, IfOk, true, map};
ghost use Rattle.std.specs.List.{list_all};
ghost use Rattle.std.specs.Option.{ForSome};
ghost use Rattle.bq_base.specs.Gives.{Gives};
ghost use Rattle.bq_label.specs.Label.{label_in};
ghost use Rattle.bq_label.specs.Paths.{is_path};
ghost use Rattle.bq_value.specs.declared.error.EvalErr.TheVariants.{Bad};
ghost use Rattle.bq_package_values.specs.PlainNames.{is_plain_name};
ghost use Rattle.bq_package_values.specs.LabelTexts.{named, without_colon, read, IsReadLast, read_all, label, labels};

use crate::plain_names::{are_plain_names, is_plain_name};
use crate::scope::PackageScope;
use bq_base::{Bytes, EvalFault, SourceErr};
use bq_label::{Label, PackageId, is_path, read_shared_label};
use bq_value::EvalErr;
use sqlite_items::Items;
use std::alloc::{AllocError, Global};

/// What a text of a call stands for.
#[derive(Clone, Copy)]
pub enum TextKind {
    /// Any target, by its label.
    Label,
    /// A target of the package that the call declares, by its name.
    Name,
    /// A file of the package that the rule makes, by its name, which a colon may precede.
    Output,
}

/// Returns the label of the package with this name. No byte is copied.
pub(crate) fn own_label(own: &PackageId, name: &Bytes) -> Result<Label, AllocError>
    requires { is_path name.now ≡ true }
    ensures { IfOk result (λ l. l ≡ label_in own.now name.now) }
{
    let name = name.share()?;
    Ok(Label::new(own.share()?, name))
}

/// Returns the labels of the package with these names.
fn own_labels(alloc: Global, own: &PackageId, names: &[Bytes]) -> Result<Items<Label>, AllocError>
    requires { list_all is_plain_name names.now ≡ true }
    ensures { IfOk result (λ ls. ls ≡ map (label_in own.now) names.now) }
{
    let mut labels = Vec::with_capacity(alloc, names.len())?;
    for name in names {
        labels.push(own_label(own, name)?)?;
    }
    Ok(Items::from_vec(labels))
}

/// Returns the target of the package with this name, or F75. No byte is copied.
fn named(own: &PackageId, name: &Bytes) -> Result<Label, EvalErr>
    ensures { Gives (λ l. l) Bad result (named own.now name.now) }
{
    if !is_path(name.as_slice()) {
        return Err(EvalErr::Bad(EvalFault::BadName));
    }
    Ok(own_label(own, name)?)
}

#[tactic(auto, unfolding(crate::specs::LabelTexts::without_colon))]
fn without_colon(alloc: Global, text: &Bytes) -> Result<Bytes, AllocError>
    ensures { IfOk result (λ name. name ≡ without_colon text.now) }
{
    match text.as_slice() {
        [b':', name @ ..] => Bytes::from_slice(alloc, name),
        _ => text.share(),
    }
}

/// Returns the label that a text stands for in a package: F78 if it is no label, F75 if it is no name.
#[tactic(auto, using(bq_label::proofs::BadLabels::or_bad_label_ok, bq_label::proofs::BadLabels::or_bad_label_err), unfolding(crate::specs::LabelTexts::read))]
fn read(alloc: Global, own: &PackageId, kind: TextKind, text: &Bytes) -> Result<Label, EvalErr>
    ensures { Gives (λ l. l) Bad result (read own.now kind text.now) }
{
    match kind {
        TextKind::Label => match read_shared_label(alloc, text, own) {
            Ok(label) => Ok(label),
            Err(SourceErr::Memory) => Err(EvalErr::Memory),
            Err(SourceErr::Bad(_)) => Err(EvalErr::Bad(EvalFault::BadLabel)),
        },
        TextKind::Name => named(own, text),
        TextKind::Output => named(own, &without_colon(alloc, text)?),
    }
}

/// Returns the label that a text stands for. Where it equals the text before it, whose label is the last of those that were
/// read, that one is shared: so a long text that a list repeats is read once.
fn read_next(
    alloc: Global,
    own: &PackageId,
    kind: TextKind,
    before: Option<&Bytes>,
    labels: &[Label],
    text: &Bytes,
) -> Result<Label, EvalErr>
    requires { ForSome before (λ b. IsReadLast own.now kind b.now labels.now) }
    ensures { Gives (λ l. l) Bad result (read own.now kind text.now) }
{
    match (before, labels.last()) {
        (Some(before), Some(label)) if before == text => Ok(label.share()?),
        _ => read(alloc, own, kind, text),
    }
}

/// Returns the labels that texts stand for.
#[tactic(auto, unfolding(crate::specs::LabelTexts::read_all, crate::specs::Steps::in_turn))]
fn read_all(
    alloc: Global,
    own: &PackageId,
    kind: TextKind,
    texts: &[Bytes],
) -> Result<Items<Label>, EvalErr>
    ensures { Gives (λ ls. ls) Bad result (read_all own.now kind texts.now) }
{
    let mut labels = Vec::with_capacity(alloc, texts.len())?;
    let mut before = None;
    for text in texts {
        let label = read_next(alloc, own, kind, before, &labels, text)?;
        labels.push(label)?;
        before = Some(text);
    }
    Ok(Items::from_vec(labels))
}

/// Returns what [`label`] does, whatever the text is.
#[tactic(auto, unfolding(crate::specs::LabelTexts::label, crate::specs::Scope::inside))]
fn any_label(
    alloc: Global,
    scope: PackageScope<'_>,
    kind: TextKind,
    text: &Bytes,
) -> Result<Label, EvalErr>
    ensures { Gives (λ l. l) Bad result (label scope.entry.own.now scope.entry.packages.now kind text.now) }
{
    let label = read(alloc, scope.own, kind, text)?;
    if scope.own_label_crosses(alloc, &label)? {
        return Err(EvalErr::Bad(EvalFault::CrossesPackage));
    }
    Ok(label)
}

/// Returns the label that a text stands for: F78 or F75, and F37 if it crosses into another package. A plain name is read in
/// one pass, and looked up nowhere.
pub fn label(
    alloc: Global,
    scope: PackageScope<'_>,
    kind: TextKind,
    text: &Bytes,
) -> Result<Label, EvalErr>
    ensures { Gives (λ l. l) Bad result (label scope.entry.own.now scope.entry.packages.now kind text.now) }
{
    if is_plain_name(text.as_slice()) && !scope.short_names_cross() {
        return Ok(own_label(scope.own, text)?);
    }
    any_label(alloc, scope, kind, text)
}

/// Returns what [`labels`] does, whatever the texts are. All are read, and then it is checked whether one crosses into
/// another package.
#[tactic(auto, unfolding(crate::specs::LabelTexts::labels, crate::specs::Scope::all_inside))]
fn any_labels(
    alloc: Global,
    scope: PackageScope<'_>,
    kind: TextKind,
    texts: &[Bytes],
) -> Result<Items<Label>, EvalErr>
    ensures { Gives (λ ls. ls) Bad result (labels scope.entry.own.now scope.entry.packages.now kind texts.now) }
{
    let labels = read_all(alloc, scope.own, kind, texts)?;
    if scope.any_own_label_crosses(alloc, labels.as_slice())? {
        return Err(EvalErr::Bad(EvalFault::CrossesPackage));
    }
    Ok(labels)
}

/// Returns the labels that texts stand for: F78 or F75, and then F37 if one crosses into another package. Plain names are
/// read in one pass, and looked up nowhere.
pub fn labels(
    alloc: Global,
    scope: PackageScope<'_>,
    kind: TextKind,
    texts: &[Bytes],
) -> Result<Items<Label>, EvalErr>
    ensures { Gives (λ ls. ls) Bad result (labels scope.entry.own.now scope.entry.packages.now kind texts.now) }
{
    if are_plain_names(texts) && !scope.short_names_cross() {
        return Ok(own_labels(alloc, scope.own, texts)?);
    }
    any_labels(alloc, scope, kind, texts)
}
