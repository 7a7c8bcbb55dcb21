//! Typed values in a package.

ghost use Rattle.std.specs.Prelude.{◌≡◌, IfOk};
ghost use Rattle.std.specs.Option.{ForSome};
ghost use Rattle.bq_base.specs.Gives.{Gives};
ghost use Rattle.bq_value.specs.declared.error.EvalErr.TheVariants.{Bad};
ghost use Rattle.bq_predeclared.specs.declared.attribute_type.AttributeType.TheVariants.{LabelList};
ghost use Rattle.bq_package_values.specs.Values.{typed, value_as, AreLabelsOf};

use crate::label_texts::{TextKind, label, labels};
use crate::plain_lists::{are_plain, plain_labels};
use crate::scope::PackageScope;
use crate::texts::elements_in;
use crate::types::written_as;
use crate::written::Written;
use bq_base::EvalFault;
use bq_label::Label;
use bq_predeclared::AttributeType;
use bq_value::{EvalErr, Store, Value};
use bq_value_datum::{AttributeValue, SharedList};
use sqlite_items::Items;
use std::alloc::{AllocError, Global};

/// Returns what is written, with its labels read in a package: F78 or F75, then F37.
#[tactic(auto, unfolding(crate::specs::Values::typed))]
pub fn typed(
    alloc: Global,
    scope: PackageScope<'_>,
    written: Written,
) -> Result<AttributeValue, EvalErr>
    ensures { Gives (λ v. v) Bad result (typed scope.entry.own.now scope.entry.packages.now written) }
{
    match written {
        Written::Value(value) => Ok(value),
        Written::Label(text) => {
            let label = label(alloc, scope, TextKind::Label, &text)?;
            Ok(AttributeValue::Label(label))
        }
        Written::LabelList(texts) => {
            let labels = labels(alloc, scope, TextKind::Label, texts.as_slice())?;
            Ok(AttributeValue::LabelList(SharedList::of(alloc, labels)?))
        }
        Written::Output(text) => {
            let label = label(alloc, scope, TextKind::Output, &text)?;
            Ok(AttributeValue::Output(label))
        }
        Written::OutputList(texts) => {
            let labels = labels(alloc, scope, TextKind::Output, texts.as_slice())?;
            Ok(AttributeValue::OutputList(SharedList::of(alloc, labels)?))
        }
    }
}

/// Returns what [`value_as`] does, whatever the value is.
#[tactic(auto, unfolding(crate::specs::Values::value_as))]
fn any_value_as(
    alloc: Global,
    scope: PackageScope<'_>,
    store: &Store,
    kind: AttributeType,
    value: &Value,
) -> Result<AttributeValue, EvalErr>
    ensures { Gives (λ v. v) Bad result (value_as scope.entry.own.now scope.entry.packages.now store.now kind value.now) }
{
    let written = written_as(alloc, store, kind, value, EvalFault::AttributeType)?;
    typed(alloc, scope, written)
}

/// Returns the labels of a list of plain names, or nothing if the value is another.
fn labels_if_plain(
    alloc: Global,
    scope: PackageScope<'_>,
    store: &Store,
    value: &Value,
) -> Result<Option<Items<Label>>, AllocError>
    ensures { IfOk result (λ found. ForSome found (AreLabelsOf scope.entry.own.now scope.entry.packages.now store.now value.now)) }
{
    if scope.short_names_cross() {
        return Ok(None);
    }
    let Ok(values) = elements_in(store, value, EvalFault::AttributeType) else {
        return Ok(None);
    };
    if !are_plain(values) {
        return Ok(None);
    }
    Ok(Some(plain_labels(alloc, scope.own, values)?))
}

/// Returns what [`value_as`] does where the type is that of lists of labels.
fn label_list(
    alloc: Global,
    scope: PackageScope<'_>,
    store: &Store,
    value: &Value,
) -> Result<AttributeValue, EvalErr>
    ensures { Gives (λ v. v) Bad result (value_as scope.entry.own.now scope.entry.packages.now store.now LabelList value.now) }
{
    match labels_if_plain(alloc, scope, store, value)? {
        Some(labels) => Ok(AttributeValue::LabelList(SharedList::of(alloc, labels)?)),
        None => any_value_as(alloc, scope, store, AttributeType::LabelList, value),
    }
}

/// Returns the value of an attribute of a type that a call gives: F73, then the faults of its labels. Where a list of labels
/// is one of plain names, no list is made of its texts.
pub fn value_as(
    alloc: Global,
    scope: PackageScope<'_>,
    store: &Store,
    kind: AttributeType,
    value: &Value,
) -> Result<AttributeValue, EvalErr>
    ensures { Gives (λ v. v) Bad result (value_as scope.entry.own.now scope.entry.packages.now store.now kind value.now) }
{
    match kind {
        AttributeType::LabelList => label_list(alloc, scope, store, value),
        _ => any_value_as(alloc, scope, store, kind, value),
    }
}
