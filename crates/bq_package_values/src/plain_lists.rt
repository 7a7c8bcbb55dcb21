//! Lists of plain names in values, whose labels are made without a list of the names.

ghost use Rattle.std.specs.Prelude.{◌≡◌, IfOk, true, map};
ghost use Rattle.std.specs.List.{list_all};
ghost use Rattle.bq_package_values.specs.PlainLists.{is_plain, own_label};

use crate::label_texts::own_label;
use crate::plain_names::is_plain_name;
use bq_label::{Label, PackageId};
use bq_value::{Node, Value};
use sqlite_items::Items;
use std::alloc::{AllocError, Global};

fn is_plain(value: &Value) -> bool
    ensures { result ≡ is_plain value.now }
{
    match &value.node {
        Node::Text(name) => is_plain_name(name.as_slice()),
        _ => false,
    }
}

pub(crate) fn are_plain(values: &[Value]) -> bool
    ensures { result ≡ list_all is_plain values.now }
{
    values.iter().all(|value| is_plain(value))
}

/// Returns the label of the package with the name that a value is.
#[tactic(auto, using(crate::proofs::PlainNames::plain_is_path))]
fn plain_label(own: &PackageId, value: &Value) -> Result<Label, AllocError>
    requires { is_plain value.now ≡ true }
    ensures { IfOk result (λ l. l ≡ own_label own.now value.now) }
{
    match &value.node {
        Node::Text(name) => own_label(own, name),
        _ => unreachable!(),
    }
}

/// Returns the labels of the package with the names that values are.
pub(crate) fn plain_labels(
    alloc: Global,
    own: &PackageId,
    values: &[Value],
) -> Result<Items<Label>, AllocError>
    requires { list_all is_plain values.now ≡ true }
    ensures { IfOk result (λ ls. ls ≡ map (own_label own.now) values.now) }
{
    let mut labels = Vec::with_capacity(alloc, values.len())?;
    for value in values {
        labels.push(plain_label(own, value)?)?;
    }
    Ok(Items::from_vec(labels))
}
