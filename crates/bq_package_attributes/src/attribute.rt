//! `attr.NAME(..)` (Bazel, "attr").

ghost use Rattle.std.specs.Prelude.{◌≡◌, option_copied};
ghost use Rattle.bq_base.specs.Gives.{Gives};
ghost use Rattle.bq_value.specs.declared.error.EvalErr.TheVariants.{Bad};
ghost use Rattle.bq_package_attributes.specs.Attribute.{written_default, kept, resolved_default, is_mandatory, attribute_of, attribute};

use crate::keywords::{bind_attribute, documented};
use bq_base::EvalFault;
use bq_builtin_machine::Args;
use bq_package_values::{Host, Written, argument, written_as};
use bq_predeclared::AttributeType;
use bq_value::{EvalErr, Node, Store, Value, truth};
use bq_value_datum::{Attribute, AttributeValue};
use std::alloc::Global;

/// Returns the default as it is written, if one is given that isn't `None`.
fn written_default(
    alloc: Global,
    store: &Store,
    kind: AttributeType,
    value: Option<&Value>,
) -> Result<Option<Written>, EvalErr>
    ensures { Gives (λ w. w) Bad result (written_default store.now kind (option_copied value.entry)) }
{
    let Some(value) = value else {
        return Ok(None);
    };
    match &value.node {
        Node::NoneValue => Ok(None),
        _ => {
            let written = written_as(alloc, store, kind, value, EvalFault::WrongType)?;
            Ok(Some(written))
        }
    }
}

/// Returns the default, if it has to be kept.
fn kept(value: AttributeValue) -> Option<AttributeValue>
    ensures { result ≡ kept value }
{
    if value.is_blank() {
        return None;
    }
    Some(value)
}

/// Returns the default that is kept, read by the host.
fn resolved_default<H: Host>(
    alloc: Global,
    host: &H,
    written: Option<Written>,
) -> Result<Option<AttributeValue>, EvalErr>
    ensures { Gives (λ v. v) Bad result (resolved_default (H.means.read_default (H.seen host.now)) written) }
{
    match written {
        None => Ok(None),
        Some(written) => Ok(kept(host.read_default(alloc, written)?)),
    }
}

/// Returns whether the attribute is mandatory: the truth of the argument.
fn is_mandatory(store: &Store, value: Option<&Value>) -> bool
    ensures { result ≡ is_mandatory store.now (option_copied value.entry) }
{
    match value {
        None => false,
        Some(value) => truth(store, value),
    }
}

/// Makes an attribute of a type, from the arguments of its parameters.
#[tactic(auto, unfolding(crate::specs::Attribute::attribute_of))]
fn attribute_of<H: Host>(
    alloc: Global,
    host: &H,
    store: &Store,
    kind: AttributeType,
    values: &[Option<Value>],
) -> Result<Attribute, EvalErr>
    ensures { Gives (λ x. x) Bad result (attribute_of (H.means.read_default (H.seen host.now)) store.now kind values.now) }
{
    let written = written_default(alloc, store, kind, argument(values, 0))?;
    documented(argument(values, 2))?;
    let default = resolved_default(alloc, host, written)?;
    Ok(Attribute {
        kind,
        is_mandatory: is_mandatory(store, argument(values, 1)),
        default,
    })
}

/// Returns the attribute that a call declares.
#[tactic(auto, unfolding(crate::specs::Attribute::attribute))]
pub(crate) fn attribute<H: Host>(
    alloc: Global,
    host: &H,
    store: &Store,
    kind: AttributeType,
    args: Args,
) -> Result<Attribute, EvalErr>
    ensures { Gives (λ x. x) Bad result (attribute (H.means.read_default (H.seen host.now)) store.now kind args) }
{
    let bound = bind_attribute(alloc, args)?;
    attribute_of(alloc, host, store, kind, &bound.values)
}
