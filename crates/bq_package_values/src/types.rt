//! How the value of each type of attributes is taken, and its JSON. A type has its lines here, and its value those in `value.rt` of
//! bq_value_datum; nothing else speaks of one type alone.

ghost use Rattle.std.specs.Prelude.{◌≡◌, ◌++◌, OnOk};
ghost use Rattle.bq_base.specs.Gives.{Gives};
ghost use Rattle.bq_value.specs.declared.error.EvalErr.TheVariants.{Bad};
ghost use Rattle.bq_package_values.specs.Types.{written_as, json_value};

use crate::json::{push_label, push_labels, push_string_list};
use crate::json_parts::{push_bool, push_int};
use crate::json_string::push_string;
use crate::readings::{bool_in, int_in};
use crate::texts::{text_in, texts_in};
use crate::written::Written;
use bq_base::EvalFault;
use bq_predeclared::AttributeType;
use bq_value::{EvalErr, Store, Value};
use bq_value_datum::{AttributeValue, SharedList};
use std::alloc::{AllocError, Global};

/// Returns a value of a type; `why` is the fault of a value of another type.
#[tactic(auto, unfolding(crate::specs::Types::written_as))]
pub fn written_as(
    alloc: Global,
    store: &Store,
    kind: AttributeType,
    value: &Value,
    why: EvalFault,
) -> Result<Written, EvalErr>
    ensures { Gives (λ w. w) Bad result (written_as why store.now kind value.now) }
{
    match kind {
        AttributeType::String => Ok(Written::Value(AttributeValue::String(text_in(value, why)?))),
        AttributeType::Int => Ok(Written::Value(AttributeValue::Int(int_in(value, why)?))),
        AttributeType::Bool => Ok(Written::Value(AttributeValue::Bool(bool_in(value, why)?))),
        AttributeType::StringList => {
            let texts = texts_in(alloc, store, value, why)?;
            let texts = SharedList::of(alloc, texts)?;
            Ok(Written::Value(AttributeValue::StringList(texts)))
        }
        AttributeType::Label => Ok(Written::Label(text_in(value, why)?)),
        AttributeType::LabelList => Ok(Written::LabelList(texts_in(alloc, store, value, why)?)),
        AttributeType::Output => Ok(Written::Output(text_in(value, why)?)),
        AttributeType::OutputList => Ok(Written::OutputList(texts_in(alloc, store, value, why)?)),
    }
}

/// Appends the value as JSON: strings as they are, integers as numbers, labels in full.
pub fn push_value(
    alloc: Global,
    text: &mut Vec<u8>,
    value: &AttributeValue,
) -> Result<(), AllocError>
    ensures { OnOk result (text.new.items ≡ text.old.items ++ json_value value.now) }
{
    match value {
        AttributeValue::String(string) => push_string(text, string.as_slice()),
        AttributeValue::Int(n) => push_int(text, *n),
        AttributeValue::Bool(truth) => push_bool(text, *truth),
        AttributeValue::StringList(strings) => push_string_list(text, strings.as_slice()),
        AttributeValue::Label(label) => push_label(alloc, text, label),
        AttributeValue::LabelList(labels) => push_labels(alloc, text, labels.as_slice()),
        AttributeValue::Output(label) => push_label(alloc, text, label),
        AttributeValue::OutputList(labels) => push_labels(alloc, text, labels.as_slice()),
    }
}
