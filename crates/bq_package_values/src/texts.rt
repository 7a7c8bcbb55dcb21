//! Strings, and lists of strings, in values.

ghost use Rattle.std.specs.Prelude.{◌≡◌};
ghost use Rattle.bq_base.specs.Gives.{Gives};
ghost use Rattle.bq_value.specs.declared.error.EvalErr.TheVariants.{Bad};
ghost use Rattle.bq_package_values.specs.Texts.{text_in, elements_in, all_texts, texts_in};

use bq_base::{Bytes, EvalFault};
use bq_value::{Body, EvalErr, Node, Store, Value};
use sqlite_items::Items;
use std::alloc::Global;

/// Returns a string; `why` is the fault of another value.
#[tactic(auto, unfolding(crate::specs::Texts::text_in))]
pub fn text_in(value: &Value, why: EvalFault) -> Result<Bytes, EvalErr>
    ensures { Gives (λ text. text) Bad result (text_in why value.now) }
{
    match &value.node {
        Node::Text(text) => Ok(text.share()?),
        _ => Err(EvalErr::Bad(why)),
    }
}

/// Returns the strings that all of the values are.
#[tactic(auto, unfolding(crate::specs::Texts::all_texts, crate::specs::Steps::in_turn))]
pub(crate) fn all_texts(
    alloc: Global,
    values: &[Value],
    why: EvalFault,
) -> Result<Items<Bytes>, EvalErr>
    ensures { Gives (λ texts. texts) Bad result (all_texts why values.now) }
{
    let mut texts = Vec::with_capacity(alloc, values.len())?;
    for value in values {
        texts.push(text_in(value, why)?)?;
    }
    Ok(Items::from_vec(texts))
}

/// Returns the elements of a list or a tuple; `why` is the fault of another value.
#[tactic(auto, using(bq_value_datum::specs::Datum::list_of_data_of))]
pub(crate) fn elements_in<'a>(
    store: &'a Store,
    value: &'a Value,
    why: EvalFault,
) -> Result<&'a [Value], EvalErr>
    ensures { Gives (λ values. values.now) Bad result (elements_in why store.now value.now) }
{
    match &value.node {
        Node::Tuple(values) => Ok(values),
        Node::Cell(cell) => match store.content(*cell) {
            None => Err(EvalErr::Bad(why)),
            Some(content) => match content.body() {
                Body::List(values) => Ok(values),
                Body::Dict(_) => Err(EvalErr::Bad(why)),
                Body::Rule(_) => Err(EvalErr::Bad(why)),
            },
        },
        _ => Err(EvalErr::Bad(why)),
    }
}

/// Returns the strings of a list or a tuple; `why` is the fault of another value.
#[tactic(auto, unfolding(crate::specs::Texts::texts_in))]
pub fn texts_in(
    alloc: Global,
    store: &Store,
    value: &Value,
    why: EvalFault,
) -> Result<Items<Bytes>, EvalErr>
    ensures { Gives (λ texts. texts) Bad result (texts_in why store.now value.now) }
{
    let values = elements_in(store, value, why)?;
    all_texts(alloc, values, why)
}
