//! `rule(..)` (Bazel, "rule").

ghost use Rattle.std.specs.Prelude.{◌≡◌, option_copied, Some};
ghost use Rattle.bq_base.specs.Gives.{Gives};
ghost use Rattle.bq_value.specs.declared.error.EvalErr.TheVariants.{Bad};
ghost use Rattle.bq_value.specs.Cells.{content_at};
ghost use Rattle.bq_value.specs.Pairs.{HasNoKeyTwice};
ghost use Rattle.bq_package_attributes.specs.Rule.{implemented, attribute_in, entry, entries, entries_in, attributes_in, may_be_named, are_named, class_of, class};

use crate::keywords::{bind_rule, documented};
use bq_base::{Bytes, EvalFault};
use bq_builtin_machine::Args;
use bq_package_values::{argument, text_in};
use bq_parse_grammar::is_identifier;
use bq_value::store_laws::dicts_of_stores_have_distinct_keys;
use bq_value::{Body, Cell, Dict, EvalErr, Node, Store, Value};
use bq_value_datum::{Attribute, Attributes, RuleClass, common_attribute};
use std::alloc::Global;

/// Fails with F40 if this isn't a function that a `def` made.
fn implemented(value: Option<&Value>) -> Result<(), EvalFault>
    ensures { result ≡ implemented (option_copied value.entry) }
{
    let Some(value) = value else {
        return Err(EvalFault::WrongType);
    };
    match &value.node {
        Node::Function(_) => Ok(()),
        _ => Err(EvalFault::WrongType),
    }
}

/// Returns an attribute, or F40.
fn attribute_in(value: &Value) -> Result<Attribute, EvalErr>
    ensures { Gives (λ x. x) Bad result (attribute_in value.now) }
{
    match &value.node {
        Node::Attribute(attribute) => Ok(attribute.share()?),
        _ => Err(EvalErr::Bad(EvalFault::WrongType)),
    }
}

/// Returns the name and the attribute of an entry of `attrs`, or F40.
fn entry(key: &Value, value: &Value) -> Result<(Bytes, Attribute), EvalErr>
    ensures { Gives (λ e. e) Bad result (entry (key.now, value.now)) }
{
    let name = text_in(key, EvalFault::WrongType)?;
    Ok((name, attribute_in(value)?))
}

/// Returns the attributes that a dict holds, in its order.
#[tactic(auto, unfolding(crate::specs::Rule::entries, bq_package_values::specs::Steps::in_turn))]
fn entries(alloc: Global, dict: &Dict) -> Result<RuleClass, EvalErr>
    requires { HasNoKeyTwice dict.now }
    ensures { Gives (λ c. c) Bad result (entries dict.now) }
{
    let mut attributes = Attributes::new(alloc);
    for i in 0..dict.len() {
        let (key, value) = dict.pair(i);
        let (name, attribute) = entry(key.value(), value)?;
        match attributes.with(alloc, name.as_slice(), attribute)? {
            Some(more) => attributes = more,
            // no key is twice
            None => return Err(EvalErr::Bad(EvalFault::BadValue)),
        }
    }
    Ok(RuleClass::of(alloc, attributes)?)
}

/// Returns the attributes that a cell holds, if it is a dict.
fn entries_in(alloc: Global, store: &Store, cell: Cell) -> Result<RuleClass, EvalErr>
    ensures { Gives (λ c. c) Bad result (entries_in (content_at store.now cell.module cell.number)) }
{
    dicts_of_stores_have_distinct_keys(store, cell); // PROOF: so each attribute has a name of its own
    let Some(content) = store.content(cell) else {
        return Err(EvalErr::Bad(EvalFault::WrongType));
    };
    match content.body() {
        Body::Dict(dict) => entries(alloc, dict),
        _ => Err(EvalErr::Bad(EvalFault::WrongType)),
    }
}

/// Returns the attributes of a rule.
fn attributes_in(alloc: Global, store: &Store, value: Option<&Value>) -> Result<RuleClass, EvalErr>
    ensures { Gives (λ c. c) Bad result (attributes_in store.now (option_copied value.entry)) }
{
    let Some(value) = value else {
        return Ok(RuleClass::empty(alloc)?);
    };
    match &value.node {
        Node::Cell(cell) => entries_in(alloc, store, *cell),
        _ => Err(EvalErr::Bad(EvalFault::WrongType)),
    }
}

/// Returns whether an attribute of a rule may have the name.
#[tactic(auto, unfolding(crate::specs::Rule::may_be_named))]
fn may_be_named(name: &[u8]) -> bool
    ensures { result ≡ may_be_named name.now }
{
    is_identifier(name) && common_attribute(name).is_none()
}

/// Returns whether all attributes may have their names.
#[tactic(auto, unfolding(crate::specs::Rule::are_named))]
fn are_named(class: &RuleClass) -> bool
    ensures { result ≡ are_named class.now }
{
    for place in 0..class.len() {
        let Some((name, _)) = class.entry(place) else {
            return true;
        };
        if !may_be_named(name.as_slice()) {
            return false;
        }
    }
    true
}

/// Returns the attributes of the rule that a call declares, from the arguments of its parameters.
#[tactic(auto, unfolding(crate::specs::Rule::class_of))]
fn class_of(
    alloc: Global,
    in_build: bool,
    store: &Store,
    values: &[Option<Value>],
) -> Result<RuleClass, EvalErr>
    ensures { Gives (λ c. c) Bad result (class_of in_build store.now values.now) }
{
    implemented(argument(values, 0))?;
    let class = attributes_in(alloc, store, argument(values, 1))?;
    documented(argument(values, 2))?;
    if in_build || !are_named(&class) {
        return Err(EvalErr::Bad(EvalFault::BadValue));
    }
    Ok(class)
}

/// Returns the attributes of the rule that a call declares.
#[tactic(auto, unfolding(crate::specs::Rule::class))]
pub(crate) fn class(
    alloc: Global,
    in_build: bool,
    store: &Store,
    args: Args,
) -> Result<RuleClass, EvalErr>
    ensures { Gives (λ c. c) Bad result (class in_build store.now args) }
{
    let bound = bind_rule(alloc, args)?;
    class_of(alloc, in_build, store, &bound.values)
}
