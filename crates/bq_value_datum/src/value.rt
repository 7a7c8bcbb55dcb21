//! Values (Starlark, "Data types").

ghost use Rattle.std.specs.Prelude.{◌≡◌, ◌+◌, ◌<◌, ◌≤◌, IfOk, IfSome};
ghost use Rattle.bq_value_datum.specs.Datum.{Datum, none, boolean, int, string, tuple, range, cell, function, predeclared, schema_rule, built_in, rule_function, attribute, data_of, weight, weights};

use crate::attribute::Attribute;
use crate::range::Range;
use bq_base::Bytes;
use bq_predeclared::{AttributeType, Predeclared, RuleFunction};
use std::alloc::{AllocError, Global};
use std::marker::Model;
use std::mem;
use std::sync::Arc;

/// A value of the language. Contracts see the `Datum` that it stands for.
///
/// A share copies no long string, and no list, dict or tuple.
#[cycle(value)]
pub struct Value {
    pub node: Node,
}

/// The kinds of values. A list, a dict or a rule that a .bzl file declares is a cell of a store.
#[cycle(value)]
pub enum Node {
    NoneValue,
    Bool(bool),
    Int(i64),
    Text(Bytes),
    Tuple(Arc<Vec<Value>>),
    Range(Range),
    Cell(Cell),
    Function(Arc<FunctionValue>),
    /// A built-in function that has a name of its own: one of the language, or a build function.
    BuiltIn(Predeclared),
    /// A rule of the schema: its place there, and its name.
    SchemaRule(u32, Bytes),
    /// The function `rule`.
    Rule,
    /// The function `attr.NAME` of this type. (It and `rule` are two kinds, since one that holds a `RuleFunction` has two bytes, and
    /// each move of a value copies both.)
    Attr(AttributeType),
    /// What such a function says of an attribute.
    Attribute(Arc<Attribute>),
}

/// The place of a list, a dict or a rule: the module that made it, and the number there in order of creation.
#[derive(Clone, Copy)]
pub struct Cell {
    pub module: u32,
    pub number: usize,
}

/// A function: its module, the place of its `def` there, its name, and the values of its defaults in order.
#[cycle(value)]
#[derive(Drop)]
pub struct FunctionValue {
    pub module: u32,
    pub place: u32,
    pub name: Bytes,
    pub defaults: Vec<Value>,
}

impl Model for Value {
    ghost use Rattle.bq_value_datum.specs.Datum.{Datum, weight};
    ghost use Rattle.bq_value_datum.specs.Codes.{coded_datum};

    ghost Value = { Datum };

    ghost coded = { coded_datum };

    ghost use Rattle.bq_value_datum.specs.View.{datum_of};

    ghost view = { λ v. datum_of v.node };

    ghost size = { weight };

    ghost use Rattle.std.proofs.Common.{arith};
    ghost use Rattle.bq_value_datum.specs.Deep.{deep_le-weight};

    ghost size_decreases = { λ a h. Prim.omega (arith, deep_le-weight a.node) };
}

/// Tuples and defaults may be nested without limit. So what is within is dropped by a loop over a list of what is left,
/// and not by calls within calls.
impl Drop for Value {
    #[cycle(give_up)]
    #[inline(always)]
    fn drop(self) {
        let Value { node } = self;
        match node {
            Node::NoneValue
            | Node::Bool(_)
            | Node::Int(_)
            | Node::Range(_)
            | Node::Cell(_)
            | Node::BuiltIn(_)
            | Node::Rule
            | Node::Attr(_) => {}
            Node::Text(text) => drop_text(text),
            Node::SchemaRule(_, name) => drop_text(name),
            Node::Attribute(attribute) => drop_attribute(attribute),
            Node::Tuple(items) => drop_tuple(items),
            Node::Function(function) => drop_function(function),
        }
    }
}

// The drop of a value is inlined, so all that it does is to test the kind. A kind that owns memory has a function of its own, which is
// not inlined: if it were, each drop of an integer would reserve the stack that the other kinds need.

#[inline(never)]
fn drop_text(_text: Bytes) {}

#[inline(never)]
fn drop_attribute(_attribute: Arc<Attribute>) {}

#[cycle(give_up)]
#[inline(never)]
fn drop_tuple(items: Arc<Vec<Value>>) {
    if let Some(items) = Arc::into_inner(items) {
        give_up(items);
    }
}

#[cycle(give_up)]
#[inline(never)]
fn drop_function(function: Arc<FunctionValue>) {
    if let Some(function) = Arc::into_inner(function) {
        let FunctionValue { defaults, .. } = function;
        give_up(defaults);
    }
}

/// Drops these values, and what they alone own.
#[cycle(give_up)]
#[tactic(auto, using(crate::proofs::Weights::pushed))]
fn give_up(mut left: Vec<Value>) {
    while let Some(value) = left.pop() {
        if let Some(items) = value.into_own_items() {
            // The longer list goes on, so that a wide tuple needs no memory of its own.
            if left.len() < items.len() {
                let few = mem::replace(&mut left, items);
                move_all(&mut left, few);
            } else {
                move_all(&mut left, items);
            }
        }
    }
    left.destroy_empty();
}

/// Moves the items to the list. If memory is refused, an item is leaked.
#[cycle(give_up)]
#[tactic(auto, using(crate::proofs::Weights::pushed))]
fn move_all(left: &mut Vec<Value>, mut items: Vec<Value>)
    ensures { weights (data_of left.new.items) + 1 ≤ weights (data_of left.old.items) + weights (data_of items.items) }
{
    while let Some(item) = items.pop() {
        match left.push(item) {
            Ok(()) => {}
            Err(refused) => {
                mem::forget(refused);
            }
        }
    }
    items.destroy_empty();
}

impl Value {
    /// Returns the items of a tuple, or the defaults of a function, if nothing else owns them.
    fn into_own_items(self) -> Option<Vec<Value>>
        ensures { IfSome result (λ items. weights (data_of items.items) < weight self) }
    {
        let Value { node } = self;
        match node {
            Node::NoneValue
            | Node::Bool(_)
            | Node::Int(_)
            | Node::Range(_)
            | Node::Cell(_)
            | Node::Text(_)
            | Node::BuiltIn(_)
            | Node::SchemaRule(_, _)
            | Node::Rule
            | Node::Attr(_)
            | Node::Attribute(_) => None,
            Node::Tuple(shared) => Arc::into_inner(shared),
            Node::Function(shared) => match Arc::into_inner(shared) {
                None => None,
                Some(function) => {
                    let FunctionValue { defaults, .. } = function;
                    Some(defaults)
                }
            },
        }
    }

    /// Makes `None`.
    pub fn none() -> Value
        ensures { result ≡ none }
    {
        Value {
            node: Node::NoneValue,
        }
    }

    /// Makes `True` or `False`.
    pub fn bool(b: bool) -> Value
        ensures { result ≡ boolean b }
    {
        Value {
            node: Node::Bool(b),
        }
    }

    pub fn int(n: i64) -> Value
        ensures { result ≡ int n }
    {
        Value { node: Node::Int(n) }
    }

    pub fn string(bytes: Bytes) -> Value
        ensures { result ≡ string bytes }
    {
        Value {
            node: Node::Text(bytes),
        }
    }

    pub fn tuple(alloc: Global, items: Vec<Value>) -> Result<Value, AllocError>
        ensures { IfOk result (λ v. v ≡ tuple (data_of items.items)) }
    {
        Ok(Value {
            node: Node::Tuple(Arc::new(alloc, items)?),
        })
    }

    pub fn range(bounds: Range) -> Value
        ensures { result ≡ range bounds.start bounds.stop bounds.step }
    {
        Value {
            node: Node::Range(bounds),
        }
    }

    /// Makes the value of the list, dict or rule in this cell.
    pub fn cell(place: Cell) -> Value
        ensures { result ≡ cell place.module place.number }
    {
        Value {
            node: Node::Cell(place),
        }
    }

    /// Makes the value of a function of the language, or of a build function.
    pub fn built_in(function: Predeclared) -> Value
        ensures { result ≡ built_in (predeclared function) }
    {
        Value {
            node: Node::BuiltIn(function),
        }
    }

    /// Makes the value of the rule at this place of the schema, which has this name.
    pub fn schema_rule(place: u32, name: Bytes) -> Value
        ensures { result ≡ built_in (schema_rule place name) }
    {
        Value {
            node: Node::SchemaRule(place, name),
        }
    }

    pub fn rule_function(function: RuleFunction) -> Value
        ensures { result ≡ rule_function function }
    {
        let node = match function {
            RuleFunction::Rule => Node::Rule,
            RuleFunction::Attr(kind) => Node::Attr(kind),
        };
        Value { node }
    }

    pub fn attribute(alloc: Global, parts: Attribute) -> Result<Value, AllocError>
        ensures { IfOk result (λ v. v ≡ attribute parts) }
    {
        Ok(Value {
            node: Node::Attribute(Arc::new(alloc, parts)?),
        })
    }

    pub fn function(alloc: Global, parts: FunctionValue) -> Result<Value, AllocError>
        ensures { IfOk result (λ v. v ≡ function parts.module parts.place parts.name (data_of parts.defaults.items)) }
    {
        Ok(Value {
            node: Node::Function(Arc::new(alloc, parts)?),
        })
    }

    /// Returns another owner of the value. Fails where 2^63 owners are alive.
    #[inline(always)]
    pub fn share(&self) -> Result<Value, AllocError>
        ensures { IfOk result (λ v. v ≡ self.now) }
    {
        let node = match &self.node {
            Node::NoneValue => Node::NoneValue,
            Node::Bool(b) => Node::Bool(*b),
            Node::Int(n) => Node::Int(*n),
            Node::Range(range) => Node::Range(*range),
            Node::Cell(cell) => Node::Cell(*cell),
            Node::BuiltIn(function) => Node::BuiltIn(*function),
            Node::Rule => Node::Rule,
            Node::Attr(kind) => Node::Attr(*kind),
            Node::Text(text) => return share_text(text),
            Node::Tuple(items) => return share_tuple(items),
            Node::Function(function) => return share_function(function),
            Node::SchemaRule(place, name) => return share_rule(*place, name),
            Node::Attribute(attribute) => return share_attribute(attribute),
        };
        Ok(Value { node })
    }
}

// As with drops, each kind that owns memory is shared by a function of its own, which is not inlined.

#[inline(never)]
fn share_text(text: &Bytes) -> Result<Value, AllocError>
    ensures { IfOk result (λ v. v ≡ string text.now) }
{
    Ok(Value {
        node: Node::Text(text.share()?),
    })
}

#[inline(never)]
fn share_tuple(items: &Arc<Vec<Value>>) -> Result<Value, AllocError>
    ensures { IfOk result (λ v. v ≡ tuple (data_of items.now.value.items)) }
{
    Ok(Value {
        node: Node::Tuple(items.clone()?),
    })
}

#[inline(never)]
fn share_function(parts: &Arc<FunctionValue>) -> Result<Value, AllocError>
    ensures { IfOk result (λ v. v ≡ function parts.now.value.module parts.now.value.place parts.now.value.name (data_of parts.now.value.defaults.items)) }
{
    Ok(Value {
        node: Node::Function(parts.clone()?),
    })
}

#[inline(never)]
fn share_rule(place: u32, name: &Bytes) -> Result<Value, AllocError>
    ensures { IfOk result (λ v. v ≡ built_in (schema_rule place name.now)) }
{
    Ok(Value {
        node: Node::SchemaRule(place, name.share()?),
    })
}

#[inline(never)]
fn share_attribute(parts: &Arc<Attribute>) -> Result<Value, AllocError>
    ensures { IfOk result (λ v. v ≡ attribute parts.now.value) }
{
    Ok(Value {
        node: Node::Attribute(parts.clone()?),
    })
}
