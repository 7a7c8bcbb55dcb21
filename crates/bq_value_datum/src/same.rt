//! When two values are the same in each part, and what a value feeds to a hasher. Dicts find their keys by these.

ghost use Rattle.std.specs.Prelude.{◌≡◌, fold, option_copied};
ghost use Rattle.bq_value_datum.specs.Datum.{none, boolean, int, string, tuple, range, cell, function, predeclared, schema_rule, built_in, rule_function, attribute, data_of};
ghost use Rattle.bq_value_datum.specs.Same.{same_name, rule_place, same_host, same_rule_function, same_predeclared, same, same_all, feed, feed_all};

use crate::attribute::Attribute;
use crate::range::Range;
use crate::value::{Cell, FunctionValue, Node, Value};
use bq_predeclared::{HostFunction, Predeclared, RuleFunction};
use std::hash::{Hash, Hasher};

impl Value {
    /// Returns whether this is `None`.
    pub fn is_none(&self) -> bool
        ensures { result ≡ same none self.now }
    {
        match &self.node {
            Node::NoneValue => true,
            _ => false,
        }
    }

    /// Returns whether this is the truth value `b`.
    pub fn is_bool(&self, b: bool) -> bool
        ensures { result ≡ same (boolean b) self.now }
    {
        match &self.node {
            Node::Bool(c) => b == *c,
            _ => false,
        }
    }

    /// Returns whether this is the integer `n`.
    pub fn is_int(&self, n: i64) -> bool
        ensures { result ≡ same (int n) self.now }
    {
        match &self.node {
            Node::Int(m) => n == *m,
            _ => false,
        }
    }

    /// Returns whether this is the string of these bytes.
    pub fn is_string(&self, bytes: &[u8]) -> bool
        ensures { result ≡ same (string bytes.now) self.now }
    {
        match &self.node {
            Node::Text(others) => bytes == others.as_slice(),
            _ => false,
        }
    }

    /// Returns whether this is the built-in function `function`.
    pub fn is_built_in(&self, function: Predeclared) -> bool
        ensures { result ≡ same (built_in (predeclared function)) self.now }
    {
        match &self.node {
            Node::BuiltIn(other) => is_same_predeclared(function, *other),
            _ => false,
        }
    }

    /// Returns whether this is the rule of that name at that place of the schema.
    pub fn is_schema_rule(&self, place: u32, name: &[u8]) -> bool
        ensures { result ≡ same (built_in (schema_rule place name.now)) self.now }
    {
        match &self.node {
            Node::SchemaRule(other, others) => place == *other && name == others.as_slice(),
            _ => false,
        }
    }

    /// Returns whether this is `function`.
    pub fn is_rule_function(&self, function: RuleFunction) -> bool
        ensures { result ≡ same (rule_function function) self.now }
    {
        match &self.node {
            Node::Rule => is_same_rule_function(function, RuleFunction::Rule),
            Node::Attr(kind) => is_same_rule_function(function, RuleFunction::Attr(*kind)),
            _ => false,
        }
    }

    /// Returns whether this is an attribute of the same type, with the same default, that is mandatory if `parts` is.
    pub fn is_attribute(&self, parts: &Attribute) -> bool
        ensures { result ≡ same (attribute parts.now) self.now }
    {
        match &self.node {
            Node::Attribute(other) => parts.is_same(other),
            _ => false,
        }
    }
}

/// Returns whether two names, or none, are the same.
fn is_same_name(a: Option<&[u8]>, b: Option<&[u8]>) -> bool
    ensures { result ≡ same_name (option_copied a.entry) (option_copied b.entry) }
{
    match a {
        None => match b {
            None => true,
            Some(_) => false,
        },
        Some(name) => match b {
            None => false,
            Some(other) => name == other,
        },
    }
}

/// Returns the place of a rule in the schema, and 0 of a build function.
fn rule_place(function: HostFunction) -> u32
    ensures { result ≡ rule_place function }
{
    match function {
        HostFunction::Rule(place) => place,
        _ => 0,
    }
}

/// Returns whether two functions of a host are the same.
fn is_same_host(a: HostFunction, b: HostFunction) -> bool
    ensures { result ≡ same_host a b }
{
    is_same_name(a.name(), b.name()) && rule_place(a) == rule_place(b)
}

/// Returns whether two functions that declare rules are the same.
fn is_same_rule_function(a: RuleFunction, b: RuleFunction) -> bool
    ensures { result ≡ same_rule_function a b }
{
    match a {
        RuleFunction::Rule => matches!(b, RuleFunction::Rule),
        RuleFunction::Attr(kind) => match b {
            RuleFunction::Attr(other) => kind == other,
            _ => false,
        },
    }
}

/// Returns whether two predeclared values are the same.
fn is_same_predeclared(a: Predeclared, b: Predeclared) -> bool
    ensures { result ≡ same_predeclared a b }
{
    match a {
        Predeclared::None => matches!(b, Predeclared::None),
        Predeclared::True => matches!(b, Predeclared::True),
        Predeclared::False => matches!(b, Predeclared::False),
        Predeclared::BuiltIn(place) => match b {
            Predeclared::BuiltIn(other) => place == other,
            _ => false,
        },
        Predeclared::Host(function) => match b {
            Predeclared::Host(other) => is_same_host(function, other),
            _ => false,
        },
        Predeclared::RuleFunction(function) => match b {
            Predeclared::RuleFunction(other) => is_same_rule_function(function, other),
            _ => false,
        },
    }
}

fn is_same_range(x: Range, b: &Value) -> bool
    ensures { result ≡ same (range x.start x.stop x.step) b.now }
{
    match &b.node {
        Node::Range(y) => x.start == y.start && x.stop == y.stop && x.step == y.step,
        _ => false,
    }
}

fn is_same_cell(x: Cell, b: &Value) -> bool
    ensures { result ≡ same (cell x.module x.number) b.now }
{
    match &b.node {
        Node::Cell(y) => x.module == y.module && x.number == y.number,
        _ => false,
    }
}

#[cycle(same)]
pub(crate) fn is_same(a: &Value, b: &Value) -> bool
    ensures { result ≡ same a.now b.now }
{
    match &a.node {
        Node::NoneValue => b.is_none(),
        Node::Bool(x) => b.is_bool(*x),
        Node::Int(x) => b.is_int(*x),
        Node::Text(x) => b.is_string(x.as_slice()),
        Node::Tuple(xs) => is_same_tuple(xs, b),
        Node::Range(x) => is_same_range(*x, b),
        Node::Cell(x) => is_same_cell(*x, b),
        Node::Function(f) => is_same_function(f, b),
        Node::BuiltIn(x) => b.is_built_in(*x),
        Node::SchemaRule(place, name) => b.is_schema_rule(*place, name.as_slice()),
        Node::Rule => b.is_rule_function(RuleFunction::Rule),
        Node::Attr(kind) => b.is_rule_function(RuleFunction::Attr(*kind)),
        Node::Attribute(x) => b.is_attribute(x),
    }
}

#[cycle(same)]
fn is_same_tuple(xs: &[Value], b: &Value) -> bool
    ensures { result ≡ same (tuple (data_of xs.now)) b.now }
{
    match &b.node {
        Node::Tuple(ys) => are_same(xs, ys),
        _ => false,
    }
}

#[cycle(same)]
fn is_same_function(f: &FunctionValue, b: &Value) -> bool
    ensures { result ≡ same (function f.now.module f.now.place f.now.name (data_of f.now.defaults.items)) b.now }
{
    match &b.node {
        Node::Function(g) => {
            f.module == g.module
                && f.place == g.place
                && f.name.as_slice() == g.name.as_slice()
                && are_same(&f.defaults, &g.defaults)
        }
        _ => false,
    }
}

#[cycle(same)]
fn are_same(xs: &[Value], ys: &[Value]) -> bool
    ensures { result ≡ same_all (data_of xs.now) (data_of ys.now) }
{
    if xs.len() != ys.len() {
        return false;
    }
    for (i, x) in xs.iter().enumerate() {
        if !is_same(x, &ys[i]) {
            return false;
        }
    }
    true
}

#[cycle(feed)]
pub(crate) fn feed_value<H: Hasher>(value: &Value, state: &mut H)
    ensures { state.new ≡ fold H.write state.old (feed value.now) }
{
    match &value.node {
        Node::NoneValue => state.write_u8(0),
        Node::Bool(b) => b.hash(state),
        Node::Int(n) => state.write_i64(*n),
        Node::Text(bytes) => state.write(bytes.as_slice()),
        Node::Tuple(items) => {
            state.write_u8(2);
            feed_values(items, state);
        }
        _ => state.write_u8(3),
    }
}

#[cycle(feed)]
fn feed_values<H: Hasher>(values: &[Value], state: &mut H)
    ensures { state.new ≡ fold H.write state.old (feed_all (data_of values.now)) }
{
    for value in values {
        feed_value(value, state);
    }
}
