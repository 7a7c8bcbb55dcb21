//! `==` (Starlark, "Comparisons").

ghost use Rattle.std.specs.Prelude.{◌≡◌, ◌==◌, ◌&&◌};
ghost use Rattle.bq_value.specs.Looked.{max_levels};
ghost use Rattle.bq_value.specs.Equality.{equal_at, range_equal, function_equal, tuple_equal, cell_equal, lists_equal, dicts_equal, contents_equal};

use crate::store::Store;
use crate::{Body, Cell, Content, Dict, FunctionValue, MAX_LEVELS, Node, Range, Value};
use bq_base::EvalFault;
use bq_predeclared::RuleFunction;

/// Returns whether two values are equal, and how many of the steps are left.
pub fn equal(store: &Store, steps: u64, a: &Value, b: &Value) -> Result<(bool, u64), EvalFault>
    ensures { result ≡ equal_at max_levels store.now steps a.now b.now }
{
    values_equal(store, MAX_LEVELS, steps, a, b)
}

/// Returns whether two values are equal, where `levels` levels of them may be looked at.
#[cycle(equal)]
#[tactic(auto, using(bq_value_datum::specs::Datum::list_of_data_of))]
pub(crate) fn values_equal(
    store: &Store,
    levels: u32,
    steps: u64,
    a: &Value,
    b: &Value,
) -> Result<(bool, u64), EvalFault>
    ensures { result ≡ equal_at levels store.now steps a.now b.now }
{
    if steps == 0 {
        return Err(EvalFault::StepLimit);
    }
    let steps = steps - 1;
    if levels == 0 {
        return Err(EvalFault::TooDeep);
    }
    let below = levels - 1;
    match &a.node {
        Node::NoneValue => Ok((b.is_none(), steps)),
        Node::Bool(x) => Ok((b.is_bool(*x), steps)),
        Node::Int(x) => Ok((b.is_int(*x), steps)),
        Node::Text(x) => Ok((b.is_string(x.as_slice()), steps)),
        Node::Tuple(xs) => tuple_equal(store, below, steps, xs, b),
        Node::Range(x) => Ok((range_equal(*x, b), steps)),
        Node::Cell(x) => cell_equal(store, below, steps, *x, b),
        Node::Function(f) => Ok((function_equal(f, b), steps)),
        Node::BuiltIn(x) => Ok((b.is_built_in(*x), steps)),
        Node::SchemaRule(place, name) => Ok((b.is_schema_rule(*place, name.as_slice()), steps)),
        Node::Rule => Ok((b.is_rule_function(RuleFunction::Rule), steps)),
        Node::Attr(kind) => Ok((b.is_rule_function(RuleFunction::Attr(*kind)), steps)),
        Node::Attribute(x) => Ok((b.is_attribute(x), steps)),
    }
}

fn range_equal(x: Range, b: &Value) -> bool
    ensures { result ≡ range_equal x.start x.stop x.step b.now }
{
    match &b.node {
        Node::Range(y) => x.equals(*y),
        _ => false,
    }
}

fn function_equal(f: &FunctionValue, b: &Value) -> bool
    ensures { result ≡ function_equal f.now.module f.now.place b.now }
{
    match &b.node {
        Node::Function(g) => f.module == g.module && f.place == g.place,
        _ => false,
    }
}

#[cycle(equal)]
#[tactic(auto, using(bq_value_datum::specs::Datum::list_of_data_of))]
fn tuple_equal(
    store: &Store,
    levels: u32,
    steps: u64,
    xs: &[Value],
    b: &Value,
) -> Result<(bool, u64), EvalFault>
    ensures { result ≡ tuple_equal (equal_at levels store.now) steps xs.now b.now }
{
    match &b.node {
        Node::Tuple(ys) => slices_equal(store, levels, steps, xs, ys),
        _ => Ok((false, steps)),
    }
}

/// Returns whether two cells are one.
fn is_one(x: Cell, y: Cell) -> bool
    ensures { result ≡ ((x.module == y.module) && (x.number == y.number)) }
{
    x.module == y.module && x.number == y.number
}

#[cycle(equal)]
fn cell_equal(
    store: &Store,
    levels: u32,
    steps: u64,
    x: Cell,
    b: &Value,
) -> Result<(bool, u64), EvalFault>
    ensures { result ≡ cell_equal (equal_at levels store.now) store.now steps x.module x.number b.now }
{
    match &b.node {
        Node::Cell(y) => {
            let one = is_one(x, *y);
            match (store.content(x), store.content(*y)) {
                (Some(c), Some(d)) => contents_equal(store, levels, steps, one, c, d),
                (None, None) => Ok((true, steps)),
                _ => Ok((false, steps)),
            }
        }
        _ => Ok((false, steps)),
    }
}

/// Compares what two cells hold; `one` says whether they are one cell.
#[cycle(equal)]
fn contents_equal(
    store: &Store,
    levels: u32,
    steps: u64,
    one: bool,
    a: &Content,
    b: &Content,
) -> Result<(bool, u64), EvalFault>
    ensures { result ≡ contents_equal (equal_at levels store.now) steps one a.now b.now }
{
    match (a.body(), b.body()) {
        (Body::List(xs), Body::List(ys)) => slices_equal(store, levels, steps, xs, ys),
        (Body::Dict(ps), Body::Dict(qs)) => entries_equal(store, levels, steps, ps, qs),
        (Body::Rule(_), Body::Rule(_)) => Ok((one, steps)),
        _ => Ok((false, steps)),
    }
}

#[cycle(equal)]
fn slices_equal(
    store: &Store,
    levels: u32,
    steps: u64,
    xs: &[Value],
    ys: &[Value],
) -> Result<(bool, u64), EvalFault>
    ensures { result ≡ lists_equal (equal_at levels store.now) steps xs.now ys.now }
{
    if xs.len() != ys.len() {
        return Ok((false, steps));
    }
    let mut left = steps;
    for (i, x) in xs.iter().enumerate() {
        let (same, now) = values_equal(store, levels, left, x, &ys[i])?;
        left = now;
        if !same {
            return Ok((false, left));
        }
    }
    Ok((true, left))
}

#[cycle(equal)]
fn entries_equal(
    store: &Store,
    levels: u32,
    steps: u64,
    ps: &Dict,
    qs: &Dict,
) -> Result<(bool, u64), EvalFault>
    ensures { result ≡ dicts_equal (equal_at levels store.now) steps ps.now qs.now }
{
    if ps.len() != qs.len() {
        return Ok((false, steps));
    }
    let mut left = steps;
    for i in 0..ps.len() {
        let (key, value) = ps.pair(i);
        match qs.get(key) {
            None => return Ok((false, left)),
            Some(other) => {
                let (same, now) = values_equal(store, levels, left, value, other)?;
                left = now;
                if !same {
                    return Ok((false, left));
                }
            }
        }
    }
    Ok((true, left))
}
