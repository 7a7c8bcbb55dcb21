//! `<`, `<=`, `>` and `>=` (Starlark, "Comparisons").

ghost use Rattle.std.specs.Prelude.{◌≡◌, option_copied};
ghost use Rattle.bq_value.specs.Looked.{max_levels};
ghost use Rattle.bq_value.specs.Equality.{equal_at};
ghost use Rattle.bq_value.specs.Order.{ordered_at, lists_ordered, contents_ordered, less_of, bool_ordered, int_ordered, string_ordered, tuple_ordered, cell_ordered};

use crate::equality::values_equal;
use crate::store::Store;
use crate::{Body, Content, MAX_LEVELS, Node, Value};
use bq_base::{Bytes, EvalFault};
use std::cmp::Ordering;

/// Compares two values within `steps`. Returns their order and the steps that are left; `a <= b` is an order other than
/// `Greater`.
pub fn order(store: &Store, steps: u64, a: &Value, b: &Value) -> Result<(Ordering, u64), EvalFault>
    ensures { result ≡ ordered_at max_levels store.now steps a.now b.now }
{
    values_ordered(store, MAX_LEVELS, steps, a, b)
}

/// Returns whether `a < b`, and how many of the steps are left.
pub fn less(store: &Store, steps: u64, a: &Value, b: &Value) -> Result<(bool, u64), EvalFault>
    ensures { result ≡ less_of (ordered_at max_levels store.now steps a.now b.now) }
{
    match order(store, steps, a, b) {
        Ok((ordering, left)) => Ok((ordering.is_lt(), left)),
        Err(e) => Err(e),
    }
}

/// Compares two values, of which `levels` levels may be looked at.
#[cycle(order)]
#[tactic(auto, using(bq_value_datum::specs::Datum::list_of_data_of))]
fn values_ordered(
    store: &Store,
    levels: u32,
    steps: u64,
    a: &Value,
    b: &Value,
) -> Result<(Ordering, u64), EvalFault>
    ensures { result ≡ ordered_at levels store.now steps a.now b.now }
{
    if steps == 0 {
        return Err(EvalFault::StepLimit);
    }
    let steps = steps - 1;
    if levels == 0 {
        return Err(EvalFault::TooDeep);
    }
    let below = levels - 1;
    match &a.node {
        Node::Bool(x) => bools(steps, *x, b),
        Node::Int(x) => ints(steps, *x, b),
        Node::Text(x) => strings(steps, x, b),
        Node::Tuple(xs) => tuples(store, below, steps, xs, b),
        Node::Cell(x) => cells(store, below, steps, store.content(*x), b),
        Node::NoneValue => Err(EvalFault::WrongType),
        Node::Range(_) | Node::Function(_) | Node::BuiltIn(_) => Err(EvalFault::WrongType),
        Node::SchemaRule(_, _) => Err(EvalFault::WrongType),
        Node::Rule | Node::Attr(_) | Node::Attribute(_) => Err(EvalFault::WrongType),
    }
}

#[tactic(auto, unfolding(crate::specs::Order::bool_ordered))]
fn bools(steps: u64, a: bool, b: &Value) -> Result<(Ordering, u64), EvalFault>
    ensures { result ≡ bool_ordered steps a b.now }
{
    match &b.node {
        Node::Bool(y) => Ok((a.cmp(y), steps)),
        _ => Err(EvalFault::WrongType),
    }
}

#[tactic(auto, unfolding(crate::specs::Order::int_ordered))]
fn ints(steps: u64, a: i64, b: &Value) -> Result<(Ordering, u64), EvalFault>
    ensures { result ≡ int_ordered steps a b.now }
{
    match &b.node {
        Node::Int(y) => Ok((a.cmp(y), steps)),
        _ => Err(EvalFault::WrongType),
    }
}

#[tactic(auto, unfolding(crate::specs::Order::string_ordered))]
fn strings(steps: u64, a: &Bytes, b: &Value) -> Result<(Ordering, u64), EvalFault>
    ensures { result ≡ string_ordered steps a.now b.now }
{
    match &b.node {
        Node::Text(y) => Ok((a.cmp(y), steps)),
        _ => Err(EvalFault::WrongType),
    }
}

#[cycle(order)]
#[tactic(auto, using(bq_value_datum::specs::Datum::list_of_data_of), unfolding(crate::specs::Order::tuple_ordered))]
fn tuples(
    store: &Store,
    levels: u32,
    steps: u64,
    xs: &[Value],
    b: &Value,
) -> Result<(Ordering, u64), EvalFault>
    ensures { result ≡ tuple_ordered (equal_at levels store.now) (ordered_at levels store.now) steps xs.now b.now }
{
    match &b.node {
        Node::Tuple(ys) => slices_ordered(store, levels, steps, xs, ys),
        _ => Err(EvalFault::WrongType),
    }
}

#[cycle(order)]
#[tactic(auto, unfolding(crate::specs::Order::cell_ordered))]
fn cells(
    store: &Store,
    levels: u32,
    steps: u64,
    a: Option<&Content>,
    b: &Value,
) -> Result<(Ordering, u64), EvalFault>
    ensures { result ≡ cell_ordered (equal_at levels store.now) (ordered_at levels store.now) store.now steps (option_copied a.entry) b.now }
{
    match &b.node {
        Node::Cell(y) => match (a, store.content(*y)) {
            (Some(c), Some(d)) => cells_ordered(store, levels, steps, c, d),
            _ => Err(EvalFault::WrongType),
        },
        _ => Err(EvalFault::WrongType),
    }
}

#[cycle(order)]
fn cells_ordered(
    store: &Store,
    levels: u32,
    steps: u64,
    a: &Content,
    b: &Content,
) -> Result<(Ordering, u64), EvalFault>
    ensures { result ≡ contents_ordered (equal_at levels store.now) (ordered_at levels store.now) steps a.now b.now }
{
    match (a.body(), b.body()) {
        (Body::List(xs), Body::List(ys)) => slices_ordered(store, levels, steps, xs, ys),
        _ => Err(EvalFault::WrongType),
    }
}

#[cycle(order)]
fn slices_ordered(
    store: &Store,
    levels: u32,
    steps: u64,
    xs: &[Value],
    ys: &[Value],
) -> Result<(Ordering, u64), EvalFault>
    ensures { result ≡ lists_ordered (equal_at levels store.now) (ordered_at levels store.now) steps xs.now ys.now }
{
    let mut left = steps;
    for (i, x) in xs.iter().enumerate() {
        if i >= ys.len() {
            return Ok((Ordering::Greater, left));
        }
        let y = &ys[i];
        let (same, now) = values_equal(store, levels, left, x, y)?;
        left = now;
        if !same {
            return values_ordered(store, levels, left, x, y);
        }
    }
    if xs.len() < ys.len() {
        return Ok((Ordering::Less, left));
    }
    Ok((Ordering::Equal, left))
}
