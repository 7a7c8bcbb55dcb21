//! `all`, `any` and `bool` (Starlark, "all", "any", "bool").

ghost use Rattle.std.specs.Prelude.{◌≡◌, Ok, option_copied, map};
ghost use Rattle.bq_base.specs.Gives.{Gives};
ghost use Rattle.bq_value.specs.declared.error.EvalErr.TheVariants.{Bad};
ghost use Rattle.bq_value.specs.Cells.{StoreView};
ghost use Rattle.bq_value.specs.Datum.{int};
ghost use Rattle.bq_value.specs.Pairs.{keys};
ghost use Rattle.bq_builtin_machine.specs.Iteration.{range_integers, content_elements, elements_in};
ghost use Rattle.bq_builtin_machine.specs.Answer.{and_then};
ghost use Rattle.bq_builtin.specs.Truths.{all_true, any_true, counts, one_counts, all, any, bool, truth_if_any};

use crate::arguments::{only_argument, only_argument_if_any};
use bq_base::EvalFault;
use bq_builtin_machine::{Args, Machine};
use bq_builtin_strings::range_has;
use bq_value::{Body, Content, Dict, EvalErr, Node, Range, Store, Value, truth};

/// Returns `all(x)`: whether each element counts as true.
#[tactic(auto, unfolding(crate::specs::Truths::all))]
pub(crate) fn all(machine: &Machine, args: &Args) -> Result<Value, EvalErr>
    ensures { Gives (λ v. v) Bad result (all machine.now.store args.now) }
{
    Ok(Value::bool(all_in(machine.store(), only_argument(args)?)?))
}

/// Returns `any(x)`: whether some element counts as true.
#[tactic(auto, unfolding(crate::specs::Truths::any))]
pub(crate) fn any(machine: &Machine, args: &Args) -> Result<Value, EvalErr>
    ensures { Gives (λ v. v) Bad result (any machine.now.store args.now) }
{
    Ok(Value::bool(any_in(machine.store(), only_argument(args)?)?))
}

/// Returns whether each element of an iterable counts as true (F40). The elements are looked at where they are.
#[tactic(auto, unfolding(crate::specs::Truths::all_true), using(bq_value_datum::specs::Datum::list_of_data_of, crate::proofs::Counts::all_by_one))]
fn all_in(store: &Store, value: &Value) -> Result<bool, EvalErr>
    ensures { Gives (λ b. b) Bad result (and_then (elements_in store.now value.now) (λ xs. Ok (all_true store.now xs))) }
{
    match &value.node {
        Node::Tuple(items) => Ok(!one_counts(store, false, items)),
        Node::Range(range) => Ok(all_in_range(*range)),
        Node::Cell(cell) => Ok(!one_counts_in(store, false, store.content(*cell))?),
        _ => Err(EvalErr::Bad(EvalFault::WrongType)),
    }
}

/// Returns whether some element of an iterable counts as true (F40).
#[tactic(auto, unfolding(crate::specs::Truths::any_true), using(bq_value_datum::specs::Datum::list_of_data_of, crate::proofs::Counts::any_by_one))]
fn any_in(store: &Store, value: &Value) -> Result<bool, EvalErr>
    ensures { Gives (λ b. b) Bad result (and_then (elements_in store.now value.now) (λ xs. Ok (any_true store.now xs))) }
{
    match &value.node {
        Node::Tuple(items) => Ok(one_counts(store, true, items)),
        Node::Range(range) => Ok(any_in_range(*range)),
        Node::Cell(cell) => one_counts_in(store, true, store.content(*cell)),
        _ => Err(EvalErr::Bad(EvalFault::WrongType)),
    }
}

/// Returns whether one of the elements of what a cell holds counts as `wanted` (F40).
fn one_counts_in(store: &Store, wanted: bool, content: Option<&Content>) -> Result<bool, EvalErr>
    ensures { Gives (λ b. b) Bad result (and_then (content_elements (option_copied content.entry)) (λ xs. Ok (one_counts store.now wanted xs))) }
{
    match content {
        None => Err(EvalErr::Bad(EvalFault::WrongType)),
        Some(content) => match content.body() {
            Body::List(values) => Ok(one_counts(store, wanted, values)),
            Body::Dict(dict) => Ok(one_key_counts(store, wanted, dict)),
            Body::Rule(_) => Err(EvalErr::Bad(EvalFault::WrongType)),
        },
    }
}

/// Returns whether a value counts as `wanted`.
fn counts(store: &Store, wanted: bool, value: &Value) -> bool
    ensures { result ≡ counts store.now wanted value.now }
{
    if wanted {
        return truth(store, value);
    }
    !truth(store, value)
}

/// Returns whether one of these counts as `wanted`.
fn one_counts(store: &Store, wanted: bool, values: &[Value]) -> bool
    ensures { result ≡ one_counts store.now wanted values.now }
{
    for value in values {
        if counts(store, wanted, value) {
            return true;
        }
    }
    false
}

/// Returns whether one of the keys of a dict counts as `wanted`.
fn one_key_counts(store: &Store, wanted: bool, dict: &Dict) -> bool
    ensures { result ≡ one_counts store.now wanted (keys dict.now) }
{
    for i in 0..dict.len() {
        let (key, _) = dict.pair(i);
        if counts(store, wanted, key.value()) {
            return true;
        }
    }
    false
}

/// Returns whether 0 isn't among the integers of a range.
#[tactic(auto, unfolding(crate::specs::Truths::all_true))]
fn all_in_range(range: Range) -> bool
    ensures { (s : StoreView) → result ≡ all_true s (map int (range_integers range.start range.stop range.step)) }
{
    !range_has(range, 0)
}

/// Returns whether a range has an integer other than 0: if it has two, one of them is.
#[tactic(auto, unfolding(crate::specs::Truths::any_true))]
fn any_in_range(range: Range) -> bool
    ensures { (s : StoreView) → result ≡ any_true s (map int (range_integers range.start range.stop range.step)) }
{
    match range.count() {
        0 => false,
        1 => range.start != 0,
        _ => true,
    }
}

fn truth_if_any(store: &Store, value: Option<&Value>) -> bool
    ensures { result ≡ truth_if_any store.now (option_copied value.entry) }
{
    match value {
        None => false,
        Some(value) => truth(store, value),
    }
}

/// Returns `bool(x)`: whether x counts as true.
#[tactic(auto, unfolding(crate::specs::Truths::bool))]
pub(crate) fn bool(machine: &Machine, args: &Args) -> Result<Value, EvalErr>
    ensures { Gives (λ v. v) Bad result (bool machine.now.store args.now) }
{
    let value = only_argument_if_any(args)?;
    Ok(Value::bool(truth_if_any(machine.store(), value)))
}
