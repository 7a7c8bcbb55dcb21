//! The sets of queries. A chain of operators is a list, so the calls are no deeper than the parentheses, lets and functions of the text.

ghost use Rattle.std.specs.Prelude.{◌≡◌, ◌++◌, ◌∷◌, [], length, map};
ghost use Rattle.bq_query_function.specs.Calls as call;
ghost use Rattle.bq_query_check.specs.Formula as formula;
ghost use Rattle.bq_query_check.specs.Formula.{Formula, formula_of, step_of, chained, AreClosed};
ghost use Rattle.bq_query.specs.Stands.{AreSets};
ghost use Rattle.bq_query.specs.Faults.{Answers, AreBound, Has};

use crate::bindings::{bind, set_bound};
use crate::operators::combined;
use bq_query_check::{ChainStep, SetExpr};
use bq_query_function::{Call, of_one, of_two, targets_named};
use bq_query_lex::QueryErr;
use bq_query_target_graph::TargetGraph;
use sqlite_items::Items;
use std::alloc::Global;

/// Returns the set of a call of a function of one set.
#[cycle(sets)]
fn one_of(
    alloc: Global,
    graph: &TargetGraph,
    bound: &mut Items<Items<bool>>,
    function: &Call,
    argument: &SetExpr,
) -> Result<Vec<bool>, QueryErr>
    requires { AreBound graph.now (formula_of argument.now) bound.old }
    ensures { Answers (λ v. v.items) graph.now (formula.one (call.of_one function.now) (formula_of argument.now)) bound.old bound.old result bound.new }
{
    let x = set_of(alloc, graph, bound, argument)?;
    Ok(of_one(alloc, graph, function, &x)?)
}

/// Returns the set of `let name = .. in body`, where the value has this set.
#[cycle(sets)]
fn let_of(
    alloc: Global,
    graph: &TargetGraph,
    bound: &mut Items<Items<bool>>,
    set: Vec<bool>,
    body: &SetExpr,
) -> Result<Vec<bool>, QueryErr>
    requires { AreBound graph.now (formula_of body.now) (bound.old ++ set.items ∷ []) }
    ensures { Answers (λ v. v.items) graph.now (formula_of body.now) (bound.old ++ set.items ∷ []) bound.old result bound.new }
{
    bind(bound, set)?;
    let found = set_of(alloc, graph, bound, body)?;
    let _ = bound.pop();
    Ok(found)
}

/// Applies the operations of a chain from left to right to a query that has this set.
#[cycle(sets)]
fn chain_of(
    alloc: Global,
    graph: &TargetGraph,
    bound: &mut Items<Items<bool>>,
    first: Vec<bool>,
    operations: &[ChainStep],
) -> Result<Vec<bool>, QueryErr>
    requires first { length first.items ≡ length graph.now.targets }
    requires closed { AreClosed (length bound.old) (map step_of operations.now) }
    requires sets { AreSets graph.now bound.old }
    ensures { (x : Formula) → Has graph.now bound.old x first.items → Answers (λ v. v.items) graph.now (chained x (map step_of operations.now)) bound.old bound.old result bound.new }
{
    let mut set = first;
    for operation in operations {
        let operand = set_of(alloc, graph, bound, &operation.operand)?;
        set = combined(alloc, graph, operation.operator, &set, &operand)?;
    }
    Ok(set)
}

/// Returns the set of a query, where the lets around it bind these sets.
#[cycle(sets)]
pub fn set_of(
    alloc: Global,
    graph: &TargetGraph,
    bound: &mut Items<Items<bool>>,
    query: &SetExpr,
) -> Result<Vec<bool>, QueryErr>
    requires { AreBound graph.now (formula_of query.now) bound.old }
    ensures { Answers (λ v. v.items) graph.now (formula_of query.now) bound.old bound.old result bound.new }
{
    match query {
        SetExpr::Named(patterns) => {
            let patterns = patterns.as_slice();
            targets_named(alloc, graph.packages(), graph.targets(), patterns)
        }
        SetExpr::Variable(number) => Ok(set_bound(alloc, bound.as_slice(), *number)?),
        SetExpr::Let(value, body) => {
            let value = value.get();
            let body = body.get();
            let set = set_of(alloc, graph, bound, value)?;
            let_of(alloc, graph, bound, set, body)
        }
        SetExpr::Chain(first, operations) => {
            let first = first.get();
            let operations = operations.as_slice();
            let set = set_of(alloc, graph, bound, first)?;
            chain_of(alloc, graph, bound, set, operations)
        }
        SetExpr::One(function, x) => {
            let x = x.get();
            one_of(alloc, graph, bound, function, x)
        }
        SetExpr::Two(function, x, y) => {
            let first = x.get();
            let second = y.get();
            let x = set_of(alloc, graph, bound, first)?;
            let y = set_of(alloc, graph, bound, second)?;
            Ok(of_two(alloc, graph, function, &x, &y)?)
        }
    }
}
