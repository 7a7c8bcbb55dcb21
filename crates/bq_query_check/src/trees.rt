//! Trees: they are checked in the order of the text, and what they say is made on the way.

ghost use Rattle.std.specs.Prelude.{◌≤◌, ◌++◌, [], ◌∷◌, length, map};
ghost use Rattle.bq_query_lex.specs.PatternReading.{words_fault};
ghost use Rattle.bq_query_check.specs.Verdict as spec;
ghost use Rattle.bq_query_check.specs.Verdict.{no_fault, part_of, operation_part, variable};
ghost use Rattle.bq_query_check.specs.Call.{given, nothing};
ghost use Rattle.bq_query_check.specs.Checked.{Reads};
ghost use Rattle.bq_query_check.specs.Formula.{formula_of, step_of};
ghost use Rattle.bq_query_check.specs.FormulaOf.{IsFormulaOf, AreStepsOf, IsArgumentOf, AreArgumentsOf, IsCallNamed, IsNamed, IsBound};

use crate::arguments::{attribute, limit, pattern};
use crate::call::{Arguments, called};
use crate::formula::{ChainStep, SetExpr};
use crate::leaves::function;
use crate::names::{innermost, with_name};
use bq_base::Bytes;
use bq_query_function::QueryArgumentKind;
use bq_query_lex::{QueryErr, read_patterns};
use bq_query_parse::{Query, SetOperation};
use sqlite_items::{Boxed, Items};
use std::alloc::Global;
use std::slice::from_ref;

/// Reads words as target patterns: Q3 or Q8 for the first that is none.
fn named(alloc: Global, words: &[Bytes]) -> Result<SetExpr, QueryErr>
    ensures { Reads (no_fault (words_fault words.now) ∷ []) (λ r. IsNamed words.now (formula_of r)) result }
{
    let patterns = read_patterns(alloc, words)?;
    Ok(SetExpr::Named(patterns))
}

/// Reads `$name`: Q7 if no let around it binds the name.
fn bound(names: &[Bytes], name: &Bytes) -> Result<SetExpr, QueryErr>
    ensures { Reads (no_fault (variable names.now name.now) ∷ []) (λ r. IsBound names.now name.now (formula_of r)) result }
{
    match innermost(names, name.as_slice()) {
        Some(number) => Ok(SetExpr::Variable(number)),
        None => Err(QueryErr::UnboundVariable(name.share()?)),
    }
}

/// Reads a tree into a box, so that what is held of it while more is read is a pointer.
#[cycle(query)]
fn boxed(alloc: Global, names: &[Bytes], query: &Query) -> Result<Boxed<SetExpr>, QueryErr>
    ensures { Reads ((part_of query.now).all names.now) (λ r. IsFormulaOf names.now query.now (formula_of r)) result }
{
    let set = read(alloc, names, query)?;
    Ok(Boxed::new(alloc, set)?)
}

/// Reads an argument of this kind.
#[cycle(query)]
fn argument(
    alloc: Global,
    names: &[Bytes],
    kind: QueryArgumentKind,
    query: &Query,
    read: &mut Arguments,
) -> Result<(), QueryErr>
    ensures { Reads (spec.argument kind (part_of query.now) names.now) (λ _. IsArgumentOf names.now kind query.now (given read.old) (given read.new)) result }
{
    match kind {
        QueryArgumentKind::Query => {
            let set = boxed(alloc, names, query)?;
            Ok(read.sets.push(set)?)
        }
        QueryArgumentKind::Pattern => {
            read.pattern = Some(pattern(alloc, names, query)?);
            Ok(())
        }
        QueryArgumentKind::Attribute => {
            read.attribute = Some(attribute(alloc, names, query)?);
            Ok(())
        }
        QueryArgumentKind::Number => {
            read.limit = Some(limit(alloc, names, query)?);
            Ok(())
        }
    }
}

/// Reads arguments, each by its kind.
#[cycle(query)]
fn arguments(
    alloc: Global,
    names: &[Bytes],
    kinds: &[QueryArgumentKind],
    queries: &[Query],
) -> Result<Arguments, QueryErr>
    requires { length queries.now ≤ length kinds.now }
    ensures { Reads (spec.arguments kinds.now (map part_of queries.now) names.now) (λ r. AreArgumentsOf names.now kinds.now queries.now nothing (given r)) result }
{
    let mut read = Arguments::new(alloc);
    for (kind, query) in kinds.iter().zip(queries) {
        argument(alloc, names, *kind, query, &mut read)?;
    }
    Ok(read)
}

/// Reads a call by the parameters of its function.
#[cycle(query)]
fn call(
    alloc: Global,
    names: &[Bytes],
    name: &Bytes,
    queries: &[Query],
) -> Result<SetExpr, QueryErr>
    ensures { Reads (spec.call name.now (map part_of queries.now) names.now) (λ r. IsCallNamed name.now names.now queries.now (formula_of r)) result }
{
    let signature = function(name, queries.len())?;
    let arguments = arguments(alloc, names, signature.parameters, queries)?;
    Ok(called(signature, arguments))
}

/// Reads the further operands of a chain.
#[cycle(query)]
fn steps(
    alloc: Global,
    names: &[Bytes],
    operations: &[SetOperation],
) -> Result<Items<ChainStep>, QueryErr>
    ensures { Reads (spec.parts (map operation_part operations.now) names.now) (λ r. AreStepsOf names.now operations.now (map step_of r)) result }
{
    let mut steps = Items::new(alloc);
    for operation in operations {
        let operand = read(alloc, names, &operation.operand)?;
        steps.push(ChainStep {
            operator: operation.operator,
            operand,
        })?;
    }
    Ok(steps)
}

/// Reads the body of a let that binds the name.
#[cycle(query)]
fn body(
    alloc: Global,
    names: &[Bytes],
    name: &Bytes,
    query: &Query,
) -> Result<Boxed<SetExpr>, QueryErr>
    ensures { Reads ((part_of query.now).all (names.now ++ name.now ∷ [])) (λ r. IsFormulaOf (names.now ++ name.now ∷ []) query.now (formula_of r)) result }
{
    let names = with_name(alloc, names, name)?;
    boxed(alloc, names.as_slice(), query)
}

/// Reads a tree, where the lets around it bind these names.
#[cycle(query)]
fn read(alloc: Global, names: &[Bytes], query: &Query) -> Result<SetExpr, QueryErr>
    ensures { Reads ((part_of query.now).all names.now) (λ r. IsFormulaOf names.now query.now (formula_of r)) result }
{
    match query {
        Query::Word(text) => named(alloc, from_ref(text)),
        Query::Variable(name) => bound(names, name),
        Query::Parenthesized(inner) => read(alloc, names, inner.get()),
        Query::Set(texts) => named(alloc, texts.as_slice()),
        Query::Call(name, arguments) => call(alloc, names, name, arguments.as_slice()),
        Query::Let(name, value, inner) => {
            let value = boxed(alloc, names, value.get())?;
            let inner = body(alloc, names, name, inner.get())?;
            Ok(SetExpr::Let(value, inner))
        }
        Query::Chain(first, operations) => {
            let first = boxed(alloc, names, first.get())?;
            let steps = steps(alloc, names, operations.as_slice())?;
            Ok(SetExpr::Chain(first, steps))
        }
    }
}

/// Returns what a whole tree says, or its first fault in the order of the text.
pub fn check(alloc: Global, query: &Query) -> Result<SetExpr, QueryErr>
    ensures { Reads (spec.needs query.now) (λ r. IsFormulaOf [] query.now (formula_of r)) result }
{
    read(alloc, &[], query)
}
