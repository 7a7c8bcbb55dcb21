//! `zip` (Starlark, "zip").

ghost use Rattle.std.specs.Prelude.{◌≡◌, ◌++◌, map, take, drop, IfOk, OnOk};
ghost use Rattle.bq_base.specs.Gives.{Gives};
ghost use Rattle.bq_value.specs.declared.error.EvalErr.TheVariants.{Bad};
ghost use Rattle.bq_value.specs.Datum.{tuple, data_of};
ghost use Rattle.bq_builtin.specs.Sequences.{heads, rows, shortest_from, shortest, elements_of_each, zip};

use crate::arguments::by_place;
use crate::column::Column;
use crate::elements::room_for;
use bq_builtin_machine::{Args, Machine};
use bq_value::{EvalErr, Store, Value};
use std::alloc::{AllocError, Global};

/// Returns the elements of each value (F40).
fn elements_of_each<'a>(
    alloc: Global,
    store: &'a Store,
    values: &'a [Value],
) -> Result<Vec<Column<'a>>, EvalErr>
    ensures { Gives (λ xss. xss.items) Bad result (elements_of_each store.now values.now) }
{
    let mut columns = Vec::with_capacity(alloc, values.len())?;
    for value in values {
        columns.push(Column::of(store, value)?)?;
    }
    Ok(columns)
}

fn shortest_from(mut count: usize, columns: &[Column<'_>]) -> usize
    ensures { result ≡ shortest_from count columns.now }
{
    for column in columns {
        count = count.min(column.len());
    }
    count
}

/// Returns the number of elements of the column with the fewest.
fn shortest(columns: &[Column<'_>]) -> usize
    ensures { result ≡ shortest columns.now }
{
    match columns {
        [] => 0,
        [first, others @ ..] => shortest_from(first.len(), others),
    }
}

/// Moves the next element of a column to the row.
fn move_next(column: &mut Column<'_>, row: &mut Vec<Value>) -> Result<(), AllocError>
    ensures row { OnOk result (row.new.items ≡ row.old.items ++ take 1 column.old) }
    ensures rest { OnOk result (column.new ≡ drop 1 column.old) }
{
    if let Some(value) = column.next()? {
        row.push(value)?;
    }
    Ok(())
}

/// Returns the next element of each column.
fn row(alloc: Global, columns: &mut [Column<'_>]) -> Result<Vec<Value>, AllocError>
    ensures heads { IfOk result (λ values. values.items ≡ heads columns.old) }
    ensures rest { OnOk result (columns.new ≡ map (drop 1) columns.old) }
{
    let mut values = Vec::with_capacity(alloc, columns.len())?;
    for column in columns.iter_mut() {
        move_next(column, &mut values)?;
    }
    Ok(values)
}

fn tuple_of_row(alloc: Global, columns: &mut [Column<'_>]) -> Result<Value, AllocError>
    ensures tuple { IfOk result (λ v. v ≡ tuple (data_of (heads columns.old))) }
    ensures rest { OnOk result (columns.new ≡ map (drop 1) columns.old) }
{
    let values = row(alloc, columns)?;
    Value::tuple(alloc, values)
}

/// Returns `count` tuples, one for each row.
fn rows(alloc: Global, count: usize, columns: &mut [Column<'_>]) -> Result<Vec<Value>, AllocError>
    ensures { IfOk result (λ vs. vs.items ≡ rows count columns.old) }
{
    let mut tuples = Vec::with_capacity(alloc, count)?;
    for _row in 0..count {
        tuples.push(tuple_of_row(alloc, columns)?)?;
    }
    Ok(tuples)
}

/// Returns the values of the new list `zip(x, y, ..)`.
#[tactic(auto, unfolding(crate::specs::Sequences::zip))]
pub(crate) fn zip(alloc: Global, machine: &Machine, args: &Args) -> Result<Vec<Value>, EvalErr>
    ensures { Gives (λ vs. vs.items) Bad result (zip machine.now.store args.now) }
{
    let mut columns = elements_of_each(alloc, machine.store(), by_place(args)?)?;
    let count = shortest(&columns);
    room_for(count)?;
    Ok(rows(alloc, count, &mut columns)?)
}
