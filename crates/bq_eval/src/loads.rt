//! What a file has before its first statement runs.

ghost use Rattle.std.specs.Prelude.{◌≡◌, IfOk, OnOk};
ghost use Rattle.bq_eval_frame.specs.Slots.{slots_of};
ghost use Rattle.bq_eval_rules.specs.Round.{views_of};
ghost use Rattle.bq_eval_spec.specs.Slots as meaning;
ghost use Rattle.bq_eval.specs.Module.{first_store};

use bq_eval_frame::Frame;
use bq_resolve_scope::{LoadStmt, LoadedSymbol};
use bq_value::{Frozen, Store, Value};
use bq_value_datum::Seed;
use std::alloc::{AllocError, Global};
use std::sync::Arc;

/// Makes the store of a module that has made nothing yet.
pub(crate) fn first_store(
    alloc: Global,
    number: u32,
    loaded: &[Arc<Frozen>],
    seed: Seed,
) -> Result<Store, AllocError>
    ensures { IfOk result (λ s. s ≡ first_store number (views_of loaded.now)) }
{
    let mut store = Store::new(alloc, number, seed);
    for frozen in loaded {
        store.load(frozen)?;
    }
    Ok(store)
}

/// Returns the first globals: a loaded name that the file binds too is a global whose first value is the loaded one.
#[tactic(auto, unfolding(bq_eval_spec::specs::Slots::first_globals))]
pub(crate) fn first_globals(
    globals: &mut Frame<'_>,
    loads: &[LoadStmt],
    values: &[Value],
) -> Result<(), AllocError>
    ensures { OnOk result (slots_of globals.new ≡ meaning.first_globals loads.now values.now (slots_of globals.old)) }
{
    let mut left = values;
    for load in loads {
        left = first_of_clauses(globals, load.clauses.as_slice(), left)?;
    }
    Ok(())
}

/// Binds those of one load. Returns the values for the loads after it.
fn first_of_clauses<'a>(
    globals: &mut Frame<'_>,
    clauses: &[LoadedSymbol],
    values: &'a [Value],
) -> Result<&'a [Value], AllocError>
    ensures { IfOk result (λ left. (left.now, slots_of globals.new) ≡ meaning.first_of_clauses clauses.now values.now (slots_of globals.old)) }
{
    let mut left = values;
    for clause in clauses {
        let Some((value, rest)) = left.split_first() else {
            return Ok(left);
        };
        if let Some(slot) = clause.global {
            globals.fill(slot, value.share()?)?;
        }
        left = rest;
    }
    Ok(left)
}
