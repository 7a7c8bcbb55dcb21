//! Which targets are meant.

ghost use Rattle.std.specs.Prelude.{◌≡◌, ◌<◌, length, IfOk};
ghost use Rattle.std.specs.List.{All, range_with_len};
ghost use Rattle.std.specs.Option.{option_copied};
ghost use Rattle.bq_query_lex.specs.QueryError.{Meets};
ghost use Rattle.bq_run_facts.specs.Facts.{AreMeant, fault_by};

use bq_query::answer;
use bq_query_check::CheckedQuery;
use bq_query_lex::QueryErr;
use bq_query_target_graph::TargetGraph;
use std::alloc::{AllocError, Global};

/// Returns the numbers of all targets.
#[tactic(auto, using(crate::proofs::Direct::numbers_more, crate::proofs::Direct::numbers_below))]
fn all_numbers(alloc: Global, count: usize) -> Result<Vec<usize>, AllocError>
    ensures all { IfOk result (λ v. v.items ≡ range_with_len 0 count) }
    ensures within { IfOk result (λ v. All (λ at. at < count) v.items) }
{
    let mut numbers = Vec::with_capacity(alloc, count)?;
    for at in 0..count {
        numbers.push(at)?;
    }
    Ok(numbers)
}

/// Returns the numbers of the targets that the query stands for, or of all targets.
pub(crate) fn meant(
    alloc: Global,
    graph: &TargetGraph,
    asked: Option<&CheckedQuery>,
) -> Result<Vec<usize>, QueryErr>
    ensures fault { Meets (fault_by graph.now (option_copied asked.entry)) result }
    ensures within { IfOk result (λ v. All (λ at. at < length graph.now.targets) v.items) }
    ensures meant { IfOk result (λ v. AreMeant graph.now (option_copied asked.entry) v.items) }
{
    match asked {
        Some(query) => answer(alloc, graph, query),
        None => Ok(all_numbers(alloc, graph.targets().len())?),
    }
}
