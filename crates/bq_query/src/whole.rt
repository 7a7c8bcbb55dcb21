//! Whole queries.

ghost use Rattle.std.specs.Prelude.{◌≡◌, ℕ, ◌<◌, [], length, IfOk};
ghost use Rattle.std.specs.List.{All};
ghost use Rattle.std.specs.List.Sorted.{IsStrictlyIncreasing};
ghost use Rattle.bq_query_check.specs.Formula.{formula_of};
ghost use Rattle.bq_query.specs.Stands.{Stands};
ghost use Rattle.bq_query_lex.specs.QueryError.{Meets};
ghost use Rattle.bq_query.specs.Faults.{fault_in};
ghost use Rattle.bq_query.specs.Answer.{AreThose};

use crate::sets::set_of;
use bq_query_check::CheckedQuery;
use bq_query_graph::members;
use bq_query_lex::QueryErr;
use bq_query_target_graph::TargetGraph;
use sqlite_items::Items;
use std::alloc::Global;

/// Returns the targets that the query stands for, by number, in the order of their labels.
pub fn answer(
    alloc: Global,
    graph: &TargetGraph,
    query: &CheckedQuery,
) -> Result<Vec<usize>, QueryErr>
    ensures fault { Meets (fault_in graph.now (formula_of query.now.set)) result }
    ensures within { IfOk result (λ v. All (λ at. at < length graph.now.targets) v.items) }
    ensures ascending { IfOk result (λ v. IsStrictlyIncreasing v.items) }
    ensures members { IfOk result (λ v. AreThose (Stands graph.now (formula_of query.now.set) []) v.items) }
{
    let mut bound = Items::new(alloc);
    let set = set_of(alloc, graph, &mut bound, &query.set)?;
    Ok(members(alloc, &set)?)
}
