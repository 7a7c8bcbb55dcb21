//! Operators on sets.

ghost use Rattle.std.specs.Prelude.{◌≡◌, length, IfOk};
ghost use Rattle.bq_query_graph.specs.Marks.{IsSet, Marked};
ghost use Rattle.bq_query.specs.Operators.{Combined};

use bq_query_graph::{difference, intersection, union};
use bq_query_parse::SetOperator;
use bq_query_target_graph::TargetGraph;
use std::alloc::{AllocError, Global};

/// Applies an operator to two sets.
pub fn combined(
    alloc: Global,
    graph: &TargetGraph,
    operator: SetOperator,
    x: &[bool],
    y: &[bool],
) -> Result<Vec<bool>, AllocError>
    requires x { length x.now ≡ length graph.now.targets }
    requires y { length y.now ≡ length graph.now.targets }
    ensures { IfOk result (λ r. IsSet (length graph.now.targets) r.items (Combined operator (Marked x.now) (Marked y.now))) }
{
    match operator {
        SetOperator::Union => union(alloc, x, y),
        SetOperator::Intersect => intersection(alloc, x, y),
        SetOperator::Except => difference(alloc, x, y),
    }
}
