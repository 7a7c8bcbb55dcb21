//! `allpaths(a, b)`: everything between `a` and `b`.
ghost use Rattle.std.specs.Prelude.{◌≡◌, length, IfOk};
ghost use Rattle.bq_query_graph.specs.Paths.{OnPaths};
ghost use Rattle.bq_query_graph.specs.Marks.{IsSet, Marked};

use crate::graph::DependencyGraph;
use crate::rdeps::rdeps;
use std::alloc::{AllocError, Global};

/// Returns `allpaths(a, b)`: the targets on the paths from `a` to `b`. They are those that depend on `b` within what
/// `a` depends on.
pub fn allpaths(
    alloc: Global,
    graph: &DependencyGraph,
    a: &[bool],
    b: &[bool],
) -> Result<Vec<bool>, AllocError>
    requires a { length a.now ≡ length graph.now }
    requires b { length b.now ≡ length graph.now }
    ensures { IfOk result (λ r. IsSet (length graph.now) r.items (OnPaths graph.now (Marked a.now) (Marked b.now))) }
{
    rdeps(alloc, graph, a, b)
}
