//! `deps(x)`, `deps(x, n)`: what the targets of `x` depend on, with these targets.
ghost use Rattle.std.specs.Prelude.{◌≡◌, length, IfOk};
ghost use Rattle.bq_query_graph.specs.Paths.{Deps, DepsWithin};
ghost use Rattle.bq_query_graph.specs.Marks.{IsSet, Marked};

use crate::graph::DependencyGraph;
use crate::search::{closure, within};
use std::alloc::{AllocError, Global};

/// Returns `deps(x)`: the ends of the paths that start in `x`.
pub fn deps(alloc: Global, graph: &DependencyGraph, x: &[bool]) -> Result<Vec<bool>, AllocError>
    requires { length x.now ≡ length graph.now }
    ensures { IfOk result (λ r. IsSet (length graph.now) r.items (Deps graph.now (Marked x.now))) }
{
    let all = vec![in alloc; true; graph.len()]?;
    closure(alloc, &graph.forward, x, &all)
}

/// Returns `deps(x, n)`: the ends of the paths of at most `limit` edges that start in `x`.
pub fn deps_within(
    alloc: Global,
    graph: &DependencyGraph,
    x: &[bool],
    limit: usize,
) -> Result<Vec<bool>, AllocError>
    requires { length x.now ≡ length graph.now }
    ensures { IfOk result (λ r. IsSet (length graph.now) r.items (DepsWithin graph.now (Marked x.now) limit)) }
{
    let all = vec![in alloc; true; graph.len()]?;
    within(alloc, &graph.forward, x, &all, limit)
}
