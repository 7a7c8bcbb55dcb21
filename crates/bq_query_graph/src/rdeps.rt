//! `rdeps(u, x)`, `rdeps(u, x, n)`: what depends on `x`, within what `u` depends on.
ghost use Rattle.std.specs.Prelude.{◌≡◌, length, IfOk};
ghost use Rattle.bq_query_graph.specs.Paths.{Rdeps, RdepsWithin};
ghost use Rattle.bq_query_graph.specs.Marks.{IsSet, Marked};

use crate::deps::deps;
use crate::graph::DependencyGraph;
use crate::search::{closure, within};
use std::alloc::{AllocError, Global};

/// Returns `rdeps(u, x)`: the starts of the paths that end in `x`, all of whose targets are in `deps(u)`. The targets
/// of `x` that aren't in `deps(u)` are left out.
pub fn rdeps(
    alloc: Global,
    graph: &DependencyGraph,
    u: &[bool],
    x: &[bool],
) -> Result<Vec<bool>, AllocError>
    requires u { length u.now ≡ length graph.now }
    requires x { length x.now ≡ length graph.now }
    ensures { IfOk result (λ r. IsSet (length graph.now) r.items (Rdeps graph.now (Marked u.now) (Marked x.now))) }
{
    let inside = deps(alloc, graph, u)?;
    closure(alloc, &graph.back, x, &inside)
}

/// Returns `rdeps(u, x, n)`: the starts of such paths of at most `limit` edges.
pub fn rdeps_within(
    alloc: Global,
    graph: &DependencyGraph,
    u: &[bool],
    x: &[bool],
    limit: usize,
) -> Result<Vec<bool>, AllocError>
    requires u { length u.now ≡ length graph.now }
    requires x { length x.now ≡ length graph.now }
    ensures { IfOk result (λ r. IsSet (length graph.now) r.items (RdepsWithin graph.now (Marked u.now) (Marked x.now) limit)) }
{
    let inside = deps(alloc, graph, u)?;
    within(alloc, &graph.back, x, &inside, limit)
}
