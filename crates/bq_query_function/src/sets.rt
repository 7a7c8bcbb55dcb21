//! The sets that several functions stand for.

ghost use Rattle.std.specs.Prelude.{◌≡◌, length, IfOk};
ghost use Rattle.bq_query_graph.specs.Marks.{IsSet, Marked};
ghost use Rattle.bq_query_function.specs.Sets.{OfOne, OfTwo, reached, reaching};

use crate::set::no_target;
use bq_query_graph::deps::{deps, deps_within};
use bq_query_graph::rdeps::{rdeps, rdeps_within};
use bq_query_target_graph::TargetGraph;
use std::alloc::{AllocError, Global};

/// Returns what paths from `x` reach, of at most so many edges if there is a limit.
pub fn reached(
    alloc: Global,
    graph: &TargetGraph,
    x: &[bool],
    limit: Option<usize>,
) -> Result<Vec<bool>, AllocError>
    requires { length x.now ≡ length graph.now.targets }
    ensures { IfOk result (λ r. IsSet (length graph.now.targets) r.items (OfOne graph.now (reached limit) (Marked x.now))) }
{
    let edges = graph.graph();
    match limit {
        None => deps(alloc, edges, x),
        Some(limit) => deps_within(alloc, edges, x, limit),
    }
}

/// Returns from where, within what `u` reaches, paths reach `x`, of at most so many edges if there is a limit.
pub fn reaching(
    alloc: Global,
    graph: &TargetGraph,
    u: &[bool],
    x: &[bool],
    limit: Option<usize>,
) -> Result<Vec<bool>, AllocError>
    requires u { length u.now ≡ length graph.now.targets }
    requires x { length x.now ≡ length graph.now.targets }
    ensures { IfOk result (λ r. IsSet (length graph.now.targets) r.items (OfTwo graph.now (reaching limit) (Marked u.now) (Marked x.now))) }
{
    let edges = graph.graph();
    match limit {
        None => rdeps(alloc, edges, u, x),
        Some(limit) => rdeps_within(alloc, edges, u, x, limit),
    }
}

/// Returns the empty set of so many targets.
pub fn nothing(alloc: Global, count: usize) -> Result<Vec<bool>, AllocError>
    ensures { IfOk result (λ r. IsSet count r.items (λ _. ⊥)) }
{
    no_target(alloc, count)
}
