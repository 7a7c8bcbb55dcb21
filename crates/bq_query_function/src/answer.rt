//! The set of a call.

ghost use Rattle.std.specs.Prelude.{◌≡◌, length, IfOk};
ghost use Rattle.bq_query_graph.specs.Marks.{IsSet, Marked};
ghost use Rattle.bq_query_function.specs.Sets.{OfOne, OfTwo};
ghost use Rattle.bq_query_function.specs.Calls as spec;

use crate::call::Call;
use crate::functions::{set_of_one, set_of_two};
use crate::sets::nothing;
use bq_query_target_graph::TargetGraph;
use std::alloc::{AllocError, Global};

/// Applies the function of a call to a set. Not inlined, so that only this call has the frame that a search takes.
#[inline(never)]
pub fn of_one(
    alloc: Global,
    graph: &TargetGraph,
    call: &Call,
    x: &[bool],
) -> Result<Vec<bool>, AllocError>
    requires { length x.now ≡ length graph.now.targets }
    ensures { IfOk result (λ r. IsSet (length graph.now.targets) r.items (OfOne graph.now (spec.of_one call.now) (Marked x.now))) }
{
    match set_of_one(alloc, graph, call, x) {
        Some(set) => set,
        None => nothing(alloc, x.len()),
    }
}

/// Applies the function of a call to two sets.
pub fn of_two(
    alloc: Global,
    graph: &TargetGraph,
    call: &Call,
    x: &[bool],
    y: &[bool],
) -> Result<Vec<bool>, AllocError>
    requires x { length x.now ≡ length graph.now.targets }
    requires y { length y.now ≡ length graph.now.targets }
    ensures { IfOk result (λ r. IsSet (length graph.now.targets) r.items (OfTwo graph.now (spec.of_two call.now) (Marked x.now) (Marked y.now))) }
{
    match set_of_two(alloc, graph, call, x, y) {
        Some(set) => set,
        None => nothing(alloc, x.len()),
    }
}
