//! The functions of queries: a variant and a row for each, and the set that it stands for. Calls are checked, read and answered by this
//! table alone.

ghost use Rattle.std.specs.Prelude.{◌≡◌, length, IfOk, MatchOption};
ghost use Rattle.bq_query_graph.specs.Marks.{IsSet, Marked};
ghost use Rattle.bq_query_function.specs.Sets.{OfOne, OfTwo, none, none_of_two};
ghost use Rattle.bq_query_function.specs.Calls as spec;

use crate::attr::attr;
use crate::call::Call;
use crate::filter::filter;
use crate::kind::kind;
use crate::labels::labels;
use crate::sets::{reached, reaching};
use crate::signature::{QueryArgumentKind, QuerySignature};
use bq_query_graph::allpaths::allpaths;
use bq_query_target_graph::TargetGraph;
use std::alloc::{AllocError, Global};

/// A function that can be answered.
#[derive(Clone, Copy)]
pub enum QueryFunction {
    Allpaths,
    Attr,
    Deps,
    Filter,
    Kind,
    Labels,
    Rdeps,
}

/// The functions by their names: what the arguments of each must be.
pub const FUNCTIONS: [(&[u8], QuerySignature); 7] = [
    (
        b"allpaths",
        QuerySignature {
            function: QueryFunction::Allpaths,
            parameters: &[QueryArgumentKind::Query, QueryArgumentKind::Query],
        },
    ),
    (
        b"attr",
        QuerySignature {
            function: QueryFunction::Attr,
            parameters: &[
                QueryArgumentKind::Attribute,
                QueryArgumentKind::Pattern,
                QueryArgumentKind::Query,
            ],
        },
    ),
    (
        b"deps",
        QuerySignature {
            function: QueryFunction::Deps,
            parameters: &[QueryArgumentKind::Query, QueryArgumentKind::Number],
        },
    ),
    (
        b"filter",
        QuerySignature {
            function: QueryFunction::Filter,
            parameters: &[QueryArgumentKind::Pattern, QueryArgumentKind::Query],
        },
    ),
    (
        b"kind",
        QuerySignature {
            function: QueryFunction::Kind,
            parameters: &[QueryArgumentKind::Pattern, QueryArgumentKind::Query],
        },
    ),
    (
        b"labels",
        QuerySignature {
            function: QueryFunction::Labels,
            parameters: &[QueryArgumentKind::Attribute, QueryArgumentKind::Query],
        },
    ),
    (
        b"rdeps",
        QuerySignature {
            function: QueryFunction::Rdeps,
            parameters: &[
                QueryArgumentKind::Query,
                QueryArgumentKind::Query,
                QueryArgumentKind::Number,
            ],
        },
    ),
];

/// Functions of Bazel's query language that are left out (Q3).
pub const LEFT_OUT: [&[u8]; 10] = [
    b"allrdeps",
    b"buildfiles",
    b"executables",
    b"loadfiles",
    b"same_pkg_direct_rdeps",
    b"siblings",
    b"some",
    b"somepath",
    b"tests",
    b"visible",
];

/// Returns the set of a function of one set, or `None` if it is not one that takes these arguments.
pub fn set_of_one(
    alloc: Global,
    graph: &TargetGraph,
    call: &Call,
    x: &[bool],
) -> Option<Result<Vec<bool>, AllocError>>
    requires { length x.now ≡ length graph.now.targets }
    ensures { MatchOption result (spec.of_one call.now ≡ none) (λ set. IfOk set (λ r. IsSet (length graph.now.targets) r.items (OfOne graph.now (spec.of_one call.now) (Marked x.now)))) }
{
    let targets = graph.targets();
    Some(match call.function {
        QueryFunction::Attr => {
            let name = call.attribute.as_ref()?;
            attr(alloc, targets, name.as_slice(), call.pattern.as_ref()?, x)
        }
        QueryFunction::Deps => reached(alloc, graph, x, call.limit),
        QueryFunction::Filter => filter(alloc, targets, call.pattern.as_ref()?, x),
        QueryFunction::Kind => kind(alloc, targets, call.pattern.as_ref()?, x),
        QueryFunction::Labels => labels(alloc, targets, call.attribute.as_ref()?.as_slice(), x),
        _ => return None,
    })
}

/// Returns the set of a function of two sets, or `None` if it is not one that takes these arguments.
pub fn set_of_two(
    alloc: Global,
    graph: &TargetGraph,
    call: &Call,
    x: &[bool],
    y: &[bool],
) -> Option<Result<Vec<bool>, AllocError>>
    requires x { length x.now ≡ length graph.now.targets }
    requires y { length y.now ≡ length graph.now.targets }
    ensures { MatchOption result (spec.of_two call.now ≡ none_of_two) (λ set. IfOk set (λ r. IsSet (length graph.now.targets) r.items (OfTwo graph.now (spec.of_two call.now) (Marked x.now) (Marked y.now)))) }
{
    Some(match call.function {
        QueryFunction::Allpaths => allpaths(alloc, graph.graph(), x, y),
        QueryFunction::Rdeps => reaching(alloc, graph, x, y, call.limit),
        _ => return None,
    })
}
