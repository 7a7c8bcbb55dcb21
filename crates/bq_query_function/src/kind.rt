//! `kind(pattern, x)`: the targets of `x` whose kind has a match of the pattern. Kinds are `NAME rule`, `source file`,
//! `generated file` and `package group`; so `kind(rule, x)` keeps rules, and would keep another kind with `rule` in its
//! name.

ghost use Rattle.std.specs.Prelude.{◌≡◌, length, IfOk};
ghost use Rattle.bq_query_graph.specs.Marks.{IsSet, Marked};
ghost use Rattle.bq_query_function.specs.Matching.{Chosen, has_kind};

use crate::matching::matching;
use crate::text::Subject;
use bq_package_target::Target;
use bq_query_pattern::QueryPattern;
use std::alloc::{AllocError, Global};

pub fn kind(
    alloc: Global,
    targets: &[Target],
    pattern: &QueryPattern,
    x: &[bool],
) -> Result<Vec<bool>, AllocError>
    requires { length x.now ≡ length targets.now }
    ensures { IfOk result (λ r. IsSet (length targets.now) r.items (Chosen (has_kind pattern.now) targets.now (Marked x.now))) }
{
    matching(alloc, targets, Subject::Kind, pattern, x)
}
