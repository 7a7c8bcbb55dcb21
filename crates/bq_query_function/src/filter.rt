//! `filter(pattern, x)`: the targets of `x` whose label in full has a match of the pattern.

ghost use Rattle.std.specs.Prelude.{◌≡◌, length, IfOk};
ghost use Rattle.bq_query_graph.specs.Marks.{IsSet, Marked};
ghost use Rattle.bq_query_function.specs.Matching.{Chosen, has_text};

use crate::matching::matching;
use crate::text::Subject;
use bq_package_target::Target;
use bq_query_pattern::QueryPattern;
use std::alloc::{AllocError, Global};

pub fn filter(
    alloc: Global,
    targets: &[Target],
    pattern: &QueryPattern,
    x: &[bool],
) -> Result<Vec<bool>, AllocError>
    requires { length x.now ≡ length targets.now }
    ensures { IfOk result (λ r. IsSet (length targets.now) r.items (Chosen (has_text pattern.now) targets.now (Marked x.now))) }
{
    matching(alloc, targets, Subject::Label, pattern, x)
}
