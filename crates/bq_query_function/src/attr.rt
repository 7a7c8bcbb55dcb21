//! `attr(name, pattern, x)`: the rules of `x` that have the attribute and whose text has a match of the pattern. An
//! attribute that isn't given has its default's text, by the class of the target's own rule. Lists are written `[v1,
//! v2]`, so `[\[ ]v[,\]]` finds the item `v`.

ghost use Rattle.std.specs.Prelude.{◌≡◌, length, IfOk};
ghost use Rattle.bq_query_graph.specs.Marks.{IsSet, Marked};
ghost use Rattle.bq_query_function.specs.Matching.{Chosen, has_attribute};

use crate::matching::matching;
use crate::text::Subject;
use bq_package_target::Target;
use bq_query_pattern::QueryPattern;
use std::alloc::{AllocError, Global};

pub fn attr(
    alloc: Global,
    targets: &[Target],
    name: &[u8],
    pattern: &QueryPattern,
    x: &[bool],
) -> Result<Vec<bool>, AllocError>
    requires { length x.now ≡ length targets.now }
    ensures { IfOk result (λ r. IsSet (length targets.now) r.items (Chosen (has_attribute name.now pattern.now) targets.now (Marked x.now))) }
{
    matching(alloc, targets, Subject::Attribute(name), pattern, x)
}
