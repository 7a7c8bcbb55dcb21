//! `set(word ..)`: the targets that patterns name.

ghost use Rattle.std.specs.Prelude.{◌≡◌, ◌⊎◌, false, length, replicate, IfOk};
ghost use Rattle.std.specs.List.Sorted.{IsStrictlySortedBy};
ghost use Rattle.bq_label.specs.Packages.{id_cmp};
ghost use Rattle.bq_query_graph.specs.Marks.{IsSet};
ghost use Rattle.bq_query_lex.specs.QueryError.{Meets};
ghost use Rattle.bq_query_function.specs.Missing.{first_missing};
ghost use Rattle.bq_query_function.specs.Order.{AreInOrder};
ghost use Rattle.bq_query_function.specs.Words.{Those, one_names};

use crate::pattern::add_pattern;
use bq_label::PackageId;
use bq_package_target::Target;
use bq_query_lex::{QueryErr, TargetPattern};
use std::alloc::{AllocError, Global};

/// Returns the empty set of `count` targets.
pub fn no_target(alloc: Global, count: usize) -> Result<Vec<bool>, AllocError>
    ensures { IfOk result (λ r. r.items ≡ replicate count false) }
{
    vec![in alloc; false; count]
}

/// Returns the targets that one of the patterns names. Fails with Q5 or Q6 for the first that names what isn't there.
pub fn targets_named(
    alloc: Global,
    packages: &[PackageId],
    targets: &[Target],
    patterns: &[TargetPattern],
) -> Result<Vec<bool>, QueryErr>
    requires packages { IsStrictlySortedBy id_cmp packages.now }
    requires targets { AreInOrder targets.now }
    ensures fault { Meets (first_missing packages.now targets.now patterns.now) result }
    ensures set { IfOk result (λ r. IsSet (length targets.now) r.items (Those (one_names patterns.now) targets.now)) }
{
    let mut marks = no_target(alloc, targets.len())?;
    for pattern in patterns {
        add_pattern(alloc, packages, targets, pattern, &mut marks)?;
    }
    Ok(marks)
}
