//! What a target depends on directly.

ghost use Rattle.std.specs.Prelude.{◌≡◌, ◌==◌, not, IfOk};
ghost use Rattle.std.specs.List.{filter};
ghost use Rattle.bq_facts.specs.Deps.{AreDirect};

use std::alloc::{AllocError, Global};

/// Returns the numbers of a row but for this one.
fn others(alloc: Global, row: &[usize], own: usize) -> Result<Vec<usize>, AllocError>
    ensures { IfOk result (λ v. v.items ≡ filter (λ y. not (y == own)) row.now) }
{
    row.iter().copied().filter(|y| *y != own).collect(alloc)
}

/// Returns the numbers of the targets that the target of this number depends on, but for itself, ascending, each once. The row has
/// the numbers that its edges lead to.
pub fn direct_deps(alloc: Global, row: &[usize], own: usize) -> Result<Vec<usize>, AllocError>
    ensures { IfOk result (λ v. AreDirect row.now own v.items) }
{
    let mut direct = others(alloc, row, own)?;
    direct.sort_unstable();
    direct.dedup();
    Ok(direct)
}
