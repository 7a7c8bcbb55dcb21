//! Sets of targets as marks, and the operators on them. A set has a mark for each target, however few it holds, so the loops here
//! are such that a processor takes many marks at a time: they have no branch, and no call that may fail.
ghost use Rattle.std.specs.Prelude.{◌≡◌, ℕ, ◌⊎◌, ◌<◌, ◌≤◌, true, false, length, slice_index_or, IfOk, OnOk};
ghost use Rattle.std.specs.List.Sorted.{IsStrictlyIncreasing};
ghost use Rattle.bq_query_graph.specs.Marks.{IsSet, Marked, Held, Both, HeldBelow};

use std::alloc::{AllocError, Global};

/// How many marks are passed over at once where none of them is set.
const BLOCK: usize = 128;

/// Returns `x intersect y`: the targets in both sets.
pub fn intersection(alloc: Global, xs: &[bool], ys: &[bool]) -> Result<Vec<bool>, AllocError>
    requires { length xs.now ≡ length ys.now }
    ensures { IfOk result (λ r. IsSet (length xs.now) r.items (Both xs.now ys.now)) }
{
    let mut r = vec![in alloc; false; xs.len()]?;
    for i in 0..xs.len() {
        r[i] = xs[i] & ys[i];
    }
    Ok(r)
}

/// Returns `x union y`: the targets in either set.
pub fn union(alloc: Global, xs: &[bool], ys: &[bool]) -> Result<Vec<bool>, AllocError>
    requires { length xs.now ≡ length ys.now }
    ensures { IfOk result (λ r. IsSet (length xs.now) r.items (λ y. Marked xs.now y ⊎ Marked ys.now y)) }
{
    let mut r = vec![in alloc; false; xs.len()]?;
    for i in 0..xs.len() {
        r[i] = xs[i] | ys[i];
    }
    Ok(r)
}

/// Returns `x except y`: the targets in the first set that aren't in the second.
pub fn difference(alloc: Global, xs: &[bool], ys: &[bool]) -> Result<Vec<bool>, AllocError>
    requires { length xs.now ≡ length ys.now }
    ensures { IfOk result (λ r. IsSet (length xs.now) r.items (λ y. Marked xs.now y × (Marked ys.now y → ⊥))) }
{
    let mut r = vec![in alloc; false; xs.len()]?;
    for i in 0..xs.len() {
        r[i] = xs[i] & !ys[i];
    }
    Ok(r)
}

/// Returns whether none of these marks is set.
fn are_clear(marks: &[bool]) -> bool
    ensures { result ≡ true → (y : ℕ) → slice_index_or marks.now y false ≡ false }
{
    let mut some = false;
    for mark in marks {
        some |= *mark;
    }
    !some
}

/// Returns where the block ends that begins here.
fn block_end(from: usize, count: usize) -> usize
    requires { from < count }
    ensures after { from < result }
    ensures within { result ≤ count }
{
    if count - from > BLOCK {
        return from + BLOCK;
    }
    count
}

/// Appends the targets of a set from one place to another.
fn list_block(
    marks: &[bool],
    from: usize,
    to: usize,
    listed: &mut Vec<usize>,
) -> Result<(), AllocError>
    requires order { from ≤ to }
    requires to { to ≤ length marks.now }
    requires listed { HeldBelow marks.now from listed.old.items }
    ensures { OnOk result (HeldBelow marks.now to listed.new.items) }
{
    if are_clear(&marks[from..to]) {
        return Ok(());
    }
    for i in from..to {
        if !marks[i] {
            continue;
        }
        listed.push(i)?;
    }
    Ok(())
}

/// Returns the targets of a set, in ascending order.
pub fn members(alloc: Global, marks: &[bool]) -> Result<Vec<usize>, AllocError>
    ensures ascending { IfOk result (λ v. IsStrictlyIncreasing v.items) }
    ensures members { IfOk result (λ v. Held marks.now v.items) }
{
    let mut listed = Vec::new(alloc);
    let mut from = 0;
    while from < marks.len() {
        let to = block_end(from, marks.len());
        list_block(marks, from, to, &mut listed)?;
        from = to;
    }
    Ok(listed)
}
