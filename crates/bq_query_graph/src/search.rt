//! What paths reach, by a worklist: each target that is found is marked and listed once, and its row read once.
ghost use Rattle.std.specs.Prelude.{◌≡◌, ℕ, ◌+◌, ◌<◌, ◌≤◌, Bool, List, length, IfOk, OnOk};
ghost use Rattle.std.specs.List.{Contains};
ghost use Rattle.bq_query_graph.specs.Paths.{Ends, EndsWithin};
ghost use Rattle.bq_query_graph.specs.Marks.{IsSet, Step, Both, Held, Grew, After};

use crate::rows::Rows;
use crate::sets::{intersection, members};
use std::alloc::{AllocError, Global};

/// Marks and lists the targets of the row of `x` that are allowed and not yet marked.
fn visit(
    graph: &Rows,
    allowed: &[bool],
    marks: &mut Vec<bool>,
    queue: &mut Vec<usize>,
    x: usize,
) -> Result<(), AllocError>
    requires x { x < length graph.now }
    requires allowed { length allowed.now ≡ length graph.now }
    requires marks { length marks.old.items ≡ length graph.now }
    requires held { Held marks.old.items queue.old.items }
    ensures { OnOk result (Grew (Step graph.now allowed.now x) marks.old.items queue.old.items marks.new.items queue.new.items) }
{
    let row = graph.row(x);
    for next in row {
        let y = *next;
        if !allowed[y] {
            continue;
        }
        if marks[y] {
            continue;
        }
        marks[y] = true;
        queue.push(y)?;
    }
    Ok(())
}

/// Visits every target listed at `from` or later. Returns how many were listed before.
fn level(
    graph: &Rows,
    allowed: &[bool],
    marks: &mut Vec<bool>,
    queue: &mut Vec<usize>,
    from: usize,
) -> Result<usize, AllocError>
    requires allowed { length allowed.now ≡ length graph.now }
    requires marks { length marks.old.items ≡ length graph.now }
    requires held { Held marks.old.items queue.old.items }
    requires from { from ≤ length queue.old.items }
    ensures end { IfOk result (λ end. end ≡ length queue.old.items) }
    ensures grew { OnOk result (Grew (After graph.now allowed.now queue.old.items from (length queue.old.items)) marks.old.items queue.old.items marks.new.items queue.new.items) }
{
    let end = queue.len();
    for k in from..end {
        let x = queue[k];
        visit(graph, allowed, marks, queue, x)?;
    }
    Ok(end)
}

/// Returns the ends of the paths of at most `limit` edges that start in the seeds and stay among the allowed targets.
/// Breadth first, so that a target is met by a shortest path.
pub fn within(
    alloc: Global,
    graph: &Rows,
    seeds: &[bool],
    allowed: &[bool],
    limit: usize,
) -> Result<Vec<bool>, AllocError>
    requires seeds { length seeds.now ≡ length graph.now }
    requires allowed { length allowed.now ≡ length graph.now }
    ensures { IfOk result (λ r. IsSet (length graph.now) r.items (EndsWithin (Step graph.now allowed.now) (Both seeds.now allowed.now) limit)) }
{
    let mut marks = intersection(alloc, seeds, allowed)?;
    let mut queue = members(alloc, &marks)?;
    let mut head = 0;
    for n in 0..limit {
        if head == queue.len() {
            return Ok(marks);
        }
        head = level(graph, allowed, &mut marks, &mut queue, head)?;
    }
    Ok(marks)
}

/// Returns the ends of the paths that start in the seeds and stay among the allowed targets.
pub fn closure(
    alloc: Global,
    graph: &Rows,
    seeds: &[bool],
    allowed: &[bool],
) -> Result<Vec<bool>, AllocError>
    requires seeds { length seeds.now ≡ length graph.now }
    requires allowed { length allowed.now ≡ length graph.now }
    ensures { IfOk result (λ r. IsSet (length graph.now) r.items (Ends (Step graph.now allowed.now) (Both seeds.now allowed.now))) }
{
    let mut marks = intersection(alloc, seeds, allowed)?;
    let mut queue = members(alloc, &marks)?;
    let mut head = 0;
    while head < queue.len() {
        head = level(graph, allowed, &mut marks, &mut queue, head)?;
    }
    Ok(marks)
}
