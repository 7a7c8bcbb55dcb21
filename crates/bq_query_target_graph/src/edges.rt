//! Which targets depend on which, and which labels among them name no target.

ghost use Rattle.std.specs.Prelude.{◌≡◌, ◌∷◌, ◌++◌, ◌+◌, ◌^◌, ◌<◌, [], None, length, option_copied, IfOk, IsOk, OnOk};
ghost use Rattle.std.specs.List.{flat_map, All};
ghost use Rattle.std.specs.List.Sorted.{IsStrictlySortedBy};
ghost use Rattle.bq_base_texts.specs.FaultLine.{put_lines, sorted_lines};
ghost use Rattle.bq_query_target_graph.specs.Order.{target_cmp, target_labels};
ghost use Rattle.bq_query_target_graph.specs.Edges.{repeats, unrepeated, numbers_of, row_of, rows_of};
ghost use Rattle.bq_query_target_graph.specs.Dangling.{dangling_to, dangling_at, dangling_from};
ghost use Rattle.bq_query_target_graph.specs.Parts.{part_rows, part_lines, IsFoundIn};

use crate::build_files::BuildFiles;
use crate::dangling::add_dangling;
use crate::numbers::Numbers;
use bq_base_texts::{FaultLine, FaultLines};
use bq_label::Label;
use bq_package_target::{Target, TargetKind};
use bq_query_graph::RowList;
use std::alloc::{AllocError, Global};
use std::thread;
use std::thread::Threads;

/// How many targets a thread has to have to be worth its start.
const TARGETS_OF_A_THREAD: usize = 1_024;

/// What is found along the labels that targets depend on.
#[derive(Drop)]
pub struct Found {
    /// For each target the numbers of those that it depends on.
    pub rows: RowList,
    /// The lines of the labels that name no target.
    pub dangling: FaultLines,
}

/// What is found along the labels that some of the targets depend on.
#[derive(Drop)]
pub(crate) struct Part {
    /// For each of these targets the numbers of those that it depends on.
    rows: RowList,
    /// The lines of the labels that name no target, in the order in which they are found.
    dangling: Vec<FaultLine>,
}

/// A target that depends on others, and what these are found by.
#[derive(Clone, Copy)]
struct Source<'a> {
    target: &'a Target,
    labels: &'a Numbers<'a>,
    files: &'a BuildFiles,
}

/// Returns whether a label is the same as the one before it. The names are compared first, since they differ most often.
#[tactic(auto, unfolding(bq_label_set::specs::Labels::same_label))]
fn repeats(before: Option<&Label>, label: &Label) -> bool
    ensures { result ≡ repeats (option_copied before.entry) label.now }
{
    match before {
        None => false,
        Some(before) => {
            before.name() == label.name()
                && before.package() == label.package()
                && before.repo() == label.repo()
        }
    }
}

/// Appends the number of the target that the label names, or the line of a label that names none.
fn add_label(
    alloc: Global,
    source: Source<'_>,
    label: &Label,
    row: &mut Vec<usize>,
    lines: &mut Vec<FaultLine>,
) -> Result<(), AllocError>
    ensures row { OnOk result (row.new.items ≡ row.old.items ++ numbers_of source.entry.labels.now (label.now ∷ [])) }
    ensures lines { OnOk result (lines.new.items ≡ lines.old.items ++ dangling_to source.entry.labels.now source.entry.files.now source.entry.target.now (label.now ∷ [])) }
{
    match source.labels.number(label) {
        Some(to) => row.push(to)?,
        None => {
            let file = source.files.file_of(&source.target.label);
            add_dangling(alloc, file, source.target.line, label, lines)?;
        }
    }
    Ok(())
}

/// Appends the numbers of the targets that the labels name, and the lines of the labels that name none. A label that is named many
/// times in a row counts once, so that a list of millions of one label is one edge.
fn add_labels(
    alloc: Global,
    source: Source<'_>,
    named: &[Label],
    row: &mut Vec<usize>,
    lines: &mut Vec<FaultLine>,
) -> Result<(), AllocError>
    ensures row { OnOk result (row.new.items ≡ row.old.items ++ numbers_of source.entry.labels.now (unrepeated None named.now)) }
    ensures lines { OnOk result (lines.new.items ≡ lines.old.items ++ dangling_to source.entry.labels.now source.entry.files.now source.entry.target.now (unrepeated None named.now)) }
{
    let mut before: Option<&Label> = None;
    for label in named {
        if repeats(before, label) {
            continue;
        }
        add_label(alloc, source, label, row, lines)?;
        before = Some(label);
    }
    Ok(())
}

/// Appends what is found along the dependencies of a target to its row.
#[tactic(auto, unfolding(crate::specs::Edges::looked_up))]
fn add_dependencies(
    alloc: Global,
    source: Source<'_>,
    row: &mut Vec<usize>,
    lines: &mut Vec<FaultLine>,
) -> Result<(), AllocError>
    ensures row { OnOk result (row.new.items ≡ row.old.items ++ row_of source.entry.labels.now source.entry.target.now) }
    ensures lines { OnOk result (lines.new.items ≡ lines.old.items ++ dangling_at source.entry.labels.now source.entry.files.now source.entry.target.now) }
{
    if let TargetKind::Generated(rule) = &source.target.kind {
        return add_label(alloc, source, rule, row, lines);
    }
    let attributes = source.target.attributes.as_slice();
    for given in attributes {
        add_labels(alloc, source, given.value.labels(), row, lines)?;
    }
    Ok(())
}

/// Returns what is found along the dependencies of some of the targets, the first of which has this number.
fn found_in(
    alloc: Global,
    files: &BuildFiles,
    targets: &[Target],
    first: usize,
    part: &[Target],
) -> Result<Part, AllocError>
    requires ascending { IsStrictlySortedBy target_cmp targets.now }
    requires room { first + length part.now < 2 ^ 64 }
    ensures { IfOk result (IsFoundIn (target_labels targets.now) files.now part.now) }
{
    let mut labels = Numbers::of(targets);
    let mut rows = RowList::new(alloc)?;
    let mut row = Vec::new(alloc);
    let mut dangling = Vec::new(alloc);
    let mut number = first;
    for target in part {
        labels.enter(number);
        let source = Source {
            target,
            labels: &labels,
            files,
        };
        row.clear();
        add_dependencies(alloc, source, &mut row, &mut dangling)?;
        rows.push(&row)?;
        number += 1;
    }
    Ok(Part { rows, dangling })
}

/// Adds lines to those that are there.
fn add_lines(lines: Vec<FaultLine>, all: &mut FaultLines) -> Result<(), AllocError>
    ensures { OnOk result (all.new ≡ put_lines all.old lines.items) }
{
    for line in lines {
        all.add(line)?;
    }
    Ok(())
}

impl Found {
    /// Adds what is found along the targets that come next.
    fn add(&mut self, part: Part) -> Result<(), AllocError>
        ensures rows { OnOk result (self.new.rows ≡ self.old.rows ++ part.rows) }
        ensures lines { OnOk result (self.new.dangling ≡ put_lines self.old.dangling part.dangling.items) }
    {
        let Part { rows, dangling } = part;
        self.rows.append(rows)?;
        add_lines(dangling, &mut self.dangling)
    }
}

/// Joins what is found along one part of the targets after the other. If memory was refused to one of them, it fails too.
fn joined(alloc: Global, parts: Vec<Result<Part, AllocError>>) -> Result<Found, AllocError>
    ensures given { OnOk result (All IsOk parts.items) }
    ensures rows { IfOk result (λ f. f.rows ≡ flat_map part_rows parts.items) }
    ensures lines { IfOk result (λ f. f.dangling ≡ sorted_lines (flat_map part_lines parts.items)) }
{
    let mut found = Found {
        rows: RowList::new(alloc)?,
        dangling: FaultLines::new(alloc),
    };
    for one in parts {
        match one {
            Ok(part) => found.add(part)?,
            Err(_) => return Err(AllocError),
        }
    }
    Ok(found)
}

/// Returns the numbers of the targets that each target depends on, and the lines of the labels that name no target.
pub fn edges(alloc: Global, files: &BuildFiles, targets: &[Target]) -> Result<Found, AllocError>
    requires { IsStrictlySortedBy target_cmp targets.now }
    ensures rows { IfOk result (λ f. f.rows ≡ rows_of (target_labels targets.now) targets.now) }
    ensures lines { IfOk result (λ f. f.dangling ≡ sorted_lines (dangling_from (target_labels targets.now) files.now targets.now)) }
{
    let Part { rows, dangling } = found_in(alloc, files, targets, 0, targets)?;
    let mut lines = FaultLines::new(alloc);
    add_lines(dangling, &mut lines)?;
    Ok(Found {
        rows,
        dangling: lines,
    })
}

/// Returns what [`edges`] does. It is found by at most `threads` threads, each along a part of the targets.
pub fn edges_by<R: Threads + Sync>(
    rt: &R,
    alloc: Global,
    files: &BuildFiles,
    targets: &[Target],
    threads: usize,
) -> Result<Found, AllocError>
    requires { IsStrictlySortedBy target_cmp targets.now }
    ensures rows { IfOk result (λ f. f.rows ≡ rows_of (target_labels targets.now) targets.now) }
    ensures lines { IfOk result (λ f. f.dangling ≡ sorted_lines (dangling_from (target_labels targets.now) files.now targets.now)) }
{
    let each = |first: usize, part: &[Target]| -> Result<Part, AllocError>
        requires { (IsStrictlySortedBy target_cmp targets.now) × (first + length part.now < 2 ^ 64) }
        ensures { IfOk result (IsFoundIn (target_labels targets.entry.now) files.entry.now part.entry.now) }
    { found_in(alloc, files, targets, first, part) };
    let even = targets.len().div_ceil(threads.max(1));
    let size = even.max(TARGETS_OF_A_THREAD);
    let parts = thread::map_chunks(rt, alloc, targets, size, &each)?;
    joined(alloc, parts)
}
