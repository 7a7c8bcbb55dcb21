//! The lines of faults that are printed, and their order.

ghost use Rattle.std.specs.Prelude.{◌≡◌, ◌↔◌, List, refl};
ghost use Rattle.std.specs.Cmp.{po, partial_equiv_from_equiv, eq_by_cmp_equiv};
ghost use Rattle.std.specs.List.{Contains};
ghost use Rattle.std.specs.List.Sorted.{IsStrictlySortedBy};
ghost use Rattle.std.specs.Ordering.{eq_by_cmp, as_partial_cmp};
ghost use Rattle.bq_base_texts.specs.FaultLine.{line_cmp, line_cmp_total, sorted_lines};

use bq_base::{Bytes, FaultKind};
use std::cmp::Ordering;

/// A fault of a file as it is printed.
///
/// Lines are ordered by the bytes of the label, then by the line's number, then by the fault's number, then by the
/// bytes of the detail.
#[derive(Debug, Drop)]
pub struct FaultLine {
    /// The file's label in full form.
    pub label: Bytes,
    /// The line that the fault names, from 1.
    pub line: u32,
    pub kind: FaultKind,
    /// The name, label or symbol that the fault is about; empty for most.
    pub detail: Bytes,
}

impl PartialEq for FaultLine {
    ghost eq = { eq_by_cmp line_cmp };

    ghost laws = { partial_equiv_from_equiv (eq_by_cmp_equiv line_cmp_total) };

    fn eq(&self, other: &FaultLine) -> bool {
        self.cmp(other).is_eq()
    }
}

impl Eq for FaultLine {
    ghost laws = { eq_by_cmp_equiv line_cmp_total };
}

impl PartialOrd for FaultLine {
    ghost partial_cmp = { as_partial_cmp line_cmp };

    ghost laws = { po line_cmp_total (λ x y. refl) };

    fn partial_cmp(&self, other: &FaultLine) -> Option<Ordering> {
        Some(self.cmp(other))
    }
}

impl Ord for FaultLine {
    ghost cmp = { line_cmp };

    ghost total = { line_cmp_total };

    ghost matches_partial_cmp = { λ x y. refl };

    ghost matches_eq = { λ x y. refl };

    fn cmp(&self, other: &FaultLine) -> Ordering {
        self.label
            .cmp(&other.label)
            .then_with(|| self.line.cmp(&other.line))
            .then_with(|| self.kind.number().cmp(&other.kind.number()))
            .then_with(|| self.detail.cmp(&other.detail))
    }
}

/// The lines of a run, sorted, are in ascending order, are the run's lines, and are the only such list.
pub fn one_order_of_lines()
    ensures ascending { (lines : List FaultLine) → IsStrictlySortedBy line_cmp (sorted_lines lines) }
    ensures same { (lines : List FaultLine) (line : FaultLine) → Contains (sorted_lines lines) line ↔ Contains lines line }
    ensures only { (lines sorted : List FaultLine) → IsStrictlySortedBy line_cmp sorted → ((line : FaultLine) → Contains sorted line ↔ Contains lines line) → sorted ≡ sorted_lines lines }
{}
