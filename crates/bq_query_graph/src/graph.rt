//! Graphs of numbered targets.
ghost use Rattle.std.specs.Prelude.{◌≡◌, ℕ, ◌+◌, ◌<◌, ◌↔◌, List, length, IfOk};
ghost use Rattle.std.specs.List.{All};
ghost use Rattle.bq_query_graph.specs.Paths.{row, AreBelow, AreTurned};

use crate::row_list::RowList;
use crate::rows::Rows;
use std::alloc::{AllocError, Global};
use std::marker::Model;

/// The targets below a count, with edges between them, which can be followed both ways.
/// A contract sees it as the list that has, for each target, the targets that its edges lead to.
#[derive(Drop)]
pub struct DependencyGraph {
    /// For each target those that its edges lead to.
    pub(crate) forward: Rows,
    /// For each target those whose edges lead to it.
    pub(crate) back: Rows,
}

impl Model for DependencyGraph {
    ghost Value = { List (List ℕ) };

    ghost view = { λ g. g.forward };

    ghost invariant = { λ g. AreTurned g.forward g.back };
}

impl DependencyGraph {
    /// Makes the graph of targets with these rows.
    pub fn of_rows(alloc: Global, rows: RowList) -> Result<DependencyGraph, AllocError>
        requires { AreBelow rows }
        ensures { IfOk result (λ g. g ≡ rows) }
    {
        let back = Rows::turned(alloc, &rows)?;
        Ok(DependencyGraph {
            forward: Rows::of(rows),
            back,
        })
    }

    /// Returns the number of targets.
    pub fn len(&self) -> usize
        ensures count { result ≡ length self.now }
        ensures below { AreBelow self.now }
    {
        self.forward.len()
    }

    /// Returns the targets that the edges of the target `x` lead to.
    pub fn row(&self, x: usize) -> &[usize]
        requires { x < length self.now }
        ensures row { result.now ≡ row self.now x }
        ensures below { All (λ y. y < length self.now) result.now }
    {
        self.forward.row(x)
    }
}
