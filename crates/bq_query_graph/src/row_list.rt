//! Rows of targets that are made one after another.
ghost use Rattle.std.specs.Prelude.{◌≡◌, ◌∷◌, ◌++◌, [], ◌+◌, ◌<◌, ◌≤◌, ◌^◌, length, map, IfOk, OnOk, vec_len, vec_capacity};
ghost use Rattle.std.specs.List.{All};
ghost use Rattle.bq_query_graph.specs.Paths.{row, AreBelow};
ghost use Rattle.bq_query_graph.specs.Rows.{flat};

use crate::rows::part;
use std::alloc::{AllocError, Global};
use std::marker::Model;

/// For each target the targets that its edges lead to. A contract sees it as the list of these lists.
#[derive(Drop)]
pub struct RowList {
    /// Where each row begins, and where the last one ends.
    pub(crate) starts: Vec<usize>,
    /// The rows one after another.
    pub(crate) heads: Vec<usize>,
}

impl Model for RowList {
    ghost use Rattle.std.specs.Prelude.{ℕ, List};
    ghost use Rattle.bq_query_graph.specs.Rows.{rows, IsFlat};

    ghost Value = { List (List ℕ) };

    ghost view = { λ g. rows g.starts.items g.heads.items };

    ghost invariant = { λ g. IsFlat (rows g.starts.items g.heads.items) g.starts.items g.heads.items };
}

/// Appends the places of rows, which lie further on by a number of targets.
fn add_places(starts: &mut Vec<usize>, further: &[usize], by: usize)
    requires room { vec_len starts.old + length further.now ≤ vec_capacity starts.old }
    requires fit { All (λ n. by + n < 2 ^ 64) further.now }
    ensures { starts.new.items ≡ starts.old.items ++ map (λ n. by + n) further.now }
{
    for start in further {
        starts.push_reserved(by + *start);
    }
}

impl RowList {
    /// Makes a list that has no row.
    pub fn new(alloc: Global) -> Result<RowList, AllocError>
        ensures { IfOk result (λ g. g ≡ []) }
    {
        let mut starts = Vec::new(alloc);
        starts.push(0)?;
        Ok(RowList {
            starts,
            heads: Vec::new(alloc),
        })
    }

    /// Returns the number of rows.
    pub fn len(&self) -> usize
        ensures { result ≡ length self.now }
    {
        self.starts.len() - 1
    }

    /// Returns how many targets the rows have together.
    pub(crate) fn edges(&self) -> usize
        ensures { result ≡ length (flat self.now) }
    {
        self.heads.len()
    }

    /// Appends a row.
    pub fn push(&mut self, row: &[usize]) -> Result<(), AllocError>
        ensures { OnOk result (self.new ≡ self.old ++ row.now ∷ []) }
    {
        self.starts.reserve(1)?;
        self.heads.extend_from_slice(row)?;
        let end = self.heads.len();
        self.starts.push_reserved(end);
        Ok(())
    }

    /// Appends the rows of another list. An empty list takes them over as they are.
    pub fn append(&mut self, other: RowList) -> Result<(), AllocError>
        ensures { OnOk result (self.new ≡ self.old ++ other) }
    {
        if self.len() == 0 {
            *self = other;
            return Ok(());
        }
        let RowList { starts, mut heads } = other;
        let before = self.heads.len();
        self.starts.reserve(starts.len())?;
        self.heads.append(&mut heads)?;
        add_places(&mut self.starts, &starts[1..], before);
        Ok(())
    }

    /// Returns the row of target `x`.
    pub(crate) fn row(&self, x: usize) -> &[usize]
        requires x { x < length self.now }
        requires below { AreBelow self.now }
        ensures row { result.now ≡ row self.now x }
        ensures below { All (λ y. y < length self.now) result.now }
    {
        part(&self.starts, &self.heads, x)
    }
}
