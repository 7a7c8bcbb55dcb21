//! The lines of faults of a run, in order.

ghost use Rattle.std.specs.Prelude.{◌≡◌, ◌↔◌, ◌++◌, [], IsTrue, IfOk, OnOk};
ghost use Rattle.std.specs.BTreeSet.{insert_key};
ghost use Rattle.std.specs.List.{flat_map};
ghost use Rattle.bq_base_texts.specs.FaultLine.{line_cmp, put_lines};
ghost use Rattle.bq_base_texts.specs.LineText.{line_text};

use crate::fault_line::FaultLine;
use crate::line_text::push_line;
use crate::rope::Rope;
use std::alloc::{AllocError, Global};
use std::collections::BTreeSet;
use std::marker::Model;

/// Lines of faults in their order, each once. Contracts see the list of them.
#[derive(Drop)]
pub struct FaultLines {
    lines: BTreeSet<FaultLine>,
}

impl Model for FaultLines {
    ghost use Rattle.std.specs.Prelude.{List};
    ghost use Rattle.bq_base_texts.specs.declared.fault_line.FaultLine.{FaultLine};

    ghost Value = { List FaultLine };

    ghost view = { λ s. s.lines.keys };
}

impl FaultLines {
    pub fn new(alloc: Global) -> FaultLines
        ensures { result ≡ [] }
    {
        FaultLines {
            lines: BTreeSet::new(alloc),
        }
    }

    pub fn is_empty(&self) -> bool
        ensures { IsTrue result ↔ (self.now ≡ []) }
    {
        self.lines.is_empty()
    }

    /// Inserts a line at its place, unless it is there.
    pub fn add(&mut self, line: FaultLine) -> Result<(), AllocError>
        ensures { OnOk result (self.new ≡ insert_key line_cmp self.old line) }
    {
        self.lines.insert(line)?;
        Ok(())
    }

    /// Inserts lines at their places, each unless it is there.
    pub fn add_all(&mut self, more: FaultLines) -> Result<(), AllocError>
        ensures { OnOk result (self.new ≡ put_lines self.old more) }
    {
        for line in more.lines {
            self.add(line)?;
        }
        Ok(())
    }

    /// Returns the lines in their order.
    pub fn lines(&self) -> &BTreeSet<FaultLine>
        ensures { result.now.keys ≡ self.now }
    {
        &self.lines
    }

    /// Returns the text of the lines.
    pub fn text(&self, alloc: Global) -> Result<Vec<u8>, AllocError>
        ensures { IfOk result (λ text. text.items ≡ flat_map line_text self.now) }
    {
        let mut text = Rope::new(alloc);
        for line in &self.lines {
            push_line(alloc, &mut text, line)?;
        }
        text.to_vec(alloc)
    }

    /// Appends the text of the lines. Each line is dropped once it is appended; a long detail is not copied.
    pub fn append_to(self, alloc: Global, text: &mut Rope) -> Result<(), AllocError>
        ensures { OnOk result (text.new ≡ text.old ++ flat_map line_text self) }
    {
        for line in self.lines {
            push_line(alloc, text, &line)?;
        }
        Ok(())
    }
}
