//! What is written of a formatted text.

ghost use Rattle.std.specs.Prelude.{◌≡◌, OnOk};
ghost use Rattle.bq_base.specs.Gives.{Gives};
ghost use Rattle.bq_value.specs.declared.error.EvalErr.TheVariants.{Bad};
ghost use Rattle.bq_value.specs.Looked.{Looked};
ghost use Rattle.bq_builtin_format.specs.Percent.{blank, and_write, spoiled, finished_draft, decimal, shown};

use bq_base::{Bytes, EvalFault};
use bq_value::{EvalErr, Node, Store, Value};
use bq_value_text::{Page, write_repr, write_text};
use itoa::Buffer;
use std::alloc::{AllocError, Global};
use std::marker::Model;

/// The text so far, and whether something was malformed. Contracts see both.
#[derive(Drop)]
pub struct Draft {
    page: Page,
    is_malformed: bool,
}

impl Model for Draft {
    ghost use Rattle.bq_builtin_format.specs.Percent.{DraftView};

    ghost Value = { DraftView };

    ghost view = { λ d. record { page = d.page; malformed = d.is_malformed } };
}

impl Draft {
    /// Makes an empty draft.
    pub fn new(alloc: Global) -> Draft
        ensures { result ≡ blank }
    {
        Draft {
            page: Page::new(alloc),
            is_malformed: false,
        }
    }

    /// Appends `bytes`.
    pub fn write(&mut self, bytes: &[u8]) -> Result<(), AllocError>
        ensures { OnOk result (self.new ≡ and_write self.old bytes.now) }
    {
        self.page.write(bytes)
    }

    /// Notes that something was malformed.
    pub fn spoil(&mut self)
        ensures { self.new ≡ spoiled self.old }
    {
        self.is_malformed = true;
    }

    /// Writes an integer in decimal digits. Another value is malformed here.
    fn write_decimal(&mut self, value: &Value) -> Result<(), AllocError>
        ensures { OnOk result (self.new ≡ decimal self.old value.now) }
    {
        match &value.node {
            Node::Int(number) => self.write(Buffer::new().format(*number).as_bytes()),
            _ => {
                self.spoil();
                Ok(())
            }
        }
    }

    /// Writes a value by the conversion of this name, and returns how many of the steps are left.
    pub fn show(
        &mut self,
        store: &Store,
        steps: u64,
        kind: u8,
        value: &Value,
    ) -> Result<u64, EvalErr>
        ensures { Gives (λ left. (self.new, left)) Bad result (shown store.now self.old steps kind value.now) }
    {
        if kind == b's' {
            return write_text(store, steps, value, &mut self.page);
        }
        if kind == b'r' {
            return write_repr(store, steps, value, &mut self.page);
        }
        self.write_decimal(value)?;
        Ok(steps)
    }

    /// Returns the text; F59 if something was malformed, or else F54 if it is too long.
    pub fn finish(self, alloc: Global) -> Result<Bytes, EvalErr>
        ensures { Gives (λ text. text) Bad result (finished_draft self) }
    {
        let Draft { page, is_malformed } = self;
        if is_malformed {
            return Err(EvalErr::Bad(EvalFault::Format));
        }
        page.finish(alloc)
    }
}
