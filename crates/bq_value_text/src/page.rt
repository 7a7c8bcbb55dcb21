//! What is written of a text.

ghost use Rattle.std.specs.Prelude.{◌≡◌, [], Some, None, OnOk, IsTrue};
ghost use Rattle.bq_base.specs.Gives.{Gives};
ghost use Rattle.bq_value.specs.declared.error.EvalErr.TheVariants.{Bad};
ghost use Rattle.bq_value_text.specs.Page.{written, finished};

use bq_base::{Bytes, EvalFault};
use bq_value::EvalErr;
use std::alloc::{AllocError, Global};
use std::marker::Model;

/// The most bytes of a text (F54).
pub const MAX_TEXT: usize = 1_048_576;

/// The bytes written so far. Once they would be more than `MAX_TEXT`, none is kept and no more is taken. Contracts see
/// the bytes, or none where they were too many.
#[derive(Drop)]
pub struct Page {
    bytes: Vec<u8>,
    is_over: bool,
}

impl Model for Page {
    ghost use Rattle.bq_value_text.specs.Page.{PageView, page_of};

    ghost Value = { PageView };

    ghost view = { λ p. page_of p.is_over p.bytes.items };
}

impl Page {
    /// Makes an empty page.
    pub fn new(alloc: Global) -> Page
        ensures { result ≡ Some [] }
    {
        Page {
            bytes: Vec::new(alloc),
            is_over: false,
        }
    }

    /// Returns whether too much was written, so that nothing more is taken.
    pub(crate) fn is_over(&self) -> bool
        ensures { IsTrue result → self.now ≡ None }
    {
        self.is_over
    }

    /// Appends `bytes`.
    #[tactic(auto, using(std::proofs::lemmas::Bool::Decides::nat_tests), unfolding(crate::specs::Page::written))]
    pub fn write(&mut self, bytes: &[u8]) -> Result<(), AllocError>
        ensures { OnOk result (self.new ≡ written self.old bytes.now) }
    {
        if self.is_over {
            return Ok(());
        }
        if bytes.len() > MAX_TEXT || self.bytes.len() > MAX_TEXT - bytes.len() {
            self.bytes.clear();
            self.is_over = true;
            return Ok(());
        }
        self.bytes.extend_from_slice(bytes)
    }

    /// Returns the text, or F54.
    pub fn finish(self, alloc: Global) -> Result<Bytes, EvalErr>
        ensures { Gives (λ text. text) Bad result (finished self) }
    {
        let Page { bytes, is_over } = self;
        if is_over {
            return Err(EvalErr::Bad(EvalFault::TooLong));
        }
        Ok(Bytes::from_vec(alloc, bytes)?)
    }
}
