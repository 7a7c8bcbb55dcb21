//! A text whose long strings are shared.

ghost use Rattle.std.specs.Prelude.{◌≡◌, ◌++◌, [], IfOk, OnOk};
ghost use Rattle.std.specs.List.{concat};
ghost use Rattle.bq_base_texts.specs.Rope.{text_of};

use bq_base::Bytes;
use std::alloc::{AllocError, Global};
use std::marker::Model;
use std::mem;

/// The fewest bytes of a string that is shared. A shorter one is copied, so that many short ones lie in one place.
const LONG: usize = 1024;

/// A text. Contracts see the list of its bytes.
#[derive(Drop)]
pub struct Rope {
    /// What won't be appended to: long strings, and what stands between them.
    pieces: Vec<Bytes>,
    /// What comes after the pieces.
    rest: Vec<u8>,
}

impl Model for Rope {
    ghost use Rattle.std.specs.Prelude.{List, ℕ};

    ghost Value = { List ℕ };

    ghost use Rattle.bq_base_texts.specs.Rope.{text_of};

    ghost view = { λ r. text_of r.pieces.items r.rest.items };
}

/// The parts of a text: the pieces in a row, and then the rest.
#[derive(Clone, Copy)]
pub struct Parts<'a> {
    pub pieces: &'a [Bytes],
    pub rest: &'a [u8],
}

/// What a `Vec` holds. It is empty afterwards.
fn take_piece(alloc: Global, bytes: &mut Vec<u8>) -> Result<Bytes, AllocError>
    ensures piece { IfOk result (λ piece. piece ≡ bytes.old.items) }
    ensures empty { bytes.new.items ≡ [] }
{
    let taken = mem::replace(bytes, Vec::new(alloc));
    Bytes::from_vec(alloc, taken)
}

/// Appends strings, one after another.
fn push_pieces(text: &mut Vec<u8>, pieces: &[Bytes]) -> Result<(), AllocError>
    ensures { OnOk result (text.new.items ≡ text.old.items ++ concat pieces.now) }
{
    for piece in pieces {
        text.extend_from_slice(piece.as_slice())?;
    }
    Ok(())
}

impl Rope {
    /// The empty text.
    pub fn new(alloc: Global) -> Rope
        ensures { result ≡ [] }
    {
        Rope {
            pieces: Vec::new(alloc),
            rest: Vec::new(alloc),
        }
    }

    /// Appends a copy of these bytes.
    pub fn push_slice(&mut self, bytes: &[u8]) -> Result<(), AllocError>
        ensures { OnOk result (self.new ≡ self.old ++ bytes.now) }
    {
        self.rest.extend_from_slice(bytes)
    }

    /// Appends a string. A long one is shared.
    #[tactic(auto, using(crate::proofs::LongStrings::appended))]
    pub fn push_bytes(&mut self, alloc: Global, bytes: &Bytes) -> Result<(), AllocError>
        ensures { OnOk result (self.new ≡ self.old ++ bytes.now) }
    {
        if bytes.len() < LONG {
            return self.push_slice(bytes.as_slice());
        }
        self.pieces.push(take_piece(alloc, &mut self.rest)?)?;
        self.pieces.push(bytes.share()?)?;
        Ok(())
    }

    /// The parts that are the text.
    pub fn parts(&self) -> Parts<'_>
        ensures { text_of result.pieces.now result.rest.now ≡ self.now }
    {
        Parts {
            pieces: self.pieces.as_slice(),
            rest: self.rest.as_slice(),
        }
    }

    /// The text in one place.
    pub fn to_vec(&self, alloc: Global) -> Result<Vec<u8>, AllocError>
        ensures { IfOk result (λ text. text.items ≡ self.now) }
    {
        let mut text = Vec::new(alloc);
        push_pieces(&mut text, &self.pieces)?;
        text.extend_from_slice(&self.rest)?;
        Ok(text)
    }
}
