//! A text that is made piece by piece. A long piece that the text has already is shared, not copied.

ghost use Rattle.std.specs.Prelude.{◌≡◌, ◌≤◌, ◌++◌, ◌∷◌, [], length, IfOk, IfSome, OnOk};
ghost use Rattle.std.specs.List.{concat};

use bq_base::Bytes;
use bq_base_texts::{NameSet, Parts, Rope};
use std::alloc::{AllocError, Global};
use std::marker::Model;
use std::mem;

/// The fewest bytes of a piece that is looked up: a rope copies shorter ones.
pub(crate) const LONG: usize = 1024;

/// How many bytes of lines lie in one place, or somewhat more. They nearly fill a `Vec` that doubles its room.
const BLOCK: usize = 60_000;

/// A text. Contracts see the list of its bytes.
pub struct SharedText {
    /// What won't be appended to.
    done: Rope,
    /// What comes after it.
    pub(crate) rest: Vec<u8>,
    /// Where in the rest a piece begins.
    from: usize,
    /// The long pieces, each once.
    pieces: NameSet,
}

impl Drop for SharedText {
    // PROOF: a drop that is written out is proved here alone, and a derived one in each crate that drops a text
    fn drop(self) {
        let SharedText {
            done: _,
            rest: _,
            from: _,
            pieces: _,
        } = self;
    }
}

impl Model for SharedText {
    ghost use Rattle.std.specs.Prelude.{List, ℕ, ◌++◌};

    ghost Value = { List ℕ };

    ghost view = { λ t. t.done ++ t.rest.items };
}

/// Returns the share of these bytes among the pieces, if they are there.
fn piece_of<'a>(pieces: &'a NameSet, bytes: &[u8]) -> Option<&'a Bytes>
    ensures { IfSome result (λ piece. piece.now ≡ bytes.now) }
{
    let piece = pieces.as_slice().get(pieces.place(bytes)?)?;
    if piece.as_slice() != bytes {
        return None;
    }
    Some(piece)
}

/// Returns these bytes as one of the pieces.
fn shared(alloc: Global, pieces: &mut NameSet, bytes: &[u8]) -> Result<Bytes, AllocError>
    ensures { IfOk result (λ piece. piece ≡ bytes.now) }
{
    if let Some(piece) = piece_of(pieces, bytes) {
        return piece.share();
    }
    let piece = Bytes::from_slice(alloc, bytes)?;
    pieces.add(&piece)?;
    Ok(piece)
}

/// Appends strings, one after another. Long ones are shared.
fn push_pieces(alloc: Global, text: &mut Rope, pieces: &[Bytes]) -> Result<(), AllocError>
    ensures { OnOk result (text.new ≡ text.old ++ concat pieces.now) }
{
    for piece in pieces {
        text.push_bytes(alloc, piece)?;
    }
    Ok(())
}

/// Moves bytes to the end of a text.
fn settle(alloc: Global, done: &mut Rope, rest: &mut Vec<u8>) -> Result<(), AllocError>
    ensures done { OnOk result (done.new ≡ done.old ++ rest.old.items) }
    ensures rest { OnOk result (rest.new.items ≡ []) }
{
    let bytes = mem::replace(rest, Vec::new(alloc));
    done.push_bytes(alloc, &Bytes::from_vec(alloc, bytes)?)
}

/// Moves the bytes before a place to the end of a text. Those from another place on are one of the pieces.
#[tactic(auto, using(crate::proofs::Shares::cut_in_three, crate::proofs::Shares::within_front))]
fn share(
    alloc: Global,
    done: &mut Rope,
    rest: &mut Vec<u8>,
    pieces: &mut NameSet,
    from: usize,
    to: usize,
) -> Result<(), AllocError>
    requires order { from ≤ to }
    requires within { to ≤ length rest.old.items }
    ensures { OnOk result (done.new ++ rest.new.items ≡ done.old ++ rest.old.items) }
{
    let after = rest[to..].to_vec(alloc)?;
    rest.truncate(to);
    let piece = shared(alloc, pieces, &rest[from..])?;
    done.push_slice(&rest[..from])?;
    done.push_bytes(alloc, &piece)?;
    *rest = after;
    Ok(())
}

impl SharedText {
    /// The empty text.
    pub fn new(alloc: Global) -> SharedText
        ensures { result ≡ [] }
    {
        SharedText {
            done: Rope::new(alloc),
            rest: Vec::new(alloc),
            from: 0,
            pieces: NameSet::new(alloc),
        }
    }

    /// Appends a byte.
    pub(crate) fn push(&mut self, byte: u8) -> Result<(), AllocError>
        ensures { OnOk result (self.new ≡ self.old ++ byte ∷ []) }
    {
        self.rest.push(byte)?;
        Ok(())
    }

    /// Ends a line.
    #[tactic(auto, using(crate::proofs::Shares::settled))]
    pub(crate) fn end_line(&mut self, alloc: Global) -> Result<(), AllocError>
        ensures { OnOk result (self.new ≡ self.old ++ 10 ∷ []) }
    {
        self.rest.push(b'\n')?;
        if self.rest.len() < BLOCK {
            return Ok(());
        }
        self.from = 0;
        settle(alloc, &mut self.done, &mut self.rest)
    }

    /// Begins a piece.
    pub(crate) fn begin_piece(&mut self)
        ensures { self.new ≡ self.old }
    {
        self.from = self.rest.len();
    }

    /// Ends the piece so many bytes before the end of the text, where the next one begins. A long one is shared.
    pub(crate) fn end_piece(&mut self, alloc: Global, after: usize) -> Result<(), AllocError>
        ensures { OnOk result (self.new ≡ self.old) }
    {
        let from = self.from;
        let to = self.rest.len().saturating_sub(after);
        self.from = to;
        if to.saturating_sub(from) < LONG {
            return Ok(());
        }
        self.from = 0;
        share(
            alloc,
            &mut self.done,
            &mut self.rest,
            &mut self.pieces,
            from,
            to,
        )
    }

    /// Appends a text.
    #[tactic(auto, using(crate::proofs::Shares::all_settled))]
    pub fn push_rope(&mut self, alloc: Global, text: &Rope) -> Result<(), AllocError>
        ensures { OnOk result (self.new ≡ self.old ++ text.now) }
    {
        self.from = 0;
        settle(alloc, &mut self.done, &mut self.rest)?;
        let Parts { pieces, rest } = text.parts();
        push_pieces(alloc, &mut self.done, pieces)?;
        self.done.push_slice(rest)
    }

    /// Returns the text as a rope.
    pub fn into_rope(self, alloc: Global) -> Result<Rope, AllocError>
        ensures { IfOk result (λ text. text ≡ self) }
    {
        let SharedText {
            mut done,
            mut rest,
            from: _,
            pieces: _,
        } = self;
        settle(alloc, &mut done, &mut rest)?;
        Ok(done)
    }
}
