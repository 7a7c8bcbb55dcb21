//! The seven kinds of step on the board's table, and the splitting of a seat: what each means to its seat.
ghost use Rattle.std.specs.Prelude.{ℕ, ◌-◌};
ghost use Rattle.bq_board.specs.Board.{blank};
ghost use Rattle.bq_board.specs.Steps.{looked, tried, opened, posted, fetched, added, counted};

use crate::parcel::Parcel;
use crate::view::View;
use atomic_table::{Play, Split};
use std::marker::{Brand, PhantomData};

/// The load of an edge's word.
pub struct Look;

impl<V, B> Play<Option<V>, View<B>> for Look {
    ghost then = { looked };
}

/// The exchange of a module's word, 0 to 1.
pub struct TryClaim;

impl<V, B> Play<Option<V>, View<B>> for TryClaim {
    ghost then = { tried };
}

/// An edge's word from 0 to 3: its empty slot goes to the seat.
pub struct OpenEdge;

impl<V, B> Play<Option<V>, View<B>> for OpenEdge {
    ghost then = { opened };
}

/// An edge's word from 3 to 1: its filled slot goes back to the board.
pub struct PostEdge;

impl<V, B> Play<Option<V>, View<B>> for PostEdge {
    ghost then = { posted };
}

/// An edge's word from 1 to 2: its filled slot goes to the seat.
pub struct FetchEdge<V> {
    of: PhantomData<V>,
}

impl<V: Parcel> Play<Option<V>, View<V::Base>> for FetchEdge<V> {
    ghost then = { fetched V.belongs };
}

/// Which module is finished: a step that adds 1 to a count doesn't say it.
pub trait Numbered {
    ghost number: { ℕ };
}

impl Numbered for Brand {
    ghost number = { 0 };
}

/// One more finished module.
pub struct AddDone<M> {
    of: PhantomData<M>,
}

impl<V, B, M: Numbered> Play<Option<V>, View<B>> for AddDone<M> {
    ghost then = { added M.number };
}

/// The load of the number of finished modules.
pub struct LoadDone;

impl<V, B> Play<Option<V>, View<B>> for LoadDone {
    ghost then = { counted };
}

/// One more seat, which has done nothing, split off from one that may still be split.
pub struct Fresh;

impl<B> Split<View<B>> for Fresh {
    ghost left = { λ v. record v { spare = v.spare - 1 } };

    ghost right = { λ v. blank v.base v.plan };
}
