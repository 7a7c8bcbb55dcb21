//! What a seat has seen and done. It occurs in contracts alone.
ghost use Rattle.std.specs.Prelude.{ℕ, List};
ghost use Rattle.std.specs.Borrow.{ftrue};

use std::marker::{Model, PhantomData};

/// The plan and the base of the board, which no step changes, and what this seat's steps were, in order of time.
/// No value of it is made.
pub struct View<B> {
    pub of: PhantomData<B>,
    pub ghost base: { B },
    pub ghost plan: { List (List ℕ) },
    // Edges that a look found posted, and edges that it found not posted.
    pub ghost seen: { List ℕ },
    pub ghost missed: { List ℕ },
    // Edges that this seat opened, posted and fetched.
    pub ghost opened: { List ℕ },
    pub ghost posted: { List ℕ },
    pub ghost fetched: { List ℕ },
    // Modules that this seat won, found claimed, and finished.
    pub ghost claimed: { List ℕ },
    pub ghost taken: { List ℕ },
    pub ghost finished: { List ℕ },
    // What `done` returned.
    pub ghost counts: { List ℕ },
    // How many more seats may be split off from this one: none, once the board is open.
    pub ghost spare: { ℕ },
}

impl<B> Model for View<B> {
    ghost also_owns = { λ _. ftrue };
}
