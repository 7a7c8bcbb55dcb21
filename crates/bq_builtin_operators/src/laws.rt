//! Laws of the definitions: each is the contract of a function that does nothing.

ghost use Rattle.std.specs.Prelude.{◌≡◌, ◌+◌, ◌*◌, ◌++◌, ℕ, List, length};
ghost use Rattle.bq_value.specs.Datum.{Datum};
ghost use Rattle.bq_value.specs.Pairs.{found, HasNoKeyTwice};
ghost use Rattle.bq_builtin_operators.specs.Sequence.{copies};
ghost use Rattle.bq_builtin_operators.specs.Union.{put_all, or_else};

/// Repeating `m + n` times is repeating `m` times and then `n` times; and what is repeated `n` times is `n` times as
/// long.
pub fn repetition_adds()
    ensures copies { (xs : List ℕ) (m n : ℕ) → copies xs (m + n) ≡ copies xs m ++ copies xs n }
    ensures len { (xs : List ℕ) (n : ℕ) → length (copies xs n) ≡ length xs * n }
{}

/// A union has the value that the right dict has for a key, and else the one of the left dict.
pub fn values_of_a_union()
    ensures { (key : Datum) (left right : List (Datum × Datum)) → HasNoKeyTwice right → found key (put_all left right) ≡ or_else (found key right) (found key left) }
{}
