//! Laws of the definitions: each is the contract of a function that does nothing.

ghost use Rattle.std.specs.Prelude.{◌≡◌, ◌↔◌, ◌+◌, ◌≤◌, ℕ, suc, ℤ, List, None, Ok, Err, length};
ghost use Rattle.std.specs.Fmt.{signed_decimal};
ghost use Rattle.bq_base.specs.declared.fault.EvalFault.TheVariants.{TooDeep};
ghost use Rattle.bq_source.specs.StringLiteral.{quoted};
ghost use Rattle.bq_value.specs.Datum.{Datum, int, string};
ghost use Rattle.bq_value.specs.Cells.{StoreView};
ghost use Rattle.bq_value.specs.Looked.{max_levels};
ghost use Rattle.bq_value.specs.WalkLaws.{Takes, nested};
ghost use Rattle.bq_value_text.specs.Laws.{IsKeyInRange, HasText};
ghost use Rattle.bq_value_text.specs.Page.{PageView, max_text};
ghost use Rattle.bq_value_text.specs.Shown.{repr_shown, string_in, repr_of, text_of};

/// The `str` of a string is the string, and its `repr` is the literal that reads back as it; each takes one step. The
/// `str` of any other value is its `repr`.
pub fn the_text_of_a_string()
    ensures text { (s : StoreView) (n : ℕ) (bytes : List ℕ) → length bytes ≤ max_text → text_of s (suc n) (string bytes) ≡ Ok (bytes, n) }
    ensures repr { (s : StoreView) (n : ℕ) (bytes : List ℕ) → length (quoted bytes) ≤ max_text → repr_of s (suc n) (string bytes) ≡ Ok (quoted bytes, n) }
    ensures others { (s : StoreView) (n : ℕ) (v : Datum) → string_in v ≡ None → text_of s n v ≡ repr_of s n v }
{}

/// The `repr` of an integer is its decimal digits.
pub fn the_text_of_an_integer()
    ensures { (s : StoreView) (n : ℕ) (i : ℤ) → length (signed_decimal i) ≤ max_text → repr_of s (suc n) (int i) ≡ Ok (signed_decimal i, n) }
{}

/// A `repr` has the form of its value: in lists, tuples and dicts, `, ` between the texts of the values within, in brackets.
pub fn the_forms_of_texts()
    ensures { (s : StoreView) (n m : ℕ) (v : Datum) (t : List ℕ) → repr_of s n v ≡ Ok (t, m) → HasText max_levels s v t }
{}

/// Each level of a value takes a step, and 64 levels are written: the 65th is F55.
pub fn levels_and_steps_of_texts()
    ensures last { (s : StoreView) (page : PageView) (n : ℕ) → (p : PageView) × (repr_shown s page (64 + n) (nested 63) ≡ Ok (p, n)) }
    ensures next { (s : StoreView) (page : PageView) (n : ℕ) → repr_shown s page (65 + n) (nested 64) ≡ Err TooDeep }
{}

/// A text has a number of steps and an outcome of its own: with fewer steps it is F53, with more the rest is left.
pub fn steps_are_the_texts_own()
    ensures repr { (s : StoreView) (v : Datum) → Takes (λ n. repr_of s n v) }
    ensures text { (s : StoreView) (v : Datum) → Takes (λ n. text_of s n v) }
{}

/// Two keys have one `repr` only where they are one key, tuples too: `1`, `"1"`, `True` and `(1,)` are told apart.
pub fn keys_have_texts_of_their_own()
    ensures { (s : StoreView) (n m k j : ℕ) (v w : Datum) (t u : List ℕ) → IsKeyInRange v → IsKeyInRange w → repr_of s n v ≡ Ok (t, m) → repr_of s k w ≡ Ok (u, j) → (t ≡ u) ↔ (v ≡ w) }
{}
