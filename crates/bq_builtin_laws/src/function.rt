//! What holds of built-in functions. The functions do nothing: their contracts are the laws.

ghost use Rattle.std.specs.Prelude.{◌≡◌, ◌≢◌, ◌+◌, ◌++◌, ◌∷◌, [], ℕ, ℤ, pos, List, length, reverse, slice_get, Ok, true, false, codes, Any, All};
ghost use Rattle.bq_value.specs.Cells.{StoreView};
ghost use Rattle.bq_value.specs.Datum.{Datum, boolean, int, string, tuple, data_of};
ghost use Rattle.bq_value.specs.Truth.{truth_of};
ghost use Rattle.bq_builtin_machine.specs.Action.{done};
ghost use Rattle.bq_builtin_machine.specs.Iteration.{elements_in};
ghost use Rattle.bq_builtin_machine.specs.State.{State};
ghost use Rattle.bq_builtin.specs.Choosing.{sorted};
ghost use Rattle.bq_builtin.specs.Integers.{range};
ghost use Rattle.bq_builtin.specs.Sequences as sequences;
ghost use Rattle.bq_builtin.specs.Sequences.{reversed};
ghost use Rattle.bq_builtin.specs.Texts.{print};
ghost use Rattle.bq_builtin.specs.Truths.{all, any};
ghost use Rattle.bq_builtin_laws.specs.Functions.Words.{by_place, also_named, AreCounted};

/// `reversed` has each element as far from the end as it was from the start; what is reversed twice is as it was.
pub fn reversed_lists_go_backwards()
    ensures places { (s : StoreView) (x : Datum) (xs ys : List Datum) → elements_in s x ≡ Ok xs → reversed s (by_place (x ∷ [])) ≡ Ok ys → (i j : ℕ) → i + j + 1 ≡ length xs → slice_get ys i ≡ slice_get xs j }
    ensures twice { (s : StoreView) (x : Datum) (xs ys zs : List Datum) → elements_in s x ≡ Ok xs → reversed s (by_place (x ∷ [])) ≡ Ok ys → reversed s (by_place (tuple (data_of ys) ∷ [])) ≡ Ok zs → zs ≡ xs }
{}

/// `any` is true if one of the elements counts as true, and false if none does.
pub fn any_asks_for_one_element()
    ensures one { (s : StoreView) (x : Datum) (xs : List Datum) → elements_in s x ≡ Ok xs → Any (λ v. truth_of s v ≡ true) xs → any s (by_place (x ∷ [])) ≡ Ok (boolean true) }
    ensures none { (s : StoreView) (x : Datum) (xs : List Datum) → elements_in s x ≡ Ok xs → All (λ v. truth_of s v ≡ false) xs → any s (by_place (x ∷ [])) ≡ Ok (boolean false) }
{}

/// `all` is true if each of the elements counts as true, and false if one doesn't.
pub fn all_asks_for_every_element()
    ensures every { (s : StoreView) (x : Datum) (xs : List Datum) → elements_in s x ≡ Ok xs → All (λ v. truth_of s v ≡ true) xs → all s (by_place (x ∷ [])) ≡ Ok (boolean true) }
    ensures not_one { (s : StoreView) (x : Datum) (xs : List Datum) → elements_in s x ≡ Ok xs → Any (λ v. truth_of s v ≡ false) xs → all s (by_place (x ∷ [])) ≡ Ok (boolean false) }
{}

/// `range(stop)` counts from 0, `range(start, stop)` by 1, and `range(start, stop, step)` by its step, up to before the stop.
pub fn ranges_are_counted()
    ensures stop { (s : StoreView) (stop : ℤ) (v : Datum) (xs : List Datum) → range (by_place (int stop ∷ [])) ≡ Ok v → elements_in s v ≡ Ok xs → AreCounted (pos 0) stop (pos 1) xs }
    ensures start { (s : StoreView) (start stop : ℤ) (v : Datum) (xs : List Datum) → range (by_place (int start ∷ int stop ∷ [])) ≡ Ok v → elements_in s v ≡ Ok xs → AreCounted start stop (pos 1) xs }
    ensures step { (s : StoreView) (start stop step : ℤ) (v : Datum) (xs : List Datum) → range (by_place (int start ∷ int stop ∷ int step ∷ [])) ≡ Ok v → elements_in s v ≡ Ok xs → AreCounted start stop step xs }
{}

/// `print` of two strings prints both with a space between, or with the string `sep`, as one text after those before.
pub fn prints_have_the_separator_between()
    ensures space { (a b : List ℕ) (v : Datum) (s t : State) → print (by_place (string a ∷ string b ∷ [])) s ≡ done v t → t.prints ≡ s.prints ++ ((a ++ codes " ") ++ b) ∷ [] }
    ensures sep { (a b between : List ℕ) (v : Datum) (s t : State) → print (also_named (string a ∷ string b ∷ []) (codes "sep") (string between)) s ≡ done v t → t.prints ≡ s.prints ++ ((a ++ between) ++ b) ∷ [] }
{}

/// `list` and `tuple` have the elements, each once and in their order.
pub fn lists_and_tuples_have_the_elements()
    ensures list { (s : StoreView) (x : Datum) (xs ys : List Datum) → elements_in s x ≡ Ok xs → sequences.list s (by_place (x ∷ [])) ≡ Ok ys → ys ≡ xs }
    ensures tuple { (s : StoreView) (x : Datum) (xs : List Datum) (v : Datum) → elements_in s x ≡ Ok xs → sequences.tuple s (by_place (x ∷ [])) ≡ Ok v → v ≡ tuple (data_of xs) }
{}

/// `sorted(x, reverse = True)` is what `sorted(x)` is, from its end to its start.
pub fn reverse_turns_what_is_sorted()
    ensures { (s : StoreView) (x : Datum) (us zs : List Datum) → sorted s (by_place (x ∷ [])) ≡ Ok us → sorted s (also_named (x ∷ []) (codes "reverse") (boolean true)) ≡ Ok zs → zs ≡ reverse us }
{}
