//! Laws of the definitions: each is the contract of a function that does nothing.

ghost use Rattle.std.specs.Prelude.{◌≡◌, ◌∷◌, [], ℕ, ℤ, negsuc, List, length, reverse, Option, None, Some, Ok};
ghost use Rattle.bq_value.specs.Datum.{Datum, string};
ghost use Rattle.bq_value.specs.Pairs.{found, put, HasNoKeyTwice};
ghost use Rattle.bq_builtin_strings.specs.Place.{clamped};
ghost use Rattle.bq_builtin_operators.specs.Union.{put_all, or_else};
ghost use Rattle.bq_builtin_methods.specs.List.{appended, inserted, popped, taken};
ghost use Rattle.bq_builtin_methods.specs.Dict.{with_default, taken_out};
ghost use Rattle.bq_builtin_methods.specs.CollectionLaws.{Dict, KeepsPlaces, UpdateLeaves};

/// Of the pairs that are inserted into a dict the last one of a key wins; a key without one keeps its value. Keys that
/// were there keep their places, and new ones go last.
pub fn pairs_that_are_put()
    ensures values { (key : Datum) (dict more : Dict) → found key (put_all dict more) ≡ or_else (found key (reverse more)) (found key dict) }
    ensures places { (dict more : Dict) → KeepsPlaces dict (put_all dict more) }
{}

/// After `d.update(e)` of two dicts, the pairs of `e` are in `d`, inserted in turn, also where both are the same dict;
/// after `d.update(e, name = value)` the name is too, as the last one.
pub fn a_dict_that_is_updated()
    ensures pairs { (dict more : Dict) → UpdateLeaves [] dict more (put_all dict more) }
    ensures name { (name : List ℕ) (value : Datum) (dict more : Dict) → UpdateLeaves ((name, value) ∷ []) dict more (put (string name) value (put_all dict more)) }
{}

/// What `setdefault` returns is the value that the key has then.
pub fn a_default_is_the_value()
    ensures { (key default answer : Datum) (dict after : Dict) → with_default key default dict ≡ Ok (answer, after) → found key after ≡ Some answer }
{}

/// After `pop` of a key, the dict lacks it.
pub fn a_key_that_is_popped_is_gone()
    ensures { (key answer : Datum) (default : Option Datum) (dict after : Dict) → HasNoKeyTwice dict → taken_out key default dict ≡ Ok (answer, after) → found key after ≡ None }
{}

/// `pop()` removes what was appended, and `pop` of its place what was inserted; the list is then as it was.
pub fn what_is_put_into_a_list_is_taken_out()
    ensures appended { (answer v : Datum) (list after : List Datum) → appended v list ≡ Ok (answer, after) → popped (negsuc 0) after ≡ Ok (v, list) }
    ensures inserted { (i : ℤ) (answer v : Datum) (list after : List Datum) → inserted i v list ≡ Ok (answer, after) → taken (clamped (length list) i) after ≡ Ok (v, list) }
{}
