//! Laws of the definitions. The gate proves what a contract names, so each law is the contract of a function that does
//! nothing.

ghost use Rattle.std.specs.Prelude.{◌≡◌, ◌≢◌, ◌++◌, ◌∷◌, [], List, Some, None, cond, is_some};
ghost use Rattle.bq_value_datum.specs.Datum.{Datum};
ghost use Rattle.bq_value_dict.specs.Pairs.{found, put, without, keys, TakenOut, HasNoKeyTwice};

/// A key that was inserted has the new value; every other key has the value that it had.
pub fn a_pair_that_is_put()
    ensures value { (k v : Datum) (pairs : List (Datum × Datum)) → found k (put k v pairs) ≡ Some v }
    ensures others { (j k v : Datum) (pairs : List (Datum × Datum)) → j ≢ k → found j (put k v pairs) ≡ found j pairs }
{}

/// A key that was there keeps its place, and a new one goes last.
pub fn places_of_keys()
    ensures { (k v : Datum) (pairs : List (Datum × Datum)) → keys (put k v pairs) ≡ cond (is_some (found k pairs)) (keys pairs) (keys pairs ++ k ∷ []) }
{}

/// Removing a key removes its pair alone, and keeps the order of the rest.
pub fn a_key_that_is_taken_out()
    ensures there { (k v : Datum) (pairs : List (Datum × Datum)) → found k pairs ≡ Some v → TakenOut k v pairs (without k pairs) }
    ensures absent { (k : Datum) (pairs : List (Datum × Datum)) → found k pairs ≡ None → without k pairs ≡ pairs }
{}

/// No key is twice in `{}`, and inserting or removing a pair keeps it so.
pub fn keys_stay_distinct()
    ensures empty { HasNoKeyTwice [] }
    ensures put { (k v : Datum) (pairs : List (Datum × Datum)) → HasNoKeyTwice pairs → HasNoKeyTwice (put k v pairs) }
    ensures without { (k : Datum) (pairs : List (Datum × Datum)) → HasNoKeyTwice pairs → HasNoKeyTwice (without k pairs) }
{}
