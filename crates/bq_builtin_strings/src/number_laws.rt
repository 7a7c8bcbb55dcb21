//! Laws of the definitions. The gate proves what a contract names, so each law is the contract of a function that does
//! nothing.

ghost use Rattle.std.specs.Prelude.{◌≡◌, ◌≢◌, ◌<◌, ◌≤◌, ◌+◌, ℕ, ℤ, pos, negsuc, neg_ℤ, ◌+ℤ◌, ◌*ℤ◌, ◌≤ℤ◌, ◌<ℤ◌, ◌↔◌, true, List, ◌∷◌, ◌++◌, reverse, None, Some, Ok, Err, Option, length};
ghost use Rattle.bq_builtin_strings.specs.RangeItem.{range_has, IsElement};
ghost use Rattle.bq_base.specs.declared.fault.EvalFault.TheVariants.{Index};
ghost use Rattle.bq_builtin_strings.specs.Place.{clamped, indexed};
ghost use Rattle.bq_builtin_strings.specs.Slice.{slice_start, slice_count, slice_place, slice_of, AreElements};
ghost use Rattle.bq_builtin_strings.specs.Division.{floor_quotient, floor_rest, IsRestOf};

/// The dividend is the divisor times the quotient, plus the rest. The rest is 0 or lies between 0 and the divisor.
pub fn quotient_and_rest()
    ensures whole { (x y : ℤ) → (y ≢ pos 0) → (floor_quotient x y *ℤ y) +ℤ floor_rest x y ≡ x }
    ensures between { (x y : ℤ) → (y ≢ pos 0) → IsRestOf y (floor_rest x y) }
{}

/// Each place that a slice takes is the place of an element.
pub fn places_of_a_slice()
    ensures { (len : ℕ) (start stop : Option ℤ) (step : ℤ) (k : ℕ) → step ≢ pos 0 → k < slice_count len start stop step → (pos 0 ≤ℤ slice_place len start step k) × (slice_place len start step k <ℤ pos len) }
{}

/// A slice has as many elements as places, each the one of its place.
pub fn elements_of_a_slice()
    ensures { (xs : List ℕ) (start stop : Option ℤ) (step : ℤ) → step ≢ pos 0 → AreElements xs (slice_count (length xs) start stop step) (slice_start (pos (length xs)) step start) step (slice_of xs start stop step) }
{}

/// A slice without bounds, of step 1, is the whole.
pub fn a_whole_slice()
    ensures { (xs : List ℕ) → slice_of xs None None (pos 1) ≡ xs }
{}

/// Of a list that consists of three parts, the middle part is the slice from the first part's length to that of the
/// first two, counted from the start or from the end. A bound past an end means that end.
pub fn slices_are_parts()
    ensures from_start { (before part after : List ℕ) → slice_of (before ++ (part ++ after)) (Some (pos (length before))) (Some (pos (length before + length part))) (pos 1) ≡ part }
    ensures from_end { (before part after : List ℕ) → 0 < length after → slice_of (before ++ (part ++ after)) (Some (neg_ℤ (pos (length part + length after)))) (Some (neg_ℤ (pos (length after)))) (pos 1) ≡ part }
    ensures past_the_ends { (xs : List ℕ) (m n : ℕ) → length xs ≤ m → length xs ≤ n → slice_of xs (Some (neg_ℤ (pos m))) (Some (pos n)) (pos 1) ≡ xs }
{}

/// A slice without bounds, of step -1, is the list from its last element to its first.
pub fn a_slice_backwards()
    ensures { (xs : List ℕ) → slice_of xs None None (negsuc 0) ≡ reverse xs }
{}

/// An element's index is the number of elements before it, or, counted from the end, -1 minus the number of those after it. Any
/// other index is F43.
pub fn indices_count_from_both_ends()
    ensures from_start { (before : List ℕ) (x : ℕ) (after : List ℕ) → indexed (length (before ++ x ∷ after)) (pos (length before)) ≡ Ok (length before) }
    ensures from_end { (before : List ℕ) (x : ℕ) (after : List ℕ) → indexed (length (before ++ x ∷ after)) (negsuc (length after)) ≡ Ok (length before) }
    ensures past { (len n : ℕ) → len ≤ n → (indexed len (pos n) ≡ Err Index) × (indexed len (negsuc n) ≡ Err Index) }
{}

/// The places where `insert` puts an element and where a search begins are counted from both ends too, but an index
/// past an end means that end.
pub fn places_count_from_both_ends()
    ensures from_start { (before after : List ℕ) → clamped (length (before ++ after)) (pos (length before)) ≡ length before }
    ensures from_end { (before after : List ℕ) → 0 < length after → clamped (length (before ++ after)) (neg_ℤ (pos (length after))) ≡ length before }
    ensures past { (len n : ℕ) → len ≤ n → (clamped len (pos n) ≡ len) × (clamped len (neg_ℤ (pos n)) ≡ 0) }
{}

/// An integer is in a range exactly where it is one of its elements.
pub fn integers_of_a_range()
    ensures { (start stop step n : ℤ) → (step ≢ pos 0) → (range_has start stop step n ≡ true) ↔ IsElement start stop step n }
{}
