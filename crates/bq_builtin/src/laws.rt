//! Laws of the definitions: each is the contract of a function that does nothing.

ghost use Rattle.std.specs.Prelude.{◌≡◌, ◌≤◌, ◌<◌, ◌+ℤ◌, ◌≤ℤ◌, ◌∷◌, ℕ, ℤ, pos, List, Some, Ok, Err, map, drop, length, slice_get, FitsSigned, IsPermutation, IsSorted};
ghost use Rattle.std.specs.Int.{w64};
ghost use Rattle.std.specs.Fmt.{signed_decimal};
ghost use Rattle.std.specs.Ordering.{int_cmp};
ghost use Rattle.bq_base.specs.declared.fault.EvalFault.TheVariants.{Args};
ghost use Rattle.bq_predeclared.specs.Predeclared.{built_in_names};
ghost use Rattle.bq_value.specs.Datum.{Datum, int, tuple, data_of};
ghost use Rattle.bq_value.specs.Cells.{StoreView};
ghost use Rattle.bq_builtin_machine.specs.Args.{Passed};
ghost use Rattle.bq_builtin_machine.specs.Iteration.{elements_in};
ghost use Rattle.bq_builtin.specs.Arguments.{by_place};
ghost use Rattle.bq_builtin.specs.Call.{functions};
ghost use Rattle.bq_builtin.specs.Integers.{read_integer, length_in};
ghost use Rattle.bq_builtin.specs.Order.{ascending};
ghost use Rattle.bq_builtin.specs.Choosing.{text_cmp, in_order, extreme};
ghost use Rattle.bq_builtin.specs.declared.choosing.ExtremeKind.TheVariants.{Greatest, Least};
ghost use Rattle.bq_builtin.specs.Sequences.{heads, rows, shortest, numbered, numbered_value};

/// The table of functions has the names that are predeclared, each at the same place.
pub fn functions_have_their_names()
    ensures { map (λ function. function.0) functions ≡ built_in_names }
{}

/// What is sorted has the same elements, and none is less than the one before it.
pub fn sorted_lists_have_the_elements_in_order()
    ensures elements { (xs ys : List Datum) → in_order xs ≡ Ok ys → IsPermutation xs ys }
    ensures integers { (is : List ℤ) → IsSorted int_cmp (ascending int_cmp is) }
    ensures strings { (ts : List (List ℕ)) → IsSorted text_cmp (ascending text_cmp ts) }
{}

/// The greatest of integers is one of them, and none is greater; likewise the least.
pub fn extremes_are_elements()
    ensures greatest { (is : List ℤ) (m : ℤ) → extreme Greatest (map int is) ≡ Ok (int m) → (k : ℕ) (i : ℤ) → slice_get is k ≡ Some i → i ≤ℤ m }
    ensures least { (is : List ℤ) (m : ℤ) → extreme Least (map int is) ≡ Ok (int m) → (k : ℕ) (i : ℤ) → slice_get is k ≡ Some i → m ≤ℤ i }
{}

/// `len(x)` is the number of elements of an iterable.
pub fn lengths_count_elements()
    ensures { (s : StoreView) (v : Datum) (xs : List Datum) (n : ℕ) → elements_in s v ≡ Ok xs → length_in s v ≡ Ok n → length xs ≡ n }
{}

/// `zip` gives as many tuples as the shortest list has elements, each of the elements at its place.
pub fn zip_goes_by_places()
    ensures count { (n : ℕ) (xss : List (List Datum)) → length (rows n xss) ≡ n }
    ensures shortest { (xss : List (List Datum)) (k : ℕ) (xs : List Datum) → slice_get xss k ≡ Some xs → shortest xss ≤ length xs }
    ensures tuples { (n : ℕ) (xss : List (List Datum)) (k : ℕ) → k < n → slice_get (rows n xss) k ≡ Some (tuple (data_of (heads (map (drop k) xss)))) }
{}

/// `enumerate` gives each element with its place, counted from the start.
pub fn enumerate_counts_from_the_start()
    ensures { (start : ℤ) (xs : List Datum) (k : ℕ) (x : Datum) → slice_get xs k ≡ Some x → slice_get (numbered start xs) k ≡ Some (numbered_value (start +ℤ pos k) x) }
{}

/// The text of an integer is read as this integer.
pub fn integers_are_read_back()
    ensures { (i : ℤ) → FitsSigned w64 i → read_integer (signed_decimal i) ≡ Ok i }
{}

/// A function with positional arguments alone refuses any that has a name, whatever the others are.
pub fn names_are_refused()
    ensures { (p : Passed) (name : List ℕ) (v : Datum) (named : List (List ℕ × Datum)) → p.named ≡ (name, v) ∷ named → by_place p ≡ Err Args }
{}
