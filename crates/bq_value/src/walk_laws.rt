//! Laws of the definitions: each is the contract of a function that does nothing.

ghost use Rattle.std.specs.Prelude.{◌≡◌, ◌≢◌, ◌↔◌, ◌+◌, ℕ, suc, ℤ, Bool, true, false, List, Ok, Err};
ghost use Rattle.std.specs.declared.cmp.Ordering.{Ordering};
ghost use Rattle.std.specs.declared.cmp.Ordering.TheVariants.{Less, Equal};
ghost use Rattle.std.specs.Ordering.{int_cmp, nat_cmp, bool_cmp, ordering_reverse};
ghost use Rattle.std.specs.Cmp.Lexicographic.{slice_cmp};
ghost use Rattle.bq_base.specs.declared.fault.EvalFault.TheVariants.{TooDeep, Unhashable};
ghost use Rattle.bq_value_datum.specs.Class.{Class};
ghost use Rattle.bq_value_datum.specs.AttributeSame.{same_attribute};
ghost use Rattle.bq_value_datum.specs.declared.attribute.Attribute.{Attribute};
ghost use Rattle.bq_value.specs.Datum.{Datum, boolean, int, string, tuple, range, cell, function, attribute, Data, list_of};
ghost use Rattle.bq_value.specs.Key.{IsKey};
ghost use Rattle.bq_value.specs.Cells.{StoreView, HoldsList, HoldsRule};
ghost use Rattle.bq_value.specs.Looked.{max_levels};
ghost use Rattle.bq_value.specs.Equality.{equal_at};
ghost use Rattle.bq_value.specs.Order.{ordered_at};
ghost use Rattle.bq_value.specs.KeyWalk.{walked_at, keyed};
ghost use Rattle.bq_value.specs.WalkLaws.{Equals, Ordered, KeysAreDistinct, kind_of, Decided, Takes, HaveSameElements, nested};

/// Where `==` answers, it is an equivalence.
pub fn equality_is_an_equivalence()
    ensures reflexive { (s : StoreView) → KeysAreDistinct s → (a : Datum) (so : Bool) → Equals s a a so → so ≡ true }
    ensures symmetric { (s : StoreView) → KeysAreDistinct s → (a b : Datum) (so back : Bool) → Equals s a b so → Equals s b a back → so ≡ back }
    ensures transitive { (s : StoreView) (a b c : Datum) (so : Bool) → Equals s a b true → Equals s b c true → Equals s a c so → so ≡ true }
{}

/// Values of unlike types differ: `True` is no integer, and a list no tuple.
pub fn unlike_types_differ()
    ensures { (s : StoreView) (a b : Datum) (so : Bool) → kind_of s a ≢ kind_of s b → Equals s a b so → so ≡ false }
{}

/// A key is equal only to itself.
pub fn equal_keys_are_one()
    ensures { (s : StoreView) → KeysAreDistinct s → (a b : Datum) (so : Bool) → IsKey a → Equals s a b so → (so ≡ true) ↔ (a ≡ b) }
{}

/// Where the order answers, it is a strict order that agrees with `==`: exactly one of less, equal and greater holds.
pub fn less_is_an_order()
    ensures itself { (s : StoreView) → KeysAreDistinct s → (a : Datum) (so : Ordering) → Ordered s a a so → so ≡ Equal }
    ensures turned { (s : StoreView) → KeysAreDistinct s → (a b : Datum) (so back : Ordering) → Ordered s a b so → Ordered s b a back → back ≡ ordering_reverse so }
    ensures transitive { (s : StoreView) → KeysAreDistinct s → (a b c : Datum) (so : Ordering) → Ordered s a b Less → Ordered s b c Less → Ordered s a c so → so ≡ Less }
    ensures equal { (s : StoreView) → KeysAreDistinct s → (a b : Datum) (so : Ordering) (same : Bool) → Ordered s a b so → Equals s a b same → (so ≡ Equal) ↔ (same ≡ true) }
{}

/// Two bools, two integers and two strings always have an order: that of their type.
pub fn plain_values_have_an_order()
    ensures bools { (s : StoreView) (a b : Bool) → Ordered s (boolean a) (boolean b) (bool_cmp a b) }
    ensures ints { (s : StoreView) (a b : ℤ) → Ordered s (int a) (int b) (int_cmp a b) }
    ensures strings { (s : StoreView) (a b : List ℕ) → Ordered s (string a) (string b) (slice_cmp nat_cmp a b) }
{}

/// Tuples and lists are ordered by their first unequal elements; where one ends before these, it is less.
pub fn first_unequal_place_decides()
    ensures tuples { (s : StoreView) (a b : Data) (so : Ordering) → Ordered s (tuple a) (tuple b) so → Decided s 63 (list_of a) (list_of b) so }
    ensures lists { (s : StoreView) (a i b j : ℕ) (xs ys : List Datum) (so : Ordering) → HoldsList s a i xs → HoldsList s b j ys → Ordered s (cell a i) (cell b j) so → Decided s 63 xs ys so }
{}

/// A walk has a number of steps and an outcome of its own: with fewer steps it is F53, with more the rest is left.
pub fn steps_are_the_walks_own()
    ensures equality { (s : StoreView) (a b : Datum) → Takes (λ n. equal_at max_levels s n a b) }
    ensures order { (s : StoreView) (a b : Datum) → Takes (λ n. ordered_at max_levels s n a b) }
    ensures key { (v : Datum) → Takes (λ n. keyed v (walked_at max_levels n v)) }
{}

/// Ranges are equal where they have the same elements, whatever their bounds and steps.
pub fn ranges_are_equal_by_their_elements()
    ensures { (s : StoreView) (a b c d e f : ℤ) (so : Bool) → Equals s (range a b c) (range d e f) so → (so ≡ true) ↔ HaveSameElements a b c d e f }
{}

/// Functions are equal where they come from one `def` of one module, whatever their defaults.
pub fn functions_are_equal_by_their_def()
    ensures { (s : StoreView) (a i b j : ℕ) (t u : List ℕ) (vs ws : Data) (so : Bool) → Equals s (function a i t vs) (function b j u ws) so → (so ≡ true) ↔ ((a ≡ b) × (i ≡ j)) }
{}

/// A rule is equal to itself alone, whatever attributes another one has.
pub fn rules_are_equal_by_identity()
    ensures { (s : StoreView) (a i b j : ℕ) (c d : Class) (so : Bool) → HoldsRule s a i c → HoldsRule s b j d → Equals s (cell a i) (cell b j) so → (so ≡ true) ↔ ((a ≡ b) × (i ≡ j)) }
{}

/// Attributes are equal where they have one type and one default, and both or neither has to be given. It takes one step, whatever
/// the defaults are.
pub fn attributes_are_equal_by_what_they_say()
    ensures parts { (s : StoreView) (a b : Attribute) (so : Bool) → Equals s (attribute a) (attribute b) so → (so ≡ true) ↔ (a ≡ b) }
    ensures step { (s : StoreView) (a b : Attribute) (n : ℕ) → equal_at max_levels s (suc n) (attribute a) (attribute b) ≡ Ok (same_attribute a b, n) }
{}

/// A key is the value that it is made of. Only a value that may be a key makes one, and none of these gives F45.
pub fn a_key_is_its_value()
    ensures value { (v k : Datum) (n m : ℕ) → keyed v (walked_at max_levels n v) ≡ Ok (k, m) → k ≡ v }
    ensures kind { (v k : Datum) (n m : ℕ) → keyed v (walked_at max_levels n v) ≡ Ok (k, m) → IsKey v }
    ensures accepted { (v : Datum) (n : ℕ) → IsKey v → keyed v (walked_at max_levels n v) ≢ Err Unhashable }
{}

/// Each level of two values takes a step, and 64 levels are looked at: the 65th is F55.
pub fn levels_and_steps()
    ensures equality { (s : StoreView) (n : ℕ) → equal_at max_levels s (64 + n) (nested 63) (nested 63) ≡ Ok (true, n) }
    ensures equality_ends { (s : StoreView) (n : ℕ) → equal_at max_levels s (65 + n) (nested 64) (nested 64) ≡ Err TooDeep }
    ensures order { (s : StoreView) (n : ℕ) → ordered_at max_levels s (64 + n) (nested 63) (nested 63) ≡ Ok (Equal, n) }
    ensures order_ends { (s : StoreView) (n : ℕ) → ordered_at max_levels s (65 + n) (nested 64) (nested 64) ≡ Err TooDeep }
    ensures key { (n : ℕ) → walked_at max_levels (64 + n) (nested 63) ≡ Ok n }
    ensures key_ends { (n : ℕ) → walked_at max_levels (65 + n) (nested 64) ≡ Err TooDeep }
{}
