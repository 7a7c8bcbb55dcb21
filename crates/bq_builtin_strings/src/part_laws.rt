//! Laws of the definitions. The gate proves what a contract names, so each law is the contract of a function that does
//! nothing.

ghost use Rattle.std.specs.Prelude.{◌≡◌, ◌≢◌, ◌≤◌, List, ℕ, [], length};
ghost use Rattle.std.specs.List.{Contains};
ghost use Rattle.bq_builtin_strings.specs.Search.{find, rfind, StandsAt, IsLeastPlace, IsGreatestPlace};
ghost use Rattle.bq_builtin_strings.specs.Parts.{split, rsplit, join, replace_cuts};

/// A text is found at the least place at which the other has it, and nowhere if the other doesn't have it.
pub fn the_least_place()
    ensures { (sub text : List ℕ) → IsLeastPlace sub text (find sub text) }
{}

/// From the right, a text is found at the greatest place.
pub fn the_greatest_place()
    ensures { (sub text : List ℕ) → IsGreatestPlace sub text (rfind sub text) }
{}

/// The parts of a text, joined by the separator, are the text.
pub fn parts_join_to_the_text()
    ensures left { (separator text : List ℕ) (most : ℕ) → join separator (split separator most text) ≡ text }
    ensures right { (separator text : List ℕ) (most : ℕ) → join separator (rsplit separator most text) ≡ text }
{}

/// Where enough cuts are allowed, no part has the separator.
pub fn no_part_has_the_separator()
    ensures { (separator text part : List ℕ) (most : ℕ) → (separator ≢ []) → length text ≤ most → Contains (split separator most text) part → (at : ℕ) → StandsAt separator part at → ⊥ }
{}

/// A replacement is the parts between the old text, joined by the new one.
pub fn replacing_joins_the_parts()
    ensures { (old new text : List ℕ) (most : ℕ) → replace_cuts old new most text ≡ join new (split old most text) }
{}
