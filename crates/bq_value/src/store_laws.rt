//! Laws of the definitions. The gate proves what a contract names, so each law is the contract of a function that does
//! nothing.

ghost use Rattle.std.specs.Prelude.{◌≡◌, ◌≢◌, List, ℕ, None, fold};
ghost use Rattle.std.specs.Option.{option_or};
ghost use Rattle.bq_value_datum.specs.Datum.{Datum};
ghost use Rattle.bq_value_content.specs.Contents.{Contents, KeysDiffer};
ghost use Rattle.bq_value_content.specs.Kinds.{kind_at};
ghost use Rattle.bq_value.specs.Cells.{StoreView, FrozenView, Modules, module_at, content_at, kind_of, frozen_at, frozen, added, loading, KindsAreNames};
ghost use Rattle.bq_value.specs.Lending.{with_cell};

use crate::store::Store;
use bq_value_datum::Cell;

/// No dict of a store has a key twice, whatever was done to the store.
pub fn dicts_of_stores_have_distinct_keys(store: &Store, cell: Cell)
    ensures { KeysDiffer (content_at store.now cell.module cell.number) }
{
    if let Some(content) = store.content(cell) {
        content.keys_differ();
    }
}

/// Freezing keeps every cell.
pub fn freezing_keeps_every_cell()
    ensures { (s : StoreView) (names : List (List ℕ)) (globals : List Datum) (home number : ℕ) → frozen_at (frozen s names globals) home number ≡ content_at s home number }
{}

/// A rule of a frozen module has as its kind the name of the first of that module's globals, in order, that is the
/// rule; it has no kind if no global is. Whoever loads the module finds that kind, whatever name it gives the rule. In
/// the module itself, which isn't frozen yet, the rule has none.
pub fn a_kind_is_the_first_name()
    ensures frozen { (s : StoreView) (names : List (List ℕ)) (globals : List Datum) → KindsAreNames s names globals (λ number. kind_at number (frozen s names globals).cells.kinds) }
    ensures loaded { (s t : StoreView) (names : List (List ℕ)) (globals : List Datum) → t.own ≢ s.own → module_at t.own s.loaded ≡ None → KindsAreNames t names globals (kind_of (loading s (frozen t names globals)) t.own) }
    ensures own { (s : StoreView) (number : ℕ) → kind_of s s.own number ≡ None }
{}

/// A module that is reached after a load is the one that had its number before, or else the one that the load brings.
pub fn modules_after_a_load()
    ensures { (home : ℕ) (before brings : Modules) → module_at home (fold added before brings) ≡ option_or (module_at home before) (module_at home brings) }
{}

/// Loading keeps the cells of all modules that are there, and brings those of the others as they were frozen.
pub fn loading_a_module()
    ensures keeps { (s : StoreView) (f : FrozenView) (home number : ℕ) → (home ≢ s.own → module_at home s.loaded ≢ None) → content_at (loading s f) home number ≡ content_at s home number }
    ensures brings { (s : StoreView) (f : FrozenView) (home number : ℕ) → home ≢ s.own → module_at home s.loaded ≡ None → content_at (loading s f) home number ≡ frozen_at f home number }
{}

/// Changing a cell of the running module changes no cell of another module, and no other cell of its own.
pub fn changing_a_cell()
    ensures modules { (s : StoreView) (place : ℕ) (c : Contents) (home number : ℕ) → home ≢ s.own → content_at (with_cell s place c) home number ≡ content_at s home number }
    ensures cells { (s : StoreView) (place : ℕ) (c : Contents) (home number : ℕ) → number ≢ place → content_at (with_cell s place c) home number ≡ content_at s home number }
{}
