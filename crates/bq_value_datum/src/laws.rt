//! Laws of the definitions. The gate proves what a contract names, so each law is the contract of a function that does
//! nothing.

ghost use Rattle.std.specs.Prelude.{◌≡◌, ◌≢◌, ◌↔◌, ◌<◌, ℕ, ℤ, pos, true};
ghost use Rattle.bq_value_datum.specs.Datum.{Datum};
ghost use Rattle.bq_value_datum.specs.Same.{same};
ghost use Rattle.bq_value_datum.specs.Range.{IsBefore, range_element, range_count};

/// Keys are equal exactly where they are one value.
pub fn equality_of_keys()
    ensures { (j k : Datum) → (same j k ≡ true) ↔ (j ≡ k) }
{}

/// A range has exactly the elements that lie before its end.
pub fn elements_of_a_range()
    ensures { (start stop step : ℤ) (k : ℕ) → step ≢ pos 0 → (k < range_count start stop step) ↔ IsBefore (range_element start step k) stop step }
{}
