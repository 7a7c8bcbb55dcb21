//! Laws of the definitions. The gate proves what a contract names, so each law is the contract of a function that does
//! nothing.

ghost use Rattle.std.specs.Prelude.{◌≡◌, ◌↔◌, List, ℕ, true, false};
ghost use Rattle.std.specs.List.{list_any};
ghost use Rattle.bq_label_glob.specs.Matching.{matches, is_star, Matches};

/// A path matches a pattern exactly where its segments can be cut as the pattern's segments say.
#[tactic(auto, using(crate::proofs::Cuttings::cuttings))]
pub fn cuts_of_a_path()
    ensures { (pattern path : List ℕ) → (matches pattern path ≡ true) ↔ Matches pattern path }
{}

/// A pattern without a star matches itself alone.
#[tactic(auto, using(crate::proofs::Literals::itself_alone))]
pub fn a_plain_pattern_matches_itself_alone()
    ensures { (pattern path : List ℕ) → list_any is_star pattern ≡ false → (matches pattern path ≡ true) ↔ (pattern ≡ path) }
{}
