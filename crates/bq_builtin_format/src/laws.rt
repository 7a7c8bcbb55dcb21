//! Laws of the definitions. The gate proves what a contract names, so each law is the contract of a function that does
//! nothing.

ghost use Rattle.std.specs.Prelude.{◌≡◌, ◌≤◌, ◌↔◌, ℕ, List, Ok, length};
ghost use Rattle.bq_value.specs.Cells.{StoreView};
ghost use Rattle.bq_value.specs.Datum.{Datum};
ghost use Rattle.bq_value_text.specs.Page.{max_text};
ghost use Rattle.bq_builtin_format.specs.Piece.{Piece, IsCutInto, HasNoLone, bytes, pieces, with_doubled_braces};
ghost use Rattle.bq_builtin_format.specs.Method.{formatted};

/// A format without a lone brace is cut into its pieces, and into no others; one with a lone brace is cut into none.
pub fn the_pieces_of_a_format()
    ensures found { (format : List ℕ) → HasNoLone (pieces format) → IsCutInto format (pieces format) }
    ensures only { (format : List ℕ) (ps : List Piece) → IsCutInto format ps → (pieces format ≡ ps) × HasNoLone ps }
{}

/// A format without fields is a text in which each brace is doubled, and it makes that text, whatever the arguments; no
/// step is taken.
pub fn a_format_without_fields()
    ensures doubled { (text format : List ℕ) → IsCutInto format (bytes text) ↔ (format ≡ with_doubled_braces text) }
    ensures made { (s : StoreView) (n : ℕ) (text : List ℕ) (values : List Datum) (named : List (List ℕ × Datum)) → length text ≤ max_text → formatted s n (with_doubled_braces text) values named ≡ Ok (text, n) }
{}
