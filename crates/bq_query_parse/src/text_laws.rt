//! What holds of the trees of texts. The function does nothing: its contract is the law.

ghost use Rattle.std.specs.Prelude.{ℕ, List};
ghost use Rattle.bq_query_parse.specs.Parses.{OneTree};

/// A text has at most one tree.
pub fn one_tree_of_a_text()
    ensures { (text : List ℕ) → OneTree text }
{}
