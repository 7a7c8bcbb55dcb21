//! What holds of the grammar. The functions do nothing: their contracts are the laws.

ghost use Rattle.std.specs.Prelude.{ℕ, List};
ghost use Rattle.bq_parse_grammar.specs.Lexeme.{Lexeme};
ghost use Rattle.bq_parse_grammar.specs.Laws.{Sound, Complete, OneTest};

/// What is read is what the grammar has; where the reading stops at `lambda`, the grammar has a test whatever follows.
pub fn what_is_read_is_a_test()
    ensures { (depth : ℕ) (ts : List Lexeme) → Sound depth ts }
{}

/// A test that the grammar has is read whole, or the reading stops at a `lambda` in it.
pub fn each_test_is_read()
    ensures { (depth : ℕ) (ts rest : List Lexeme) → Complete depth ts rest }
{}

/// Tokens without `lambda` have one tree at most.
pub fn one_tree_of_a_test()
    ensures { (depth : ℕ) (ts rest : List Lexeme) → OneTest depth ts rest }
{}
