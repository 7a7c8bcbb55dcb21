//! What holds of the grammar. The functions do nothing: their contracts are the laws.

ghost use Rattle.std.specs.Prelude.{ℕ, List};
ghost use Rattle.bq_query_parse.specs.Lexeme.{Lexeme};
ghost use Rattle.bq_query_parse.specs.GrammarLaws.{Sound, Complete, OneQuery};

/// What is read is a query of the grammar.
pub fn what_is_read_is_a_query()
    ensures { (depth : ℕ) (ts rest : List Lexeme) → Sound depth ts rest }
{}

/// A query of the grammar is read whole, if no token follows that continues it.
pub fn each_query_is_read()
    ensures { (depth : ℕ) (ts rest : List Lexeme) → Complete depth ts rest }
{}

/// Tokens have at most one tree.
pub fn one_tree_of_a_query()
    ensures { (depth : ℕ) (ts rest : List Lexeme) → OneQuery depth ts rest }
{}
