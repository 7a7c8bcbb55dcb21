//! What the tokens of a text are, said of the text.
ghost use Rattle.std.specs.Prelude.{ℕ, List, Some, Option};
ghost use Rattle.bq_query_lex.specs.declared.token.QueryToken.{QueryToken};
ghost use Rattle.bq_query_lex.specs.Laws.{OneReading, AreTokensOf};
ghost use Rattle.bq_query_lex.specs.Reading.{Reads};

/// A text is cut into tokens in only one way, or not at all.
pub fn one_reading()
    ensures { (text : List ℕ) → OneReading text }
{}

/// Every text is cut into tokens, or has a byte that begins none.
pub fn every_text_has_its_reading()
    ensures { (text : List ℕ) → (r : Option (List QueryToken)) × Reads text 0 r }
{}

/// The tokens spell the text, with blanks alone between them: marks, words in quotes, and words that are the longest.
pub fn tokens_spell_the_text()
    ensures { (text : List ℕ) (ts : List QueryToken) → Reads text 0 (Some ts) → AreTokensOf text 0 ts }
{}
