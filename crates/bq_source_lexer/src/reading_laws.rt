//! The words give the reading of a text, and only one.

ghost use Rattle.std.specs.Prelude.{◌≡◌, List, Ok, Err, ℕ, Result};
ghost use Rattle.bq_source_lexer.specs.Reading.{Lexes};
ghost use Rattle.bq_source_lexer.specs.Layout.{Reads, IsFaulty};
ghost use Rattle.bq_base.specs.declared.fault.TokenFault.{TokenFault};
ghost use Rattle.bq_base.specs.declared.fault.Fault.{Fault};
ghost use Rattle.bq_source.specs.declared.token.Token.{Token};
ghost use Rattle.bq_source_lexer.specs.InWords.{InWords};

/// A text is cut into tokens in one way at most, and in no way where it can be cut up to a fault; and it can be cut up to one
/// fault at most.
pub fn one_reading_in_words()
    ensures tokens { (text : List ℕ) (ts us : List Token) → Reads text ts → Reads text us → ts ≡ us }
    ensures fault { (text : List ℕ) (e d : Fault TokenFault) → IsFaulty text e → IsFaulty text d → e ≡ d }
    ensures apart { (text : List ℕ) (ts : List Token) (e : Fault TokenFault) → Reads text ts → IsFaulty text e → ⊥ }
{}

/// What the words say of a text is what it reads as, and what it reads as is what they say.
pub fn the_words_give_the_reading()
    ensures found { (text : List ℕ) (r : Result (List Token) (Fault TokenFault)) → InWords text r → Lexes text r }
    ensures complete { (text : List ℕ) (r : Result (List Token) (Fault TokenFault)) → Lexes text r → InWords text r }
{}
