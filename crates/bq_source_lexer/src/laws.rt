//! What every reading of a text is, in words of the text and the tokens. The functions do nothing: their contracts are the laws.

ghost use Rattle.std.specs.Prelude.{◌≡◌, ◌<◌, ◌⊎◌, ℕ, List, length, take, Ok, Err, Result};
ghost use Rattle.std.specs.List.{AllByRecursion};
ghost use Rattle.bq_source_lexer.specs.Reading.{Lexes, line_behind, max_file_bytes};
ghost use Rattle.bq_source_lexer.specs.Tokens.{tokens_of};
ghost use Rattle.bq_source.specs.Spelling.{Lies};
ghost use Rattle.bq_source_lexer.specs.Layout.{Reads, IsFaulty};
ghost use Rattle.bq_base.specs.Fault.{fault_at};
ghost use Rattle.bq_base.specs.declared.fault.TokenFault.{TokenFault};
ghost use Rattle.bq_base.specs.declared.fault.TokenFault.TheVariants as f;
ghost use Rattle.bq_base.specs.declared.fault.Fault.{Fault};
ghost use Rattle.bq_source.specs.declared.token.Token.{Token};

use bq_source::Token;

/// Every text has a reading, tokens or a fault, and a function gives it.
pub fn every_text_has_its_reading()
    ensures { (text : List ℕ) → Lexes text (tokens_of text) }
{}

/// A text has one reading at most: it doesn't read as two lists of tokens, nor as tokens and a fault.
pub fn one_reading()
    ensures { (text : List ℕ) (r q : Result (List Token) (Fault TokenFault)) → Lexes text r → Lexes text q → r ≡ q }
{}

/// The tokens of a text lie in it, and those of strings have a value: slices of the text by their places are in bounds.
pub fn tokens_lie_within(text: &[u8], tokens: &[Token])
    requires { Lexes text.now (Ok tokens.now) }
    ensures { AllByRecursion (Lies text.now) tokens.now }
{}

/// The tokens of a text are cut from it: each is spelled as its kind says, the longest at its place, and names its place and its
/// line. Between them stand spaces, tabs, comments and joined lines, and line ends inside brackets and on lines without tokens. A
/// newline token comes after the last token of each logical line and nowhere else; indents and outdents come before the first
/// token of a line, as its width and those of the earlier lines say; brackets match.
pub fn tokens_cut_the_text()
    ensures { (text : List ℕ) (tokens : List Token) → Lexes text (Ok tokens) → Reads text tokens }
{}

/// The fault of a text is in it: the text can be cut up to a place, and there, in the line that is named, comes what is not one of
/// the lexis (F1), a width that isn't open (F2), a tab in the indentation (F3), a string without end (F4) or with a bad escape
/// (F5), a bad number (F6), a bracket that closes none, or the end of the text while a bracket is open (F7). Else the text is too
/// long (F8).
pub fn faults_are_in_the_text()
    ensures { (text : List ℕ) (fault : Fault TokenFault) → Lexes text (Err fault)
        → ((fault ≡ fault_at f.FileTooLong (line_behind (take max_file_bytes text))) × (max_file_bytes < length text)) ⊎ IsFaulty text fault }
{}
