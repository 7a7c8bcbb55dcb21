//! What is left out of a file. The function does nothing: its contract is the law.

ghost use Rattle.std.specs.Prelude.{ℕ, ◌+◌, List, Result, take};
ghost use Rattle.bq_base.specs.declared.fault.Fault.{Fault};
ghost use Rattle.bq_base.specs.declared.fault.TokenFault.{TokenFault};
ghost use Rattle.bq_source.specs.declared.token.Token.{Token};
ghost use Rattle.bq_source_lexer.specs.Reading.{Lexes, max_file_bytes};

/// Of a file that is longer than a file may be, the bytes up to one past the limit read as the whole file does: it has the same
/// tokens, or the same fault.
pub fn cut_files_read_the_same()
    ensures cut { (text : List ℕ) (r : Result (List Token) (Fault TokenFault)) → Lexes text r → Lexes (take (max_file_bytes + 1) text) r }
    ensures whole { (text : List ℕ) (r : Result (List Token) (Fault TokenFault)) → Lexes (take (max_file_bytes + 1) text) r → Lexes text r }
{}
