//! What holds of statements and their reading. The functions do nothing: their contracts are the laws.

ghost use Rattle.std.specs.Prelude.{◌≡◌, ℕ, List, []};
ghost use Rattle.bq_parse_grammar.specs.Lexeme.{Lexeme};
ghost use Rattle.bq_parse_grammar.specs.Pieces.{pieces};
ghost use Rattle.bq_parse_grammar.specs.declared.tree.FileKind.{FileKind};
ghost use Rattle.bq_parse_grammar.specs.declared.tree.TargetExpr.{TargetExpr};
ghost use Rattle.bq_parse_laws.specs.StatementLaws.{TargetsAreExpressions, Sound, Complete, OneStatement, OneVerdict, OneReading};
ghost use Rattle.bq_parse_laws.specs.Pieces.{joined, AreStatements};

/// What stands before `=` is a target just where it is an expression that can be taken for one.
pub fn assignments_have_targets()
    ensures { (depth : ℕ) (ts rest : List Lexeme) (x : TargetExpr) → TargetsAreExpressions depth ts rest x }
{}

/// What is read is what the grammar has; where the reading stops at `lambda`, the grammar has a statement whatever follows.
pub fn what_is_read_is_a_statement()
    ensures { (depth : ℕ) (ts : List Lexeme) → Sound depth ts }
{}

/// A statement that the grammar has is read whole, or the reading stops at a `lambda` in it.
pub fn each_statement_is_read()
    ensures { (depth : ℕ) (ts rest : List Lexeme) → Complete depth ts rest }
{}

/// Tokens without `lambda` have one tree at most.
pub fn one_tree_of_a_statement()
    ensures { (depth : ℕ) (ts rest : List Lexeme) → OneStatement depth ts rest }
{}

/// A top-level statement has one tree that is allowed, or one fault, and `verdict` says which.
pub fn one_verdict()
    ensures { (kind : FileKind) (ts : List Lexeme) → OneVerdict kind ts }
{}

/// The top-level statements in a row are the file's tokens. One begins with the first token, and with each that follows a
/// newline or an outdent while no indent is open, but for an indent, `elif` and `else`; and nowhere else.
pub fn pieces_of_a_file()
    ensures whole { (ts : List Lexeme) → joined (pieces ts) ≡ ts }
    ensures apart { (ts : List Lexeme) → AreStatements [] (pieces ts) }
{}

/// A file reads as one list of statements, or has one fault, and `statements_of` says which.
pub fn each_file_has_one_reading()
    ensures { (kind : FileKind) (ts : List Lexeme) → OneReading kind ts }
{}
