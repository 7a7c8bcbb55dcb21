//! What holds of the lines of faults. The functions do nothing: their contracts are the laws.

ghost use Rattle.std.specs.Prelude.{◌≡◌, ◌≤◌, List, Ok, Err, ℕ};
ghost use Rattle.std.specs.List.{AllByRecursion};
ghost use Rattle.bq_base.specs.declared.fault.TokenFault.{TokenFault};
ghost use Rattle.bq_base.specs.declared.fault.Fault.{Fault};
ghost use Rattle.bq_source.specs.declared.token.Token.{Token};
ghost use Rattle.bq_source_lexer.specs.Reading.{Lexes};
ghost use Rattle.bq_load_laws.specs.Lines.{StatementsStand, StatementFaultsStand, NameFaultsStand, LoadsStand, ResolvedStatementsStand};

/// Each token of a text, and the fault of one that has no tokens, stands on a line from 1 on.
pub fn tokens_stand_on_lines()
    ensures tokens { (text : List ℕ) (ts : List Token) → Lexes text (Ok ts) → AllByRecursion (λ t. 1 ≤ t.line) ts }
    ensures fault { (text : List ℕ) (why : Fault TokenFault) → Lexes text (Err why) → 1 ≤ why.line }
{}

/// So does each top-level statement of a text, and the fault of one whose tokens are no statements.
pub fn statements_stand_on_lines()
    ensures statements { StatementsStand }
    ensures fault { StatementFaultsStand }
{}

/// So does the fault of a text whose names stand for nothing; and of one that resolves each load and each statement.
pub fn names_stand_on_lines()
    ensures fault { NameFaultsStand }
    ensures loads { LoadsStand }
    ensures statements { ResolvedStatementsStand }
{}
