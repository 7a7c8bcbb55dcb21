//! What holds of trees. The functions do nothing: their contracts are the laws.

ghost use Rattle.std.specs.Prelude.{◌∷◌, ◌≡◌, ◌≤◌, ◌+◌, ◌*◌, ◌⊎◌, List, Ok, false, true, ℕ};
ghost use Rattle.std.specs.List.{AllByRecursion};
ghost use Rattle.bq_parse_grammar.specs.Grammar.{IsTestTo};
ghost use Rattle.bq_parse_grammar.specs.LeftOut.{leaves_out};
ghost use Rattle.bq_parse_grammar.specs.Lexeme.{Lexeme};
ghost use Rattle.bq_parse_grammar.specs.Parses.{Parses, is_build};
ghost use Rattle.bq_parse_grammar.specs.Pieces.{pieces};
ghost use Rattle.bq_parse_grammar.specs.Statements.{IsStmt, IsTopLevel};
ghost use Rattle.bq_parse_grammar.specs.Verdict.{ReadsAs};
ghost use Rattle.bq_parse_grammar.specs.declared.tree.Expr.{Expr};
ghost use Rattle.bq_parse_grammar.specs.declared.tree.FileKind.{FileKind};
ghost use Rattle.bq_parse_grammar.specs.declared.tree.FileKind.TheVariants as file;
ghost use Rattle.bq_parse_grammar.specs.declared.tree.SmallStmt.{SmallStmt};
ghost use Rattle.bq_parse_grammar.specs.declared.tree.Stmt.{Stmt};
ghost use Rattle.bq_parse_grammar.specs.declared.tree.Stmt.TheVariants as s;
ghost use Rattle.bq_parse_grammar.specs.declared.tree.TopLevel.{TopLevel};
ghost use Rattle.bq_parse_laws.specs.Depth.{expr_depth, max_depth, stmt_depth};
ghost use Rattle.bq_parse_laws.specs.LeftOut.{has_nested, lone_native, stmt_count};
ghost use Rattle.bq_parse_laws.specs.Parts.{expr, stmt};
ghost use Rattle.bq_parse_laws.specs.Writes.{EachWrites, Writes, tokens};

/// The tokens of an expression are those that its tree writes, in order.
pub fn an_expression_writes_its_tokens()
    ensures { (depth : ℕ) (ts rest : List Lexeme) (x : Expr) → IsTestTo depth ts rest x → Writes (expr x ∷ tokens rest) ts }
{}

/// The tokens of a statement are those that its tree writes, in order.
pub fn a_statement_writes_its_tokens()
    ensures { (depth : ℕ) (ts rest : List Lexeme) (x : Stmt) → IsStmt depth ts rest x → Writes (stmt x ∷ tokens rest) ts }
{}

/// Each top-level statement of a file that reads as statements has the line of its first token, and writes its piece of the file.
pub fn a_file_is_what_its_statements_write()
    ensures { (kind : FileKind) (ts : List Lexeme) (xs : List TopLevel) → Parses kind ts (Ok xs) → EachWrites (pieces ts) xs }
{}

/// The tree of a top-level statement holds nothing that the language leaves out: no `lambda`, no `/` or `/=`, no `.name` without
/// a call, no `def` in a `def`; in a BUILD file no argument with a star, and it is a line of small statements.
pub fn no_tree_holds_what_is_left_out()
    ensures none { (kind : FileKind) (ts : List Lexeme) (x : TopLevel) → ReadsAs kind ts (Ok x) → stmt_count (is_build kind) x.statement ≡ 0 }
    ensures flat { (kind : FileKind) (ts : List Lexeme) (x : TopLevel) → ReadsAs kind ts (Ok x) → has_nested x.statement false ≡ false }
    ensures simple { (ts : List Lexeme) (x : TopLevel) → ReadsAs file.Build ts (Ok x) → (xs : List SmallStmt) × (x.statement ≡ s.Simple xs) }
{}

/// Tokens that are left out for themselves (F12) have a tree that holds what is left out, or the name `native` is among them,
/// elsewhere than before `.name(`, which trees don't tell.
pub fn what_is_left_out_is_in_the_tree()
    ensures { (depth : ℕ) (ts : List Lexeme) (x : TopLevel) → IsTopLevel depth ts x → leaves_out ts ≡ true → (1 ≤ stmt_count false x.statement) ⊎ (lone_native ts ≡ true) }
{}

/// Each bracket around a part makes an expression at most 14 levels deeper; no statement is deeper than `max_depth`.
pub fn no_tree_is_deeper()
    ensures expression { (depth : ℕ) (ts rest : List Lexeme) (x : Expr) → IsTestTo depth ts rest x → expr_depth x ≤ 14 * (depth + 1) }
    ensures statement { (kind : FileKind) (ts : List Lexeme) (x : TopLevel) → ReadsAs kind ts (Ok x) → stmt_depth x.statement ≤ max_depth }
    ensures file { (kind : FileKind) (ts : List Lexeme) (xs : List TopLevel) → Parses kind ts (Ok xs) → AllByRecursion (λ x. stmt_depth x.statement ≤ max_depth) xs }
{}
