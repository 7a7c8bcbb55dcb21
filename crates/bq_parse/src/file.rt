//! Files: all top-level statements, one after another.

ghost use Rattle.std.specs.Prelude.{◌≡◌, Ok, All, IfOk};
ghost use Rattle.bq_parse.specs.Answers.{itself, AreShallow};
ghost use Rattle.bq_parse_grammar.specs.Lexeme.{lexemes};
ghost use Rattle.bq_parse_grammar.specs.Parses.{Parses, statements_of};
ghost use Rattle.bq_base.specs.Gives.{Gives, GivesOneOf};
ghost use Rattle.bq_source_lexer.specs.Reading.{Lexes};
ghost use Rattle.bq_source.specs.Spelling.{Lies};
ghost use Rattle.bq_base.specs.declared.fault.SourceErr.TheVariants.{Bad};

use crate::pieces::piece_len;
use crate::verdict::verdict;
use bq_base::{SourceErr, StatementFault};
use bq_parse_grammar::{FileKind, Items, Tokens, TopLevel};
use bq_source::Token;
use std::alloc::Global;
use std::marker::Model;

/// The trees of a file's top-level statements, in the order in which they are written.
pub struct ParsedFile {
    statements: Items<TopLevel>,
}

impl Drop for ParsedFile {
    // PROOF: a drop that is written out is proved here alone, and a derived one in each crate that drops a file
    fn drop(self) {
        let ParsedFile { statements: _ } = self;
    }
}

impl Model for ParsedFile {
    ghost use Rattle.std.specs.Prelude.{List};
    ghost use Rattle.bq_parse_grammar.specs.declared.tree.TopLevel.{TopLevel};
    ghost use Rattle.bq_parse.specs.Answers.{AreShallow};
    ghost use Rattle.std.specs.Coded.{codes};
    ghost use Rattle.bq_parse_grammar.specs.contracts.tree.Stmt as stmt;

    ghost Value = { List TopLevel };

    ghost coded = { Prim.hlevel (codes, stmt.the_row.coded) };

    ghost view = { λ f. f.statements };

    // Only brackets and indents nest, and no more than 64 are open.
    ghost invariant = { λ f. AreShallow f.statements };
}

impl ParsedFile {
    /// Returns the statements. None is deeper than `max_depth` of `bq_parse_laws`, so that recursion over one takes bounded stack.
    pub fn statements(&self) -> &[TopLevel]
        ensures all { result.now ≡ self.now }
        ensures shallow { AreShallow self.now }
    {
        self.statements.as_slice()
    }

    /// Returns the statements, to be written to.
    pub fn into_statements(self) -> Items<TopLevel>
        ensures { result ≡ self }
    {
        let ParsedFile { statements } = self;
        statements
    }
}

/// Returns the statements, one after another.
fn statements(
    alloc: Global,
    tokens: &[Token],
    text: &[u8],
    kind: FileKind,
) -> Result<Items<TopLevel>, SourceErr<StatementFault>>
    requires { All (Lies text.now) tokens.now }
    ensures { Gives itself Bad result (statements_of kind (lexemes text.now tokens.now)) }
{
    let mut statements = Items::new(alloc);
    let mut rest = tokens;
    'pieces: while !rest.is_empty() {
        let here = Tokens::new(text, rest);
        let (piece, further) = rest.split_at(piece_len(&here));
        let first = Tokens::new(text, piece);
        statements.push(verdict(alloc, kind, &first)?)?;
        rest = further;
    }
    Ok(statements)
}

/// Returns the trees of a file's top-level statements, or the fault of the first that is faulty, at its first line. The tokens are those
/// that `lex` answers for the text. It takes time and memory in proportion to the tokens.
///
/// The grammar is that of the Starlark specification, "Grammar reference", as docs/LANGUAGE.md says.
pub fn parse(
    alloc: Global,
    tokens: &[Token],
    text: &[u8],
    kind: FileKind,
) -> Result<ParsedFile, SourceErr<StatementFault>>
    requires { Lexes text.now (Ok tokens.now) }
    // It is what the function of the definitions gives.
    ensures gives { Gives itself Bad result (statements_of kind (lexemes text.now tokens.now)) }
    // What is answered is what the tokens read as.
    ensures reads { GivesOneOf itself Bad result (Parses kind (lexemes text.now tokens.now)) }
    // All that the tokens read as is the answer.
    ensures only { (r : _) → Parses kind (lexemes text.now tokens.now) r → Gives itself Bad result r }
{
    match statements(alloc, tokens, text, kind) {
        Ok(statements) => Ok(ParsedFile { statements }),
        Err(why) => Err(why),
    }
}
