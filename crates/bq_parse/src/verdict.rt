//! What a top-level statement reads as.

ghost use Rattle.bq_parse.specs.Answers.{at_line, itself};
ghost use Rattle.bq_parse_grammar.specs.Parses as spec;
ghost use Rattle.bq_base.specs.Gives.{Gives};
ghost use Rattle.bq_base.specs.declared.fault.SourceErr.TheVariants.{Bad};

use crate::left_out::{has_starred, leaves_out};
use crate::nested::nested_def;
use crate::nesting::{MAX_NESTING, nests};
use crate::statements::top_level;
use bq_base::{Fault, SourceErr, StatementFault};
use bq_parse_grammar::{FileKind, SyntaxErr, Tokens, TopLevel};
use bq_source::TokenKind;
use std::alloc::Global;

/// Judges a statement that has a tree: F12 where the language leaves it out, else F13 where it may not stand in a BUILD file.
#[tactic(auto, using(crate::proofs::LeftOut::compound_by))]
fn allowed(kind: FileKind, tokens: &Tokens<'_>, statement: &TopLevel) -> Result<(), StatementFault>
    ensures { Gives (λ _. statement.now) itself result (spec.allowed kind tokens.now statement.now) }
{
    if leaves_out(tokens) || nested_def(MAX_NESTING, false, &statement.statement) {
        return Err(StatementFault::LeftOut);
    }
    let is_compound = tokens.sees(TokenKind::Def)
        || tokens.sees(TokenKind::If)
        || tokens.sees(TokenKind::For);
    match kind {
        FileKind::Build if is_compound || has_starred(tokens) => Err(StatementFault::NotInBuild),
        _ => Ok(()),
    }
}

/// Returns the top-level statement that these tokens are. At its first line: F11 where too many brackets and indents are open, else F10
/// where it has no tree, else F12, else F13.
#[tactic(auto, unfolding(bq_parse_grammar::specs::Parses::verdict))]
pub fn verdict(
    alloc: Global,
    kind: FileKind,
    tokens: &Tokens<'_>,
) -> Result<TopLevel, SourceErr<StatementFault>>
    ensures { Gives itself Bad result (at_line tokens.now (spec.verdict kind tokens.now)) }
{
    let line = tokens.line();
    if !nests(tokens) {
        return Err(SourceErr::Bad(Fault::at(StatementFault::Nesting, line)));
    }
    let mut rest = tokens.here();
    match top_level(alloc, &mut rest, MAX_NESTING + 1) {
        Ok(statement) => match allowed(kind, tokens, &statement) {
            Ok(()) => Ok(statement),
            Err(why) => Err(SourceErr::Bad(Fault::at(why, line))),
        },
        Err(SyntaxErr::Memory) => Err(SourceErr::Memory),
        Err(SyntaxErr::Syntax) => Err(SourceErr::Bad(Fault::at(StatementFault::Syntax, line))),
        Err(SyntaxErr::Lambda) => Err(SourceErr::Bad(Fault::at(StatementFault::LeftOut, line))),
    }
}
