//! Small statements: those without a block.

ghost use Rattle.std.specs.Prelude.{Ok, false};
ghost use Rattle.bq_parse_grammar.specs.Turns.{Reads, ◌>>=◌ as and_then};
ghost use Rattle.bq_parse_grammar.specs.ReadingStatements as spec;

use crate::loads::load;
use crate::targets::{augmented_target, refused, target};
use bq_parse_expression::{closed, expr_list};
use bq_parse_grammar::{Boxed, Expr, Items, SmallKind, SmallStmt, SyntaxErr, Tokens};
use bq_source::TokenKind;
use std::alloc::Global;

/// 'return' [Expr], after 'return'
#[tactic(auto, unfolding(bq_parse_grammar::specs::ReadingStatements::returned))]
fn returned(alloc: Global, tokens: &mut Tokens<'_>, depth: usize) -> Result<SmallKind, SyntaxErr>
    ensures { Reads (spec.returned depth tokens.old) result tokens.new }
{
    if tokens.sees(TokenKind::Newline) || tokens.sees(TokenKind::Semicolon) {
        return Ok(SmallKind::Return(None));
    }
    Ok(SmallKind::Return(Some(expr_list(alloc, tokens, depth)?)))
}

/// Returns the value, and reads Expr. It is generic, since dropping a `T` is a single step for the proof.
fn beside<T: Drop>(
    alloc: Global,
    tokens: &mut Tokens<'_>,
    depth: usize,
    value: T,
) -> Result<(T, Expr), SyntaxErr>
    ensures { Reads (and_then (spec.expr_to depth tokens.old) (λ x rest. Ok ((value, x), rest))) result tokens.new }
{
    let right = expr_list(alloc, tokens, depth)?;
    Ok((value, right))
}

/// Target '=' Expr, after '='
fn assigned(
    alloc: Global,
    tokens: &mut Tokens<'_>,
    depth: usize,
    left: Expr,
) -> Result<SmallKind, SyntaxErr>
    ensures { Reads (spec.assigned depth left tokens.old) result tokens.new }
{
    let target = Boxed::new(alloc, target(alloc, depth, left)?)?;
    let (target, value) = beside(alloc, tokens, depth, target)?;
    Ok(SmallKind::Assign(target, value))
}

/// ( identifier | Primary '[' Expr ']' ) Aug Expr, after the left side, which stands in no parentheses
fn augmented(
    alloc: Global,
    tokens: &mut Tokens<'_>,
    depth: usize,
    left: Expr,
) -> Result<SmallKind, SyntaxErr>
    ensures { Reads (spec.augmented_as depth false left tokens.old) result tokens.new }
{
    let target = Boxed::new(alloc, augmented_target(alloc, left)?)?;
    let operator = tokens.augmented()?;
    let (target, value) = beside(alloc, tokens, depth, target)?;
    Ok(SmallKind::Augment(target, operator, value))
}

/// Target '=' Expr | ( identifier | Primary '[' Expr ']' ) Aug Expr | Expr
#[tactic(auto, unfolding(bq_parse_grammar::specs::ReadingStatements::expression))]
fn expression(alloc: Global, tokens: &mut Tokens<'_>, depth: usize) -> Result<SmallKind, SyntaxErr>
    ensures { Reads (spec.expression depth tokens.old) result tokens.new }
{
    let before = tokens.here();
    let left = expr_list(alloc, tokens, depth)?;
    if tokens.eat(TokenKind::Assign) {
        return assigned(alloc, tokens, depth, left);
    }
    if !tokens.sees_augmented() {
        return Ok(SmallKind::Expr(left));
    }
    // `(x) += 1` isn't an augmented assignment.
    if before.ended_by(TokenKind::RightParen, tokens) {
        return refused(left);
    }
    augmented(alloc, tokens, depth, left)
}

/// SmallKind = 'return' [Expr] | 'break' | 'continue' | 'pass' | Load | Target '=' Expr | .. | Expr
#[tactic(auto, unfolding(bq_parse_grammar::specs::ReadingStatements::small_kind))]
fn small_kind(alloc: Global, tokens: &mut Tokens<'_>, depth: usize) -> Result<SmallKind, SyntaxErr>
    ensures { Reads (spec.small_kind depth tokens.old) result tokens.new }
{
    match tokens.peek() {
        Some(TokenKind::Return) => {
            tokens.advance();
            returned(alloc, tokens, depth)
        }
        Some(TokenKind::Break) => {
            tokens.advance();
            Ok(SmallKind::Break)
        }
        Some(TokenKind::Continue) => {
            tokens.advance();
            Ok(SmallKind::Continue)
        }
        Some(TokenKind::Pass) => {
            tokens.advance();
            Ok(SmallKind::Pass)
        }
        Some(TokenKind::Load) => {
            tokens.advance();
            load(alloc, tokens)
        }
        Some(_) => expression(alloc, tokens, depth),
        None => Err(SyntaxErr::Syntax),
    }
}

/// Simple = Small { ';' Small } [';'] newline
#[tactic(auto, using(crate::proofs::LoopTurns::turns_more, crate::proofs::LoopTurns::turns_over), unfolding(bq_parse_grammar::specs::ReadingStatements::simple, bq_parse_grammar::specs::ReadingStatements::small_stmt))]
pub fn simple(
    alloc: Global,
    tokens: &mut Tokens<'_>,
    depth: usize,
) -> Result<Items<SmallStmt>, SyntaxErr>
    ensures { Reads (spec.simple depth tokens.old) result tokens.new }
{
    let mut found = Items::with_capacity(alloc, 1)?;
    // Each turn takes a token.
    for _turn in 0..tokens.left() {
        let line = tokens.line();
        let kind = small_kind(alloc, tokens, depth)?;
        found.push(SmallStmt { line, kind })?;
        if !tokens.eat(TokenKind::Semicolon) {
            return closed(tokens, TokenKind::Newline, found);
        }
        if tokens.eat(TokenKind::Newline) {
            return Ok(found);
        }
    }
    Err(SyntaxErr::Syntax)
}
