//! The variables of a `for`.

ghost use Rattle.bq_parse_grammar.specs.Turns.{Reads};
ghost use Rattle.bq_parse_grammar.specs.Turns as turns;
ghost use Rattle.bq_parse_grammar.specs.Reading as spec;
ghost use Rattle.bq_parse_grammar.specs.declared.tree.TargetExpr.TheVariants as target;
ghost use Rattle.bq_source.specs.declared.token.TokenKind.TheVariants as kind;
ghost use Rattle.bq_parse_expression.specs.Nested.{ReadsVar};

use crate::steps::{closed, only};
use bq_parse_grammar::{Items, SyntaxErr, TargetExpr, Tokens};
use bq_source::TokenKind;
use std::alloc::Global;

/// The rules of variables take the reader of those in brackets as a parameter, so that each is proved by itself.
#[derive(Drop)]
pub struct Variables<F> {
    pub alloc: Global,
    /// How many brackets may still be opened inside.
    pub depth: usize,
    pub var: F,
}

impl<F: Fn(Global, &mut Tokens<'_>, usize) -> Result<TargetExpr, SyntaxErr>> Variables<F> {
    fn nested(&self, tokens: &mut Tokens<'_>) -> Result<TargetExpr, SyntaxErr>
        requires { ReadsVar self.now.depth (F.pre self.now.var) (F.post self.now.var) }
        ensures { Reads (spec.var_to self.now.depth tokens.old) result tokens.new }
    {
        (self.var)(self.alloc, tokens, self.depth)
    }

    /// Reads the further variables up to the closing bracket, and returns them after those found.
    #[tactic(auto, using(crate::proofs::LoopTurns::turns_more, crate::proofs::LoopTurns::turns_over), unfolding(bq_parse_grammar::specs::Turns::listed_from))]
    fn listed(
        &self,
        tokens: &mut Tokens<'_>,
        close: TokenKind,
        mut found: Items<TargetExpr>,
    ) -> Result<Items<TargetExpr>, SyntaxErr>
        requires { ReadsVar self.now.depth (F.pre self.now.var) (F.post self.now.var) }
        ensures { Reads (turns.listed_from close (spec.var_to self.now.depth) found tokens.old) result tokens.new }
    {
        // Each turn takes a token.
        for _turn in 0..tokens.left() {
            if tokens.eat(close) {
                return Ok(found);
            }
            found.push(self.nested(tokens)?)?;
            if !tokens.eat(TokenKind::Comma) {
                return closed(tokens, close, found);
            }
        }
        Err(SyntaxErr::Syntax)
    }

    /// '(' Var ')' | '(' Var ',' [ Var { ',' Var } [','] ] ')', after the first bracket
    #[tactic(auto, unfolding(bq_parse_grammar::specs::Reading::var_in_parens))]
    fn in_parens(&self, tokens: &mut Tokens<'_>) -> Result<TargetExpr, SyntaxErr>
        requires { ReadsVar self.now.depth (F.pre self.now.var) (F.post self.now.var) }
        ensures { Reads (spec.var_in_parens (spec.var_to self.now.depth) tokens.old) result tokens.new }
    {
        let first = self.nested(tokens)?;
        if tokens.eat(TokenKind::Comma) {
            let found = only(self.alloc, first)?;
            return self
                .listed(tokens, TokenKind::RightParen, found)
                .map(TargetExpr::Tuple);
        }
        closed(tokens, TokenKind::RightParen, first)
    }

    /// Reads the items of a list in brackets after the first.
    fn list_after(
        &self,
        tokens: &mut Tokens<'_>,
        first: TargetExpr,
    ) -> Result<Items<TargetExpr>, SyntaxErr>
        requires { ReadsVar self.now.depth (F.pre self.now.var) (F.post self.now.var) }
        ensures { Reads (spec.items_after kind.RightBracket (spec.var_to self.now.depth) first tokens.old) result tokens.new }
    {
        let found = only(self.alloc, first)?;
        if tokens.eat(TokenKind::Comma) {
            return self.listed(tokens, TokenKind::RightBracket, found);
        }
        closed(tokens, TokenKind::RightBracket, found)
    }

    /// '[' Var { ',' Var } [','] ']', after the first bracket
    #[tactic(auto, unfolding(bq_parse_grammar::specs::Reading::var_in_brackets))]
    fn in_brackets(&self, tokens: &mut Tokens<'_>) -> Result<TargetExpr, SyntaxErr>
        requires { ReadsVar self.now.depth (F.pre self.now.var) (F.post self.now.var) }
        ensures { Reads (spec.var_in_brackets (spec.var_to self.now.depth) tokens.old) result tokens.new }
    {
        let first = self.nested(tokens)?;
        Ok(TargetExpr::List(self.list_after(tokens, first)?))
    }

    /// Var = identifier | '(' Vars [','] ')' | '[' Vars [','] ']'
    #[tactic(auto, unfolding(bq_parse_grammar::specs::Reading::var))]
    fn var(&self, tokens: &mut Tokens<'_>) -> Result<TargetExpr, SyntaxErr>
        requires { ReadsVar self.now.depth (F.pre self.now.var) (F.post self.now.var) }
        ensures { Reads (spec.var (spec.var_to self.now.depth) tokens.old) result tokens.new }
    {
        match tokens.peek() {
            Some(TokenKind::Identifier) => Ok(TargetExpr::Name(tokens.word(self.alloc)?)),
            Some(TokenKind::LeftParen) => {
                tokens.advance();
                self.in_parens(tokens)
            }
            Some(TokenKind::LeftBracket) => {
                tokens.advance();
                self.in_brackets(tokens)
            }
            _ => Err(SyntaxErr::Syntax),
        }
    }
}

/// Reads a variable in which fewer than `depth` brackets may be open.
pub fn var(alloc: Global, tokens: &mut Tokens<'_>, depth: usize) -> Result<TargetExpr, SyntaxErr>
    ensures { Reads (spec.var_to depth tokens.old) result tokens.new }
{
    if depth == 0 {
        return Err(SyntaxErr::Syntax);
    }
    Variables {
        alloc,
        depth: depth - 1,
        var,
    }
    .var(tokens)
}

/// ',' Var
fn var_after_comma(
    alloc: Global,
    tokens: &mut Tokens<'_>,
    depth: usize,
) -> Result<TargetExpr, SyntaxErr>
    ensures { Reads (spec.after_comma (spec.var_to depth) tokens.old) result tokens.new }
{
    tokens.expect(TokenKind::Comma)?;
    var(alloc, tokens, depth)
}

/// Reads the further variables after commas, and returns them after those found.
#[tactic(auto, using(crate::proofs::LoopTurns::turns_more, crate::proofs::LoopTurns::turns_over), unfolding(bq_parse_grammar::specs::Turns::repeat))]
fn further_vars(
    alloc: Global,
    tokens: &mut Tokens<'_>,
    depth: usize,
    mut found: Items<TargetExpr>,
) -> Result<Items<TargetExpr>, SyntaxErr>
    ensures { Reads (turns.repeat (turns.sees kind.Comma) (spec.after_comma (spec.var_to depth)) found tokens.old) result tokens.new }
{
    // Each turn takes a token.
    for _turn in 0..tokens.left() {
        if !tokens.sees(TokenKind::Comma) {
            return Ok(found);
        }
        found.push(var_after_comma(alloc, tokens, depth)?)?;
    }
    Ok(found)
}

/// Vars = Var { ',' Var }
#[tactic(auto, unfolding(bq_parse_grammar::specs::Reading::vars))]
pub fn vars(alloc: Global, tokens: &mut Tokens<'_>, depth: usize) -> Result<TargetExpr, SyntaxErr>
    ensures { Reads (spec.variables_to depth tokens.old) result tokens.new }
{
    let first = var(alloc, tokens, depth)?;
    if !tokens.sees(TokenKind::Comma) {
        return Ok(first);
    }
    let mut found = only(alloc, first)?;
    found.push(var_after_comma(alloc, tokens, depth)?)?;
    Ok(TargetExpr::Tuple(further_vars(alloc, tokens, depth, found)?))
}
