//! Loads: what a file takes from another one.

ghost use Rattle.bq_parse_grammar.specs.Turns.{Reads};
ghost use Rattle.bq_parse_grammar.specs.ReadingStatements as spec;

use bq_base::Bytes;
use bq_parse_expression::closed;
use bq_parse_grammar::{
    Identifier, Items, Load, LoadClause, Referent, SmallKind, SyntaxErr, Tokens, is_identifier,
};
use bq_source::TokenKind;
use std::alloc::Global;

/// Reads a string, and returns what it stands for.
#[tactic(auto, using(crate::proofs::Strings::string_seen, crate::proofs::Strings::text_seen, crate::proofs::Strings::text_unseen))]
fn text(alloc: Global, tokens: &mut Tokens<'_>) -> Result<Bytes, SyntaxErr>
    ensures { Reads (spec.text tokens.old) result tokens.new }
{
    if !tokens.sees(TokenKind::String) {
        return Err(SyntaxErr::Syntax);
    }
    tokens.text(alloc)
}

/// Reads a string that is a name.
#[tactic(auto, unfolding(bq_parse_grammar::specs::ReadingStatements::symbol))]
fn symbol(alloc: Global, tokens: &mut Tokens<'_>) -> Result<Bytes, SyntaxErr>
    ensures { Reads (spec.symbol tokens.old) result tokens.new }
{
    let name = text(alloc, tokens)?;
    if is_identifier(name.as_slice()) {
        Ok(name)
    } else {
        Err(SyntaxErr::Syntax)
    }
}

/// LoadClause = [ identifier '=' ] string
#[tactic(auto, unfolding(bq_parse_grammar::specs::ReadingStatements::load_clause))]
fn load_clause(alloc: Global, tokens: &mut Tokens<'_>) -> Result<LoadClause, SyntaxErr>
    ensures { Reads (spec.load_clause tokens.old) result tokens.new }
{
    if tokens.sees(TokenKind::String) {
        let line = tokens.line();
        let symbol = symbol(alloc, tokens)?;
        let name = symbol.share()?;
        let referent = Referent::Unresolved(line);
        let local = Identifier { name, referent };
        return Ok(LoadClause { local, symbol });
    }
    let local = tokens.word(alloc)?;
    tokens.expect(TokenKind::Assign)?;
    Ok(LoadClause {
        local,
        symbol: symbol(alloc, tokens)?,
    })
}

/// Load = 'load' '(' string { ',' LoadClause } [','] ')', after 'load'
#[tactic(auto, using(crate::proofs::LoopTurns::turns_more, crate::proofs::LoopTurns::turns_over), unfolding(bq_parse_grammar::specs::ReadingStatements::load, bq_parse_grammar::specs::Turns::listed_from))]
pub fn load(alloc: Global, tokens: &mut Tokens<'_>) -> Result<SmallKind, SyntaxErr>
    ensures { Reads (spec.load tokens.old) result tokens.new }
{
    tokens.expect(TokenKind::LeftParen)?;
    let label = text(alloc, tokens)?;
    let mut clauses = Items::new(alloc);
    if !tokens.eat(TokenKind::Comma) {
        let load = SmallKind::Load(Load { label, clauses });
        return closed(tokens, TokenKind::RightParen, load);
    }
    // Each turn takes a token.
    for _turn in 0..tokens.left() {
        if tokens.eat(TokenKind::RightParen) {
            return Ok(SmallKind::Load(Load { label, clauses }));
        }
        clauses.push(load_clause(alloc, tokens)?)?;
        if !tokens.eat(TokenKind::Comma) {
            let load = SmallKind::Load(Load { label, clauses });
            return closed(tokens, TokenKind::RightParen, load);
        }
    }
    Err(SyntaxErr::Syntax)
}
