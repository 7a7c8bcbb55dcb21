//! Operands: names, literals, and what stands in brackets.

ghost use Rattle.std.specs.Prelude.{◌≡◌, IfOk};
ghost use Rattle.bq_parse_grammar.specs.Turns.{Reads};
ghost use Rattle.bq_parse_grammar.specs.Turns as turns;
ghost use Rattle.bq_parse_grammar.specs.Grammar as grammar;
ghost use Rattle.bq_parse_grammar.specs.Reading as spec;
ghost use Rattle.bq_parse_grammar.specs.declared.tree.Nested.TheVariants.{Test};
ghost use Rattle.bq_source.specs.declared.token.TokenKind.TheVariants as kind;
ghost use Rattle.bq_parse_expression.specs.Nested.{ReadsNested};

use crate::grammar::Grammar;
use crate::steps::{begun, closed, only};
use crate::variables::vars;
use bq_parse_grammar::{
    Boxed, Clause, ComprehensionFrame, Expr, Items, Nested, Pair, SyntaxErr, Tokens,
};
use bq_source::TokenKind;
use std::alloc::{AllocError, Global};

/// Returns whether a clause of a comprehension comes next.
fn sees_clause(tokens: &Tokens<'_>) -> bool
    ensures { result ≡ spec.begins_clause tokens.now }
{
    tokens.sees(TokenKind::For) || tokens.sees(TokenKind::If)
}

/// Returns an operand in parentheses. Before a dot its tree keeps them, as an operand to which nothing is done.
fn parenthesized(alloc: Global, tokens: &Tokens<'_>, operand: Expr) -> Result<Expr, AllocError>
    ensures { IfOk result (λ x. x ≡ grammar.parenthesized_of (turns.sees kind.Dot tokens.now) operand) }
{
    if tokens.sees(TokenKind::Dot) {
        return Ok(Expr::Primary(Boxed::new(alloc, operand)?, Items::new(alloc)));
    }
    Ok(operand)
}

impl<F: Fn(Global, &mut Tokens<'_>, usize, Nested) -> Result<Expr, SyntaxErr>> Grammar<F> {
    /// Pair = Test ':' Test
    #[tactic(auto, unfolding(bq_parse_grammar::specs::Reading::pair))]
    fn pair(&self, tokens: &mut Tokens<'_>) -> Result<Pair, SyntaxErr>
        requires { ReadsNested self.now.depth (F.pre self.now.phrase) (F.post self.now.phrase) }
        ensures { Reads (spec.pair (spec.phrase self.now.depth) (spec.variables_to self.now.depth) tokens.old) result tokens.new }
    {
        let key = self.nested(tokens, Nested::Test)?;
        let (key, value) = self.beside(tokens, key, TokenKind::Colon, Nested::Test)?;
        Ok(Pair { key, value })
    }

    /// ForClause = 'for' Vars 'in' Or
    #[tactic(auto, unfolding(bq_parse_grammar::specs::Reading::for_clause))]
    fn for_clause(&self, tokens: &mut Tokens<'_>) -> Result<Clause, SyntaxErr>
        requires { ReadsNested self.now.depth (F.pre self.now.phrase) (F.post self.now.phrase) }
        ensures { Reads (spec.for_clause (spec.phrase self.now.depth) (spec.variables_to self.now.depth) tokens.old) result tokens.new }
    {
        tokens.expect(TokenKind::For)?;
        let variables = vars(self.alloc, tokens, self.depth)?;
        let (variables, iterable) = self.beside(tokens, variables, TokenKind::In, Nested::Or)?;
        Ok(Clause::For(variables, iterable))
    }

    /// Clause = ForClause | 'if' Or
    #[tactic(auto, unfolding(bq_parse_grammar::specs::Reading::clause))]
    fn clause(&self, tokens: &mut Tokens<'_>) -> Result<Clause, SyntaxErr>
        requires { ReadsNested self.now.depth (F.pre self.now.phrase) (F.post self.now.phrase) }
        ensures { Reads (spec.clause (spec.phrase self.now.depth) (spec.variables_to self.now.depth) tokens.old) result tokens.new }
    {
        if tokens.eat(TokenKind::If) {
            Ok(Clause::If(self.nested(tokens, Nested::Or)?))
        } else {
            self.for_clause(tokens)
        }
    }

    /// ')' | ',' [ Test { ',' Test } [','] ] ')', after the first test
    fn parens_after(&self, tokens: &mut Tokens<'_>, first: Expr) -> Result<Expr, SyntaxErr>
        requires { ReadsNested self.now.depth (F.pre self.now.phrase) (F.post self.now.phrase) }
        ensures { Reads (spec.parens_after (spec.phrase self.now.depth) (spec.variables_to self.now.depth) first tokens.old) result tokens.new }
    {
        if tokens.eat(TokenKind::Comma) {
            let found = only(self.alloc, first)?;
            return self
                .listed(tokens, TokenKind::RightParen, found)
                .map(Expr::Tuple);
        }
        let operand = closed(tokens, TokenKind::RightParen, first)?;
        Ok(parenthesized(self.alloc, tokens, operand)?)
    }

    /// '(' ')' | '(' Test ')' | '(' Test ',' [ Test { ',' Test } [','] ] ')', after the first bracket
    #[tactic(auto, unfolding(bq_parse_grammar::specs::Reading::in_parens))]
    fn in_parens(&self, tokens: &mut Tokens<'_>) -> Result<Expr, SyntaxErr>
        requires { ReadsNested self.now.depth (F.pre self.now.phrase) (F.post self.now.phrase) }
        ensures { Reads (spec.in_parens (spec.phrase self.now.depth) (spec.variables_to self.now.depth) tokens.old) result tokens.new }
    {
        if tokens.eat(TokenKind::RightParen) {
            return Ok(Expr::Tuple(Items::new(self.alloc)));
        }
        let first = self.nested(tokens, Nested::Test)?;
        self.parens_after(tokens, first)
    }

    /// Reads the further clauses, and returns them after those found.
    #[tactic(auto, using(crate::proofs::LoopTurns::turns_more, crate::proofs::LoopTurns::turns_over), unfolding(bq_parse_grammar::specs::Turns::repeat))]
    fn further_clauses(
        &self,
        tokens: &mut Tokens<'_>,
        mut found: Items<Clause>,
    ) -> Result<Items<Clause>, SyntaxErr>
        requires { ReadsNested self.now.depth (F.pre self.now.phrase) (F.post self.now.phrase) }
        ensures { Reads (turns.repeat spec.begins_clause (spec.clause (spec.phrase self.now.depth) (spec.variables_to self.now.depth)) found tokens.old) result tokens.new }
    {
        // Each turn takes a token.
        for _turn in 0..tokens.left() {
            if !sees_clause(tokens) {
                return Ok(found);
            }
            found.push(self.clause(tokens)?)?;
        }
        Ok(found)
    }

    /// Clauses = ForClause { Clause }
    #[tactic(auto, unfolding(bq_parse_grammar::specs::Reading::clauses))]
    fn clauses(&self, tokens: &mut Tokens<'_>) -> Result<Items<Clause>, SyntaxErr>
        requires { ReadsNested self.now.depth (F.pre self.now.phrase) (F.post self.now.phrase) }
        ensures { Reads (spec.clauses (spec.phrase self.now.depth) (spec.variables_to self.now.depth) tokens.old) result tokens.new }
    {
        let first = self.for_clause(tokens)?;
        self.further_clauses(tokens, only(self.alloc, first)?)
    }

    /// Reads a comprehension's clauses, and its closing bracket.
    #[tactic(auto, unfolding(bq_parse_grammar::specs::Reading::comprehension))]
    fn comprehension(
        &self,
        tokens: &mut Tokens<'_>,
        close: TokenKind,
    ) -> Result<Items<Clause>, SyntaxErr>
        requires { ReadsNested self.now.depth (F.pre self.now.phrase) (F.post self.now.phrase) }
        ensures { Reads (spec.comprehension (spec.phrase self.now.depth) (spec.variables_to self.now.depth) close tokens.old) result tokens.new }
    {
        let clauses = self.clauses(tokens)?;
        closed(tokens, close, clauses)
    }

    /// '[' [ Test { ',' Test } [','] ] ']' | '[' Test Clauses ']', after the first bracket
    #[tactic(auto, unfolding(bq_parse_grammar::specs::Reading::in_brackets))]
    fn in_brackets(&self, tokens: &mut Tokens<'_>) -> Result<Expr, SyntaxErr>
        requires { ReadsNested self.now.depth (F.pre self.now.phrase) (F.post self.now.phrase) }
        ensures { Reads (spec.in_brackets (spec.phrase self.now.depth) (spec.variables_to self.now.depth) tokens.old) result tokens.new }
    {
        if tokens.eat(TokenKind::RightBracket) {
            return Ok(Expr::List(Items::new(self.alloc)));
        }
        let first = self.nested(tokens, Nested::Test)?;
        if tokens.sees(TokenKind::For) {
            let element = Boxed::new(self.alloc, first)?;
            let clauses = self.comprehension(tokens, TokenKind::RightBracket)?;
            let clauses = Boxed::new(self.alloc, clauses)?;
            return Ok(Expr::ListComprehension(element, clauses, ComprehensionFrame::Shared));
        }
        let more = tokens.items_in_sight(TokenKind::RightBracket);
        let found = begun(self.alloc, first, more)?;
        if tokens.eat(TokenKind::Comma) {
            return Ok(Expr::List(self.listed(tokens, TokenKind::RightBracket, found)?));
        }
        Ok(Expr::List(closed(tokens, TokenKind::RightBracket, found)?))
    }

    /// Reads the further pairs up to the closing brace, and returns them after those found.
    #[tactic(auto, using(crate::proofs::LoopTurns::turns_more, crate::proofs::LoopTurns::turns_over), unfolding(bq_parse_grammar::specs::Turns::listed_from))]
    fn listed_pairs(
        &self,
        tokens: &mut Tokens<'_>,
        mut found: Items<Pair>,
    ) -> Result<Items<Pair>, SyntaxErr>
        requires { ReadsNested self.now.depth (F.pre self.now.phrase) (F.post self.now.phrase) }
        ensures { Reads (turns.listed_from kind.RightBrace (spec.pair (spec.phrase self.now.depth) (spec.variables_to self.now.depth)) found tokens.old) result tokens.new }
    {
        // Each turn takes a token.
        for _turn in 0..tokens.left() {
            if tokens.eat(TokenKind::RightBrace) {
                return Ok(found);
            }
            found.push(self.pair(tokens)?)?;
            if !tokens.eat(TokenKind::Comma) {
                return closed(tokens, TokenKind::RightBrace, found);
            }
        }
        Err(SyntaxErr::Syntax)
    }

    /// Reads the pairs of a dict after the first.
    fn pairs_after(&self, tokens: &mut Tokens<'_>, first: Pair) -> Result<Items<Pair>, SyntaxErr>
        requires { ReadsNested self.now.depth (F.pre self.now.phrase) (F.post self.now.phrase) }
        ensures { Reads (spec.items_after kind.RightBrace (spec.pair (spec.phrase self.now.depth) (spec.variables_to self.now.depth)) first tokens.old) result tokens.new }
    {
        let more = tokens.items_in_sight(TokenKind::RightBrace);
        let found = begun(self.alloc, first, more)?;
        if tokens.eat(TokenKind::Comma) {
            return self.listed_pairs(tokens, found);
        }
        closed(tokens, TokenKind::RightBrace, found)
    }

    /// Reads what stands in braces after the first pair.
    fn braces_after(&self, tokens: &mut Tokens<'_>, first: Pair) -> Result<Expr, SyntaxErr>
        requires { ReadsNested self.now.depth (F.pre self.now.phrase) (F.post self.now.phrase) }
        ensures { Reads (spec.braces_after (spec.phrase self.now.depth) (spec.variables_to self.now.depth) first tokens.old) result tokens.new }
    {
        if tokens.sees(TokenKind::For) {
            let element = Boxed::new(self.alloc, first)?;
            let clauses = self.comprehension(tokens, TokenKind::RightBrace)?;
            let clauses = Boxed::new(self.alloc, clauses)?;
            return Ok(Expr::DictComprehension(element, clauses, ComprehensionFrame::Shared));
        }
        Ok(Expr::Dict(self.pairs_after(tokens, first)?))
    }

    /// '{' [ Pair { ',' Pair } [','] ] '}' | '{' Pair Clauses '}', after the first brace
    #[tactic(auto, unfolding(bq_parse_grammar::specs::Reading::in_braces))]
    fn in_braces(&self, tokens: &mut Tokens<'_>) -> Result<Expr, SyntaxErr>
        requires { ReadsNested self.now.depth (F.pre self.now.phrase) (F.post self.now.phrase) }
        ensures { Reads (spec.in_braces (spec.phrase self.now.depth) (spec.variables_to self.now.depth) tokens.old) result tokens.new }
    {
        if tokens.eat(TokenKind::RightBrace) {
            return Ok(Expr::Dict(Items::new(self.alloc)));
        }
        let first = self.pair(tokens)?;
        self.braces_after(tokens, first)
    }

    /// Operand = identifier | int | string | what stands in brackets
    #[tactic(auto, using(crate::proofs::Ahead::string_is_operand), unfolding(bq_parse_grammar::specs::Reading::operand))]
    pub fn operand(&self, tokens: &mut Tokens<'_>) -> Result<Expr, SyntaxErr>
        requires { ReadsNested self.now.depth (F.pre self.now.phrase) (F.post self.now.phrase) }
        ensures { Reads (spec.operand (spec.phrase self.now.depth) (spec.variables_to self.now.depth) tokens.old) result tokens.new }
    {
        match tokens.peek() {
            Some(TokenKind::Identifier) => Ok(Expr::Name(tokens.word(self.alloc)?)),
            Some(TokenKind::Int) => tokens.int(),
            Some(TokenKind::String) => Ok(Expr::String(tokens.text(self.alloc)?)),
            Some(TokenKind::LeftParen) => {
                tokens.advance();
                self.in_parens(tokens)
            }
            Some(TokenKind::LeftBracket) => {
                tokens.advance();
                self.in_brackets(tokens)
            }
            Some(TokenKind::LeftBrace) => {
                tokens.advance();
                self.in_braces(tokens)
            }
            _ => Err(SyntaxErr::Syntax),
        }
    }
}
