//! Statements with blocks, over the reader of the statements in them.

ghost use Rattle.std.specs.Prelude.{Ok};
ghost use Rattle.bq_parse_grammar.specs.Turns.{Reads, ◌>>=◌ as and_then};
ghost use Rattle.bq_parse_grammar.specs.Turns as turns;
ghost use Rattle.bq_parse_grammar.specs.ReadingStatements as spec;
ghost use Rattle.bq_source.specs.declared.token.TokenKind.TheVariants as kind;
ghost use Rattle.bq_parse.specs.Inner.{ReadsStatement};

use crate::parameter_list::parameters;
use crate::small::simple;
use bq_parse_expression::{closed, expr_list, only, phrase, vars};
use bq_parse_grammar::{Branch, Expr, Items, Nested, Stmt, SyntaxErr, Tokens};
use bq_source::TokenKind;
use std::alloc::Global;

/// The rules of blocks take the reader of the statements in them as a parameter, so that each rule is proved by itself.
#[derive(Drop)]
pub struct BlockRules<F> {
    pub alloc: Global,
    /// One more than how many brackets and indents may still be opened.
    pub depth: usize,
    /// One more than how many brackets and indents may still be opened in a block.
    pub inside: usize,
    pub statement: F,
}

impl<F: Fn(Global, &mut Tokens<'_>, usize) -> Result<Stmt, SyntaxErr>> BlockRules<F> {
    fn nested(&self, tokens: &mut Tokens<'_>) -> Result<Stmt, SyntaxErr>
        requires { ReadsStatement self.now.inside (F.pre self.now.statement) (F.post self.now.statement) }
        ensures { Reads (spec.statement self.now.inside tokens.old) result tokens.new }
    {
        (self.statement)(self.alloc, tokens, self.inside)
    }

    /// Suite = newline indent Stmt { Stmt } outdent | Simple
    #[tactic(auto, using(crate::proofs::LoopTurns::turns_more, crate::proofs::LoopTurns::turns_over), unfolding(bq_parse_grammar::specs::Turns::repeat, bq_parse_grammar::specs::ReadingStatements::block, bq_parse_grammar::specs::ReadingStatements::suite))]
    fn suite(&self, tokens: &mut Tokens<'_>) -> Result<Items<Stmt>, SyntaxErr>
        requires { ReadsStatement self.now.inside (F.pre self.now.statement) (F.post self.now.statement) }
        ensures { Reads (spec.suite self.now.depth (spec.statement self.now.inside) tokens.old) result tokens.new }
    {
        if !tokens.eat(TokenKind::Newline) {
            let line = simple(self.alloc, tokens, self.depth)?;
            return Ok(only(self.alloc, Stmt::Simple(line))?);
        }
        tokens.expect(TokenKind::Indent)?;
        let mut found = Items::new(self.alloc);
        found.push(self.nested(tokens)?)?;
        // Each turn takes a token.
        for _turn in 0..tokens.left() {
            if tokens.sees(TokenKind::Outdent) {
                break;
            }
            found.push(self.nested(tokens)?)?;
        }
        closed(tokens, TokenKind::Outdent, found)
    }

    /// Returns the value, and reads ':' Suite
    fn beside<T: Drop>(
        &self,
        tokens: &mut Tokens<'_>,
        value: T,
    ) -> Result<(T, Items<Stmt>), SyntaxErr>
        requires { ReadsStatement self.now.inside (F.pre self.now.statement) (F.post self.now.statement) }
        ensures { Reads (and_then (turns.expect kind.Colon tokens.old) (λ _ us. and_then (spec.suite self.now.depth (spec.statement self.now.inside) us) (λ xs rest. Ok ((value, xs), rest)))) result tokens.new }
    {
        tokens.expect(TokenKind::Colon)?;
        let block = self.suite(tokens)?;
        Ok((value, block))
    }

    /// Branch = Test ':' Suite
    #[tactic(auto, unfolding(bq_parse_grammar::specs::ReadingStatements::branch))]
    fn branch(&self, tokens: &mut Tokens<'_>) -> Result<Branch, SyntaxErr>
        requires { ReadsStatement self.now.inside (F.pre self.now.statement) (F.post self.now.statement) }
        ensures { Reads (spec.branch self.now.depth (spec.statement self.now.inside) tokens.old) result tokens.new }
    {
        let condition = phrase(self.alloc, tokens, self.depth, Nested::Test)?;
        let (condition, block) = self.beside(tokens, condition)?;
        Ok(Branch { condition, block })
    }

    /// 'elif' Branch
    #[tactic(auto, unfolding(bq_parse_grammar::specs::ReadingStatements::elif))]
    fn elif(&self, tokens: &mut Tokens<'_>) -> Result<Branch, SyntaxErr>
        requires { ReadsStatement self.now.inside (F.pre self.now.statement) (F.post self.now.statement) }
        ensures { Reads (spec.elif self.now.depth (spec.statement self.now.inside) tokens.old) result tokens.new }
    {
        tokens.expect(TokenKind::Elif)?;
        self.branch(tokens)
    }

    /// Reads the further branches, and returns them after those found.
    #[tactic(auto, using(crate::proofs::LoopTurns::turns_more, crate::proofs::LoopTurns::turns_over), unfolding(bq_parse_grammar::specs::Turns::repeat))]
    fn elifs(
        &self,
        tokens: &mut Tokens<'_>,
        mut found: Items<Branch>,
    ) -> Result<Items<Branch>, SyntaxErr>
        requires { ReadsStatement self.now.inside (F.pre self.now.statement) (F.post self.now.statement) }
        ensures { Reads (turns.repeat (turns.sees kind.Elif) (spec.elif self.now.depth (spec.statement self.now.inside)) found tokens.old) result tokens.new }
    {
        // Each turn takes a token.
        for _turn in 0..tokens.left() {
            if !tokens.sees(TokenKind::Elif) {
                return Ok(found);
            }
            found.push(self.elif(tokens)?)?;
        }
        Ok(found)
    }

    /// [ 'else' ':' Suite ]
    #[tactic(auto, unfolding(bq_parse_grammar::specs::ReadingStatements::else_suite))]
    fn else_suite(&self, tokens: &mut Tokens<'_>) -> Result<Items<Stmt>, SyntaxErr>
        requires { ReadsStatement self.now.inside (F.pre self.now.statement) (F.post self.now.statement) }
        ensures { Reads (spec.else_suite self.now.depth (spec.statement self.now.inside) tokens.old) result tokens.new }
    {
        if !tokens.eat(TokenKind::Else) {
            return Ok(Items::new(self.alloc));
        }
        tokens.expect(TokenKind::Colon)?;
        self.suite(tokens)
    }

    /// 'if' Branch { 'elif' Branch } [ 'else' ':' Suite ], after 'if'
    #[tactic(auto, unfolding(bq_parse_grammar::specs::ReadingStatements::if_stmt))]
    fn if_stmt(&self, tokens: &mut Tokens<'_>) -> Result<Stmt, SyntaxErr>
        requires { ReadsStatement self.now.inside (F.pre self.now.statement) (F.post self.now.statement) }
        ensures { Reads (spec.if_stmt self.now.depth (spec.statement self.now.inside) tokens.old) result tokens.new }
    {
        let first = self.branch(tokens)?;
        let branches = self.elifs(tokens, only(self.alloc, first)?)?;
        Ok(Stmt::If(branches, self.else_suite(tokens)?))
    }

    /// Returns the value, and reads 'in' Expr
    fn iterated<T: Drop>(&self, tokens: &mut Tokens<'_>, value: T) -> Result<(T, Expr), SyntaxErr>
        ensures { Reads (and_then (turns.expect kind.In tokens.old) (λ _ us. and_then (spec.expr_to self.now.depth us) (λ x rest. Ok ((value, x), rest)))) result tokens.new }
    {
        tokens.expect(TokenKind::In)?;
        let iterable = expr_list(self.alloc, tokens, self.depth)?;
        Ok((value, iterable))
    }

    /// 'for' Vars 'in' Expr ':' Suite, after 'for'
    #[tactic(auto, unfolding(bq_parse_grammar::specs::ReadingStatements::for_stmt))]
    fn for_stmt(&self, tokens: &mut Tokens<'_>) -> Result<Stmt, SyntaxErr>
        requires { ReadsStatement self.now.inside (F.pre self.now.statement) (F.post self.now.statement) }
        ensures { Reads (spec.for_stmt self.now.depth (spec.statement self.now.inside) tokens.old) result tokens.new }
    {
        let variables = vars(self.alloc, tokens, self.depth)?;
        let header = self.iterated(tokens, variables)?;
        let ((variables, iterable), block) = self.beside(tokens, header)?;
        Ok(Stmt::For(variables, iterable, block))
    }

    /// Stmt = If | For | 'def' identifier '(' Parameters ':' Suite | Simple
    #[tactic(auto, unfolding(bq_parse_grammar::specs::ReadingStatements::stmt, bq_parse_grammar::specs::ReadingStatements::def_stmt, bq_parse_grammar::specs::ReadingStatements::simple_stmt))]
    pub fn stmt(&self, tokens: &mut Tokens<'_>) -> Result<Stmt, SyntaxErr>
        requires { ReadsStatement self.now.inside (F.pre self.now.statement) (F.post self.now.statement) }
        ensures { Reads (spec.stmt self.now.depth (spec.statement self.now.inside) tokens.old) result tokens.new }
    {
        match tokens.peek() {
            Some(TokenKind::If) => {
                tokens.advance();
                self.if_stmt(tokens)
            }
            Some(TokenKind::For) => {
                tokens.advance();
                self.for_stmt(tokens)
            }
            Some(TokenKind::Def) => {
                tokens.advance();
                let name = tokens.word(self.alloc)?;
                tokens.expect(TokenKind::LeftParen)?;
                let signature = (name, parameters(self.alloc, tokens, self.depth)?);
                let ((name, parameters), block) = self.beside(tokens, signature)?;
                Ok(Stmt::Def(name, parameters, block))
            }
            Some(_) => Ok(Stmt::Simple(simple(self.alloc, tokens, self.depth)?)),
            None => Err(SyntaxErr::Syntax),
        }
    }
}
