//! The productions, over the reader of the queries inside one more parenthesis or let.

ghost use Rattle.std.specs.Prelude.{[]};
ghost use Rattle.bq_query_parse.specs.Turns.{Reads};
ghost use Rattle.bq_query_parse.specs.Turns as turns;
ghost use Rattle.bq_query_parse.specs.Reading as spec;
ghost use Rattle.bq_query_parse.specs.Nested.{ReadsQuery};

use crate::refusal::QuerySyntaxErr;
use crate::tokens::QueryTokens;
use crate::tree::{Query, SetOperation};
use bq_base::Bytes;
use bq_query_lex::QueryTokenKind;
use sqlite_items::{Boxed, Items};
use std::alloc::Global;

#[derive(Drop)]
pub struct QueryGrammar<F> {
    pub alloc: Global,
    /// How many parentheses and lets may still be opened.
    pub depth: usize,
    pub query: F,
}

/// { Word }
#[tactic(auto, using(crate::proofs::LoopTurns::turns_more, crate::proofs::LoopTurns::turns_over), unfolding(crate::specs::Turns::repeat))]
fn words(alloc: Global, tokens: &mut QueryTokens<'_>) -> Result<Items<Bytes>, QuerySyntaxErr>
    ensures { Reads (turns.repeat spec.begins_word spec.a_word [] tokens.old) result tokens.new }
{
    let mut found = Items::new(alloc);
    // Each turn takes a token.
    for _turn in 0..tokens.left() {
        if !tokens.sees_word() {
            return Ok(found);
        }
        found.push(tokens.word(alloc)?)?;
    }
    Ok(found)
}

impl<F: Fn(Global, &mut QueryTokens<'_>, usize) -> Result<Query, QuerySyntaxErr>> QueryGrammar<F> {
    /// Reads a query, in a box.
    fn boxed(&self, tokens: &mut QueryTokens<'_>) -> Result<Boxed<Query>, QuerySyntaxErr>
        requires { ReadsQuery self.now.depth (F.pre self.now.query) (F.post self.now.query) }
        ensures { Reads (spec.query_to self.now.depth tokens.old) result tokens.new }
    {
        let query = (self.query)(self.alloc, tokens, self.depth)?;
        Ok(Boxed::new(self.alloc, query)?)
    }

    /// Arguments = [ Query { ',' Query } ] ')'
    #[tactic(auto, using(crate::proofs::LoopTurns::turns_more, crate::proofs::LoopTurns::turns_over), unfolding(crate::specs::Turns::repeat, crate::specs::Reading::arguments))]
    fn arguments(&self, tokens: &mut QueryTokens<'_>) -> Result<Items<Query>, QuerySyntaxErr>
        requires { ReadsQuery self.now.depth (F.pre self.now.query) (F.post self.now.query) }
        ensures { Reads (spec.arguments (spec.query_to self.now.depth) tokens.old) result tokens.new }
    {
        let mut found = Items::new(self.alloc);
        if tokens.eat(QueryTokenKind::Close) {
            return Ok(found);
        }
        found.push((self.query)(self.alloc, tokens, self.depth)?)?;
        // Each turn takes a token.
        for _turn in 0..tokens.left() {
            if !tokens.eat(QueryTokenKind::Comma) {
                break;
            }
            found.push((self.query)(self.alloc, tokens, self.depth)?)?;
        }
        tokens.expect(QueryTokenKind::Close)?;
        Ok(found)
    }

    /// '(' Query ')'
    #[tactic(auto, unfolding(crate::specs::Reading::parenthesized))]
    fn parenthesized(&self, tokens: &mut QueryTokens<'_>) -> Result<Query, QuerySyntaxErr>
        requires { ReadsQuery self.now.depth (F.pre self.now.query) (F.post self.now.query) }
        ensures { Reads (spec.parenthesized self.now.depth (spec.query_to self.now.depth) tokens.old) result tokens.new }
    {
        tokens.opening(self.depth)?;
        let query = self.boxed(tokens)?;
        tokens.expect(QueryTokenKind::Close)?;
        Ok(Query::Parenthesized(query))
    }

    /// 'set' '(' { Word } ')', after 'set'
    #[tactic(auto, unfolding(crate::specs::Reading::set_of))]
    fn set_of(&self, tokens: &mut QueryTokens<'_>) -> Result<Query, QuerySyntaxErr>
        ensures { Reads (spec.set_of self.now.depth tokens.old) result tokens.new }
    {
        tokens.opening(self.depth)?;
        let words = words(self.alloc, tokens)?;
        tokens.expect(QueryTokenKind::Close)?;
        Ok(Query::Set(words))
    }

    /// Operand = Word | variable | '(' Query ')' | 'set' '(' { Word } ')' | word '(' Arguments
    #[tactic(auto, unfolding(crate::specs::Reading::operand, crate::specs::Reading::call))]
    fn operand(&self, tokens: &mut QueryTokens<'_>) -> Result<Query, QuerySyntaxErr>
        requires { ReadsQuery self.now.depth (F.pre self.now.query) (F.post self.now.query) }
        ensures { Reads (spec.operand self.now.depth (spec.query_to self.now.depth) tokens.old) result tokens.new }
    {
        match tokens.peek() {
            Some(QueryTokenKind::Word) => {
                let word = tokens.bare(self.alloc)?;
                if !tokens.eat(QueryTokenKind::Open) {
                    return Ok(Query::Word(word));
                }
                if self.depth == 0 {
                    return Err(QuerySyntaxErr::Syntax);
                }
                Ok(Query::Call(word, self.arguments(tokens)?))
            }
            Some(QueryTokenKind::Quoted) => Ok(Query::Word(tokens.quoted(self.alloc)?)),
            Some(QueryTokenKind::Variable) => Ok(Query::Variable(tokens.variable(self.alloc)?)),
            Some(QueryTokenKind::Open) => self.parenthesized(tokens),
            Some(QueryTokenKind::Set) => {
                tokens.advance();
                self.set_of(tokens)
            }
            Some(_) => Err(QuerySyntaxErr::Syntax),
            None => Err(QuerySyntaxErr::Syntax),
        }
    }

    /// Query 'in' Query
    #[tactic(auto, unfolding(crate::specs::Reading::binding))]
    fn binding(&self, tokens: &mut QueryTokens<'_>, name: Bytes) -> Result<Query, QuerySyntaxErr>
        requires { ReadsQuery self.now.depth (F.pre self.now.query) (F.post self.now.query) }
        ensures { Reads (spec.binding (spec.query_to self.now.depth) name tokens.old) result tokens.new }
    {
        let value = self.boxed(tokens)?;
        tokens.expect(QueryTokenKind::In)?;
        let body = self.boxed(tokens)?;
        Ok(Query::Let(name, value, body))
    }

    /// 'let' name '=' Query 'in' Query, after 'let'
    #[tactic(auto, unfolding(crate::specs::Reading::let_in))]
    fn let_in(&self, tokens: &mut QueryTokens<'_>) -> Result<Query, QuerySyntaxErr>
        requires { ReadsQuery self.now.depth (F.pre self.now.query) (F.post self.now.query) }
        ensures { Reads (spec.let_in self.now.depth (spec.query_to self.now.depth) tokens.old) result tokens.new }
    {
        if self.depth == 0 {
            return Err(QuerySyntaxErr::Syntax);
        }
        let name = tokens.name(self.alloc)?;
        tokens.expect(QueryTokenKind::Equals)?;
        self.binding(tokens, name)
    }

    /// Let | Operand
    fn term(&self, tokens: &mut QueryTokens<'_>) -> Result<Query, QuerySyntaxErr>
        requires { ReadsQuery self.now.depth (F.pre self.now.query) (F.post self.now.query) }
        ensures { Reads (spec.term self.now.depth (spec.query_to self.now.depth) tokens.old) result tokens.new }
    {
        if tokens.eat(QueryTokenKind::Let) {
            return self.let_in(tokens);
        }
        self.operand(tokens)
    }

    /// operator Operand | operator Let
    #[tactic(auto, unfolding(crate::specs::Reading::an_operation))]
    fn an_operation(&self, tokens: &mut QueryTokens<'_>) -> Result<SetOperation, QuerySyntaxErr>
        requires { ReadsQuery self.now.depth (F.pre self.now.query) (F.post self.now.query) }
        ensures { Reads (spec.an_operation self.now.depth (spec.query_to self.now.depth) tokens.old) result tokens.new }
    {
        let operator = tokens.operator()?;
        Ok(SetOperation {
            operator,
            operand: self.term(tokens)?,
        })
    }

    /// Operations = { operator Operand } [ operator Let ]
    #[tactic(auto, using(crate::proofs::LoopTurns::turns_more, crate::proofs::LoopTurns::turns_over), unfolding(crate::specs::Reading::operations))]
    fn operations(
        &self,
        tokens: &mut QueryTokens<'_>,
    ) -> Result<Items<SetOperation>, QuerySyntaxErr>
        requires { ReadsQuery self.now.depth (F.pre self.now.query) (F.post self.now.query) }
        ensures { Reads (spec.operations self.now.depth (spec.query_to self.now.depth) [] tokens.old) result tokens.new }
    {
        let mut found = Items::new(self.alloc);
        // Each turn takes a token.
        for _turn in 0..tokens.left() {
            if !tokens.sees_operator() {
                return Ok(found);
            }
            let is_last = tokens.sees_let_next();
            found.push(self.an_operation(tokens)?)?;
            if is_last {
                return Ok(found);
            }
        }
        Ok(found)
    }

    /// Query = Let | Operand Operations
    #[tactic(auto, unfolding(crate::specs::Reading::query_in))]
    pub fn query_in(&self, tokens: &mut QueryTokens<'_>) -> Result<Query, QuerySyntaxErr>
        requires { ReadsQuery self.now.depth (F.pre self.now.query) (F.post self.now.query) }
        ensures { Reads (spec.query_in self.now.depth (spec.query_to self.now.depth) tokens.old) result tokens.new }
    {
        if tokens.eat(QueryTokenKind::Let) {
            return self.let_in(tokens);
        }
        let first = Boxed::new(self.alloc, self.operand(tokens)?)?;
        let operations = self.operations(tokens)?;
        if operations.is_empty() {
            return Ok(first.into_inner());
        }
        Ok(Query::Chain(first, operations))
    }
}
