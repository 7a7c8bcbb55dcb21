//! Operators, from the tightest to conditionals.

ghost use Rattle.std.specs.Prelude.{◌≡◌, ◌-◌, ◌<◌, [], length};
ghost use Rattle.bq_parse_grammar.specs.Turns.{Reads};
ghost use Rattle.bq_parse_grammar.specs.Turns as turns;
ghost use Rattle.bq_parse_grammar.specs.Operators as operators;
ghost use Rattle.bq_parse_grammar.specs.Grammar as grammar;
ghost use Rattle.bq_parse_grammar.specs.Reading as spec;
ghost use Rattle.bq_parse_grammar.specs.declared.tree.Choice.{roll-Choice};
ghost use Rattle.bq_parse_expression.specs.Nested.{ReadsNested};
ghost use Rattle.bq_parse_expression.specs.Further.{operations, further, chained_by};

use crate::grammar::Grammar;
use bq_parse_grammar::{
    Boxed, Choice, Comparison, Expr, Items, Nested, Operation, Operator, SyntaxErr, Tokens,
    UnaryOperator,
};
use bq_source::TokenKind;
use std::alloc::Global;

/// Returns an operand and what is done to it; the operand alone where nothing is.
fn binary_of(first: Boxed<Expr>, operations: Items<Operation>) -> Expr
    ensures { result ≡ grammar.binary_of first operations }
{
    // PROOF: it is called where an operator was seen, so at least one operation was read.
    if operations.is_empty() {
        return first.into_inner();
    }
    Expr::Binary(first, operations)
}

/// { 'not' }
#[tactic(auto, using(crate::proofs::LoopTurns::turns_more, crate::proofs::LoopTurns::turns_over, crate::proofs::Ahead::has_by, crate::proofs::Ahead::looked_up_by), unfolding(bq_parse_grammar::specs::Turns::repeat))]
fn negations(alloc: Global, tokens: &mut Tokens<'_>) -> Result<Items<UnaryOperator>, SyntaxErr>
    ensures { Reads (turns.repeat (spec.has operators.negation) (spec.looked_up operators.negation) [] tokens.old) result tokens.new }
{
    let mut found = Items::new(alloc);
    // Each turn takes a token.
    for _turn in 0..tokens.left() {
        let Some(negation) = tokens.negation() else {
            return Ok(found);
        };
        tokens.advance();
        found.push(negation)?;
    }
    Ok(found)
}

/// Returns the choices and the last value; the value alone where there is no choice.
fn chosen_of(choices: Items<Choice>, value: Boxed<Expr>) -> Expr
    ensures { result ≡ spec.chosen_of (choices, value) }
{
    // PROOF: it is called where `if` was seen, so at least one choice was read.
    if choices.is_empty() {
        return value.into_inner();
    }
    Expr::Conditional(choices, value)
}

fn choice_of(value: Boxed<Expr>, condition: Boxed<Expr>) -> Choice
    ensures { result ≡ roll-Choice (record { value = value; condition = condition }) }
{
    Choice {
        value: value.into_inner(),
        condition: condition.into_inner(),
    }
}

impl<F: Fn(Global, &mut Tokens<'_>, usize, Nested) -> Result<Expr, SyntaxErr>> Grammar<F> {
    /// Unary = { '+' | '-' | '~' } Primary
    #[tactic(auto, using(crate::proofs::LoopTurns::turns_more, crate::proofs::LoopTurns::turns_over, crate::proofs::Ahead::has_by, crate::proofs::Ahead::looked_up_by), unfolding(bq_parse_grammar::specs::Reading::prefixed, bq_parse_grammar::specs::Turns::repeat))]
    fn unary(&self, tokens: &mut Tokens<'_>) -> Result<Expr, SyntaxErr>
        requires { ReadsNested self.now.depth (F.pre self.now.phrase) (F.post self.now.phrase) }
        ensures { Reads (spec.unary (spec.primary (spec.phrase self.now.depth) (spec.variables_to self.now.depth)) tokens.old) result tokens.new }
    {
        let mut signs = Items::new(self.alloc);
        // Each turn takes a token.
        for _turn in 0..tokens.left() {
            let Some(sign) = tokens.sign() else {
                break;
            };
            tokens.advance();
            signs.push(sign)?;
        }
        let operand = self.primary(tokens)?;
        if signs.is_empty() {
            return Ok(operand);
        }
        Ok(Expr::Unary(signs, Boxed::new(self.alloc, operand)?))
    }

    /// Bor = Xor { '|' Xor }, and so on down to Prod = Unary { ('*' | '//' | '%' | '/') Unary }: Prod is level 1, Bor level 6
    #[cycle(binary)]
    #[tactic(auto, using(crate::proofs::LoopTurns::level_above, crate::proofs::LoopTurns::none_follow), unfolding(bq_parse_grammar::specs::Reading::chain))]
    fn binary(&self, tokens: &mut Tokens<'_>, level: usize) -> Result<Expr, SyntaxErr>
        requires { ReadsNested self.now.depth (F.pre self.now.phrase) (F.post self.now.phrase) }
        ensures { Reads (spec.binary (spec.primary (spec.phrase self.now.depth) (spec.variables_to self.now.depth)) level tokens.old) result tokens.new }
    {
        if level == 0 {
            return self.unary(tokens);
        }
        let first = self.binary(tokens, level - 1)?;
        if !tokens.sees_operator(level) {
            return Ok(first);
        }
        let first = Boxed::new(self.alloc, first)?;
        let operations = self.operations(tokens, level)?;
        Ok(binary_of(first, operations))
    }

    /// { operator Operand }
    #[tactic(auto, using(crate::proofs::LoopTurns::turns_more, crate::proofs::LoopTurns::turns_over), unfolding(bq_parse_grammar::specs::Turns::repeat, bq_parse_grammar::specs::Reading::operation))]
    #[cycle(binary)]
    fn operations(
        &self,
        tokens: &mut Tokens<'_>,
        level: usize,
    ) -> Result<Items<Operation>, SyntaxErr>
        requires chained { 0 < level }
        requires nested { ReadsNested self.now.depth (F.pre self.now.phrase) (F.post self.now.phrase) }
        ensures { Reads (operations level (spec.binary (spec.primary (spec.phrase self.now.depth) (spec.variables_to self.now.depth)) (level - 1)) tokens.old) result tokens.new }
    {
        let mut found = Items::new(self.alloc);
        // Each turn takes a token.
        for _turn in 0..tokens.left() {
            if !tokens.sees_operator(level) {
                return Ok(found);
            }
            let operator = tokens.operator(level)?;
            let operand = self.binary(tokens, level - 1)?;
            found.push(Operation { operator, operand })?;
        }
        Ok(found)
    }

    /// Reads what operators of up to this level do to an operand. Most operands have no operator after them, and need no look at each level.
    #[tactic(auto, using(crate::proofs::AfterOperand::further_above, crate::proofs::AfterOperand::further_none, crate::proofs::AfterOperand::nothing_further, crate::proofs::Ahead::has_by, crate::proofs::LoopTurns::none_follow))]
    pub fn further(
        &self,
        tokens: &mut Tokens<'_>,
        first: Expr,
        level: usize,
    ) -> Result<Expr, SyntaxErr>
        requires { ReadsNested self.now.depth (F.pre self.now.phrase) (F.post self.now.phrase) }
        ensures { Reads (further (spec.primary (spec.phrase self.now.depth) (spec.variables_to self.now.depth)) level first tokens.old) result tokens.new }
    {
        if level == 0 || tokens.operator_ahead().is_none() {
            return Ok(first);
        }
        let first = self.further(tokens, first, level - 1)?;
        if !tokens.sees_operator(level) {
            return Ok(first);
        }
        let first = Boxed::new(self.alloc, first)?;
        let operations = self.operations(tokens, level)?;
        Ok(binary_of(first, operations))
    }

    /// Bor, by its first operand and what operators do to it
    fn bor(&self, tokens: &mut Tokens<'_>) -> Result<Expr, SyntaxErr>
        requires { ReadsNested self.now.depth (F.pre self.now.phrase) (F.post self.now.phrase) }
        ensures { Reads (spec.binary (spec.primary (spec.phrase self.now.depth) (spec.variables_to self.now.depth)) 6 tokens.old) result tokens.new }
    {
        let first = self.unary(tokens)?;
        self.further(tokens, first, 6)
    }

    /// CompOp = '==' | '!=' | '<' | '>' | '<=' | '>=' | 'in' | 'not' 'in'
    #[tactic(auto, using(crate::proofs::Ahead::looked_up_by), unfolding(bq_parse_grammar::specs::Reading::comp_op))]
    fn comp_op(&self, tokens: &mut Tokens<'_>) -> Result<Comparison, SyntaxErr>
        ensures { Reads (spec.comp_op tokens.old) result tokens.new }
    {
        if tokens.eat(TokenKind::Not) {
            tokens.expect(TokenKind::In)?;
            return Ok(Comparison::NotIn);
        }
        let Some(comparison) = tokens.comparison() else {
            return Err(SyntaxErr::Syntax);
        };
        tokens.advance();
        Ok(comparison)
    }

    /// [ CompOp Bor ], after the first Bor
    #[tactic(auto, using(crate::proofs::Ahead::has_by))]
    pub fn comp_after(&self, tokens: &mut Tokens<'_>, left: Expr) -> Result<Expr, SyntaxErr>
        requires { ReadsNested self.now.depth (F.pre self.now.phrase) (F.post self.now.phrase) }
        ensures { Reads (spec.comp_after (spec.primary (spec.phrase self.now.depth) (spec.variables_to self.now.depth)) left tokens.old) result tokens.new }
    {
        if tokens.comparison().is_none() && !tokens.sees(TokenKind::Not) {
            return Ok(left);
        }
        let left = Boxed::new(self.alloc, left)?;
        let comparison = self.comp_op(tokens)?;
        let right = self.bor(tokens)?;
        Ok(Expr::Compare(left, comparison, Boxed::new(self.alloc, right)?))
    }

    /// Comp = Bor [ CompOp Bor ]
    #[inline(always)]
    #[tactic(auto, unfolding(bq_parse_grammar::specs::Reading::comp))]
    fn comp(&self, tokens: &mut Tokens<'_>) -> Result<Expr, SyntaxErr>
        requires { ReadsNested self.now.depth (F.pre self.now.phrase) (F.post self.now.phrase) }
        ensures { Reads (spec.comp (spec.primary (spec.phrase self.now.depth) (spec.variables_to self.now.depth)) tokens.old) result tokens.new }
    {
        let left = self.bor(tokens)?;
        self.comp_after(tokens, left)
    }

    /// Not = { 'not' } Comp
    #[inline(always)]
    #[tactic(auto, unfolding(bq_parse_grammar::specs::Reading::prefixed))]
    fn not_test(&self, tokens: &mut Tokens<'_>) -> Result<Expr, SyntaxErr>
        requires { ReadsNested self.now.depth (F.pre self.now.phrase) (F.post self.now.phrase) }
        ensures { Reads (spec.not_test (spec.primary (spec.phrase self.now.depth) (spec.variables_to self.now.depth)) tokens.old) result tokens.new }
    {
        let operators = negations(self.alloc, tokens)?;
        let operand = self.comp(tokens)?;
        if operators.is_empty() {
            return Ok(operand);
        }
        Ok(Expr::Unary(operators, Boxed::new(self.alloc, operand)?))
    }

    /// 'and' not_test
    #[tactic(auto, unfolding(bq_parse_grammar::specs::Reading::operation))]
    fn and_operation(&self, tokens: &mut Tokens<'_>) -> Result<Operation, SyntaxErr>
        requires { ReadsNested self.now.depth (F.pre self.now.phrase) (F.post self.now.phrase) }
        ensures { Reads (spec.operation 9 (spec.not_test (spec.primary (spec.phrase self.now.depth) (spec.variables_to self.now.depth))) tokens.old) result tokens.new }
    {
        let operator = tokens.operator(9)?;
        Ok(Operation {
            operator,
            operand: self.not_test(tokens)?,
        })
    }

    /// Reads the further operands of the chain.
    #[tactic(auto, using(crate::proofs::LoopTurns::turns_more, crate::proofs::LoopTurns::turns_over), unfolding(bq_parse_grammar::specs::Turns::repeat))]
    fn and_operations(&self, tokens: &mut Tokens<'_>) -> Result<Items<Operation>, SyntaxErr>
        requires { ReadsNested self.now.depth (F.pre self.now.phrase) (F.post self.now.phrase) }
        ensures { Reads (operations 9 (spec.not_test (spec.primary (spec.phrase self.now.depth) (spec.variables_to self.now.depth))) tokens.old) result tokens.new }
    {
        let mut found = Items::new(self.alloc);
        // Each turn takes a token.
        for _turn in 0..tokens.left() {
            if !tokens.sees_operator(9) {
                return Ok(found);
            }
            found.push(self.and_operation(tokens)?)?;
        }
        Ok(found)
    }

    /// { 'and' not_test }, after the first test
    #[tactic(auto, using(crate::proofs::LoopTurns::none_follow))]
    pub fn and_after(&self, tokens: &mut Tokens<'_>, first: Expr) -> Result<Expr, SyntaxErr>
        requires { ReadsNested self.now.depth (F.pre self.now.phrase) (F.post self.now.phrase) }
        ensures { Reads (chained_by 9 (spec.not_test (spec.primary (spec.phrase self.now.depth) (spec.variables_to self.now.depth))) first tokens.old) result tokens.new }
    {
        if !tokens.sees_operator(9) {
            return Ok(first);
        }
        let first = Boxed::new(self.alloc, first)?;
        let operations = self.and_operations(tokens)?;
        Ok(binary_of(first, operations))
    }

    /// And = not_test { 'and' not_test }
    #[inline(always)]
    #[tactic(auto, unfolding(bq_parse_grammar::specs::Reading::chain))]
    fn and_test(&self, tokens: &mut Tokens<'_>) -> Result<Expr, SyntaxErr>
        requires { ReadsNested self.now.depth (F.pre self.now.phrase) (F.post self.now.phrase) }
        ensures { Reads (spec.and_test (spec.primary (spec.phrase self.now.depth) (spec.variables_to self.now.depth)) tokens.old) result tokens.new }
    {
        let first = self.not_test(tokens)?;
        self.and_after(tokens, first)
    }

    /// 'or' and_test
    #[tactic(auto, unfolding(bq_parse_grammar::specs::Reading::operation))]
    fn or_operation(&self, tokens: &mut Tokens<'_>) -> Result<Operation, SyntaxErr>
        requires { ReadsNested self.now.depth (F.pre self.now.phrase) (F.post self.now.phrase) }
        ensures { Reads (spec.operation 10 (spec.and_test (spec.primary (spec.phrase self.now.depth) (spec.variables_to self.now.depth))) tokens.old) result tokens.new }
    {
        let operator = tokens.operator(10)?;
        Ok(Operation {
            operator,
            operand: self.and_test(tokens)?,
        })
    }

    /// Reads the further operands of the chain.
    #[tactic(auto, using(crate::proofs::LoopTurns::turns_more, crate::proofs::LoopTurns::turns_over), unfolding(bq_parse_grammar::specs::Turns::repeat))]
    fn or_operations(&self, tokens: &mut Tokens<'_>) -> Result<Items<Operation>, SyntaxErr>
        requires { ReadsNested self.now.depth (F.pre self.now.phrase) (F.post self.now.phrase) }
        ensures { Reads (operations 10 (spec.and_test (spec.primary (spec.phrase self.now.depth) (spec.variables_to self.now.depth))) tokens.old) result tokens.new }
    {
        let mut found = Items::new(self.alloc);
        // Each turn takes a token.
        for _turn in 0..tokens.left() {
            if !tokens.sees_operator(10) {
                return Ok(found);
            }
            found.push(self.or_operation(tokens)?)?;
        }
        Ok(found)
    }

    /// { 'or' and_test }, after the first test
    #[tactic(auto, using(crate::proofs::LoopTurns::none_follow))]
    pub fn or_after(&self, tokens: &mut Tokens<'_>, first: Expr) -> Result<Expr, SyntaxErr>
        requires { ReadsNested self.now.depth (F.pre self.now.phrase) (F.post self.now.phrase) }
        ensures { Reads (chained_by 10 (spec.and_test (spec.primary (spec.phrase self.now.depth) (spec.variables_to self.now.depth))) first tokens.old) result tokens.new }
    {
        if !tokens.sees_operator(10) {
            return Ok(first);
        }
        let first = Boxed::new(self.alloc, first)?;
        let operations = self.or_operations(tokens)?;
        Ok(binary_of(first, operations))
    }

    /// Or = and_test { 'or' and_test }
    #[tactic(auto, unfolding(bq_parse_grammar::specs::Reading::chain))]
    pub fn or_test(&self, tokens: &mut Tokens<'_>) -> Result<Expr, SyntaxErr>
        requires { ReadsNested self.now.depth (F.pre self.now.phrase) (F.post self.now.phrase) }
        ensures { Reads (spec.or_test (spec.primary (spec.phrase self.now.depth) (spec.variables_to self.now.depth)) tokens.old) result tokens.new }
    {
        let first = self.and_test(tokens)?;
        self.or_after(tokens, first)
    }

    /// Choice = 'if' Or 'else' Or
    #[tactic(auto, unfolding(bq_parse_grammar::specs::Reading::choice))]
    fn choice(&self, tokens: &mut Tokens<'_>) -> Result<(Boxed<Expr>, Boxed<Expr>), SyntaxErr>
        requires { ReadsNested self.now.depth (F.pre self.now.phrase) (F.post self.now.phrase) }
        ensures { Reads (spec.choice (spec.primary (spec.phrase self.now.depth) (spec.variables_to self.now.depth)) tokens.old) result tokens.new }
    {
        tokens.expect(TokenKind::If)?;
        let condition = Boxed::new(self.alloc, self.or_test(tokens)?)?;
        tokens.expect(TokenKind::Else)?;
        let value = self.or_test(tokens)?;
        Ok((condition, Boxed::new(self.alloc, value)?))
    }

    /// { Choice }, after a first value: the choices, and the last value
    #[tactic(auto, using(crate::proofs::LoopTurns::turns_more, crate::proofs::LoopTurns::turns_over), unfolding(bq_parse_grammar::specs::Turns::repeat))]
    fn choices(
        &self,
        tokens: &mut Tokens<'_>,
        mut value: Boxed<Expr>,
    ) -> Result<(Items<Choice>, Boxed<Expr>), SyntaxErr>
        requires { ReadsNested self.now.depth (F.pre self.now.phrase) (F.post self.now.phrase) }
        ensures { Reads (turns.turns (spec.choice_turn (spec.primary (spec.phrase self.now.depth) (spec.variables_to self.now.depth))) turns.whole (length tokens.old) ([], value) tokens.old) result tokens.new }
    {
        let mut choices = Items::new(self.alloc);
        // Each turn takes a token.
        for _turn in 0..tokens.left() {
            if !tokens.sees(TokenKind::If) {
                return Ok((choices, value));
            }
            let (condition, other) = self.choice(tokens)?;
            choices.push(choice_of(value, condition))?;
            value = other;
        }
        Ok((choices, value))
    }

    /// { Choice }, after a first value
    #[tactic(auto, using(crate::proofs::LoopTurns::no_choice), unfolding(bq_parse_grammar::specs::Reading::conditional))]
    pub fn conditional(&self, tokens: &mut Tokens<'_>, value: Expr) -> Result<Expr, SyntaxErr>
        requires { ReadsNested self.now.depth (F.pre self.now.phrase) (F.post self.now.phrase) }
        ensures { Reads (spec.conditional (spec.primary (spec.phrase self.now.depth) (spec.variables_to self.now.depth)) value tokens.old) result tokens.new }
    {
        if !tokens.sees(TokenKind::If) {
            return Ok(value);
        }
        let value = Boxed::new(self.alloc, value)?;
        let (choices, last) = self.choices(tokens, value)?;
        Ok(chosen_of(choices, last))
    }

    /// Test = Or { Choice } | 'lambda' ..
    pub fn test(&self, tokens: &mut Tokens<'_>) -> Result<Expr, SyntaxErr>
        requires { ReadsNested self.now.depth (F.pre self.now.phrase) (F.post self.now.phrase) }
        ensures { Reads (spec.test (spec.primary (spec.phrase self.now.depth) (spec.variables_to self.now.depth)) tokens.old) result tokens.new }
    {
        if tokens.sees(TokenKind::Lambda) {
            return Err(SyntaxErr::Lambda);
        }
        let value = self.or_test(tokens)?;
        self.conditional(tokens, value)
    }
}
