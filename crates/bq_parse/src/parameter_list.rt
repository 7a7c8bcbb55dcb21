//! The parameters of a function.

ghost use Rattle.std.specs.Prelude.{◌≡◌, true, false, MatchResult};
ghost use Rattle.bq_parse_grammar.specs.declared.refusal.SyntaxErr.TheVariants.{Syntax};
ghost use Rattle.bq_parse_grammar.specs.Turns.{Reads};
ghost use Rattle.bq_parse_grammar.specs.Statements as grammar;
ghost use Rattle.bq_parse_grammar.specs.ReadingStatements as spec;

use bq_parse_expression::{closed, phrase};
use bq_parse_grammar::{
    AllowedParameters, Items, Nested, Parameter, ParameterKind, SyntaxErr, Tokens,
};
use bq_source::TokenKind;
use std::alloc::Global;

/// Returns what may come after a parameter of this kind, or `None` where that parameter is not allowed.
fn parameters_after(allowed: AllowedParameters, kind: ParameterKind) -> Option<AllowedParameters>
    ensures { result ≡ grammar.parameters_after allowed kind }
{
    match (allowed, kind) {
        (AllowedParameters::All, ParameterKind::Plain) => Some(AllowedParameters::All),
        (AllowedParameters::All, ParameterKind::Default) => Some(AllowedParameters::AfterDefault),
        (AllowedParameters::All, ParameterKind::BareStar) => Some(AllowedParameters::AfterBareStar),
        (AllowedParameters::All, ParameterKind::Star) => Some(AllowedParameters::AfterStar),
        (AllowedParameters::All, ParameterKind::StarStar) => Some(AllowedParameters::AfterStarStar),
        (AllowedParameters::AfterDefault, ParameterKind::Default) => Some(
            AllowedParameters::AfterDefault,
        ),
        (AllowedParameters::AfterDefault, ParameterKind::BareStar) => Some(
            AllowedParameters::AfterBareStar,
        ),
        (AllowedParameters::AfterDefault, ParameterKind::Star) => Some(
            AllowedParameters::AfterStar,
        ),
        (AllowedParameters::AfterDefault, ParameterKind::StarStar) => Some(
            AllowedParameters::AfterStarStar,
        ),
        (AllowedParameters::AfterBareStar, ParameterKind::Plain) => Some(
            AllowedParameters::AfterStar,
        ),
        (AllowedParameters::AfterBareStar, ParameterKind::Default) => Some(
            AllowedParameters::AfterStar,
        ),
        (AllowedParameters::AfterStar, ParameterKind::Plain) => Some(AllowedParameters::AfterStar),
        (AllowedParameters::AfterStar, ParameterKind::Default) => Some(
            AllowedParameters::AfterStar,
        ),
        (AllowedParameters::AfterStar, ParameterKind::StarStar) => Some(
            AllowedParameters::AfterStarStar,
        ),
        _ => None,
    }
}

/// Returns which kind of parameter comes next, by its first tokens.
fn parameter_kind(tokens: &Tokens<'_>) -> ParameterKind
    ensures { result ≡ spec.parameter_kind tokens.now }
{
    if tokens.sees(TokenKind::StarStar) {
        ParameterKind::StarStar
    } else if tokens.sees(TokenKind::Star) {
        if tokens.following().sees(TokenKind::Identifier) {
            ParameterKind::Star
        } else {
            ParameterKind::BareStar
        }
    } else if tokens.sees_named() {
        ParameterKind::Default
    } else {
        ParameterKind::Plain
    }
}

/// Reads a parameter of this kind.
fn parameter_by(
    alloc: Global,
    tokens: &mut Tokens<'_>,
    depth: usize,
    kind: ParameterKind,
) -> Result<Parameter, SyntaxErr>
    ensures { Reads (spec.parameter_by depth kind tokens.old) result tokens.new }
{
    match kind {
        ParameterKind::Plain => Ok(Parameter::Plain(tokens.word(alloc)?)),
        ParameterKind::Default => {
            let name = tokens.word(alloc)?;
            tokens.expect(TokenKind::Assign)?;
            let default = phrase(alloc, tokens, depth, Nested::Test)?;
            Ok(Parameter::Default(name, default))
        }
        ParameterKind::BareStar => {
            tokens.advance();
            Ok(Parameter::BareStar)
        }
        ParameterKind::Star => {
            tokens.advance();
            Ok(Parameter::Star(tokens.word(alloc)?))
        }
        ParameterKind::StarStar => {
            tokens.advance();
            Ok(Parameter::StarStar(tokens.word(alloc)?))
        }
    }
}

/// Parameter = identifier | identifier '=' Test | '*' [identifier] | '**' identifier
///
/// Where it is allowed; what may still come after it is returned too.
#[tactic(auto, unfolding(bq_parse_grammar::specs::ReadingStatements::parameter))]
fn parameter(
    alloc: Global,
    tokens: &mut Tokens<'_>,
    depth: usize,
    allowed: AllowedParameters,
) -> Result<(Parameter, AllowedParameters), SyntaxErr>
    ensures { Reads (spec.parameter depth allowed tokens.old) result tokens.new }
{
    let kind = parameter_kind(tokens);
    let Some(after) = parameters_after(allowed, kind) else {
        return Err(SyntaxErr::Syntax);
    };
    let parameter = parameter_by(alloc, tokens, depth, kind)?;
    Ok((parameter, after))
}

/// Returns the parameters, where they may end.
fn ended(found: Items<Parameter>, allowed: AllowedParameters) -> Result<Items<Parameter>, SyntaxErr>
    ensures { MatchResult result (λ all. (grammar.may_end allowed ≡ true) × (all ≡ found)) (λ why. (grammar.may_end allowed ≡ false) × (why ≡ Syntax)) }
{
    match allowed {
        AllowedParameters::AfterBareStar => Err(SyntaxErr::Syntax),
        _ => Ok(found),
    }
}

/// [ Parameter { ',' Parameter } [','] ] ')'
#[tactic(auto, using(crate::proofs::LoopTurns::turns_more, crate::proofs::LoopTurns::turns_over), unfolding(bq_parse_grammar::specs::ReadingStatements::parameters))]
pub fn parameters(
    alloc: Global,
    tokens: &mut Tokens<'_>,
    depth: usize,
) -> Result<Items<Parameter>, SyntaxErr>
    ensures { Reads (spec.parameters depth tokens.old) result tokens.new }
{
    let mut found = Items::new(alloc);
    let mut allowed = AllowedParameters::All;
    // Each turn takes a token.
    for _turn in 0..tokens.left() {
        if tokens.eat(TokenKind::RightParen) {
            return ended(found, allowed);
        }
        let (parameter, after) = parameter(alloc, tokens, depth, allowed)?;
        found.push(parameter)?;
        allowed = after;
        if !tokens.eat(TokenKind::Comma) {
            let found = closed(tokens, TokenKind::RightParen, found)?;
            return ended(found, allowed);
        }
    }
    Err(SyntaxErr::Syntax)
}
