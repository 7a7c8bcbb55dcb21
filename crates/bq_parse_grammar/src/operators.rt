//! The operators between operands, and those of augmented assignments.

ghost use Rattle.std.specs.Prelude.{◌≡◌};
ghost use Rattle.bq_parse_grammar.specs.Operators as spec;

use crate::tree::Operator;
use bq_source::TokenKind;

/// Returns the operator of an augmented assignment.
pub fn augmented(kind: TokenKind) -> Option<Operator>
    ensures { result ≡ spec.augmented kind }
{
    match kind {
        TokenKind::PlusAssign => Some(Operator::Add),
        TokenKind::MinusAssign => Some(Operator::Subtract),
        TokenKind::StarAssign => Some(Operator::Multiply),
        TokenKind::SlashAssign => Some(Operator::Divide),
        TokenKind::SlashSlashAssign => Some(Operator::FloorDivide),
        TokenKind::PercentAssign => Some(Operator::Modulo),
        TokenKind::AmpersandAssign => Some(Operator::BitAnd),
        TokenKind::PipeAssign => Some(Operator::BitOr),
        TokenKind::CaretAssign => Some(Operator::BitXor),
        TokenKind::LessLessAssign => Some(Operator::ShiftLeft),
        TokenKind::GreaterGreaterAssign => Some(Operator::ShiftRight),
        _ => None,
    }
}

/// Returns the operator between operands that a token of this kind is, and its level: 1 binds tightest.
pub fn binary_operator(kind: TokenKind) -> Option<(usize, Operator)>
    ensures { result ≡ spec.binary_operator kind }
{
    match kind {
        TokenKind::Star => Some((1, Operator::Multiply)),
        TokenKind::SlashSlash => Some((1, Operator::FloorDivide)),
        TokenKind::Percent => Some((1, Operator::Modulo)),
        TokenKind::Slash => Some((1, Operator::Divide)),
        TokenKind::Plus => Some((2, Operator::Add)),
        TokenKind::Minus => Some((2, Operator::Subtract)),
        TokenKind::LessLess => Some((3, Operator::ShiftLeft)),
        TokenKind::GreaterGreater => Some((3, Operator::ShiftRight)),
        TokenKind::Ampersand => Some((4, Operator::BitAnd)),
        TokenKind::Caret => Some((5, Operator::BitXor)),
        TokenKind::Pipe => Some((6, Operator::BitOr)),
        TokenKind::And => Some((9, Operator::And)),
        TokenKind::Or => Some((10, Operator::Or)),
        _ => None,
    }
}
