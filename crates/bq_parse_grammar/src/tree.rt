//! The trees of statements.

use crate::boxed::Boxed;
use crate::items::Items;
use bq_base::Bytes;
use bq_predeclared::Predeclared;

/// Which file the statements stand in.
#[derive(Clone, Copy, Debug, PartialEq, Eq)]
pub enum FileKind {
    Build,
    Bzl,
}

/// What a name refers to: where its value is. The parser writes on which line the name stands, and the resolver what it refers to.
#[derive(Clone, Copy, Debug, PartialEq, Eq)]
pub enum Referent {
    /// Not known yet: a name on this line, from 1.
    Unresolved(u32),
    /// A slot of the frame.
    Local(usize),
    /// A global of the file, by its place among them.
    Global(usize),
    /// What a clause of a load binds, by its place among those of the file.
    Loaded(usize),
    Predeclared(Predeclared),
    /// `native.NAME` or `attr.NAME`: what the namespace holds by that name. Both of its words refer to it.
    Member(Predeclared),
}

/// A word that names something.
#[derive(Drop)]
pub struct Identifier {
    pub name: Bytes,
    pub referent: Referent,
}

impl Identifier {
    ghost use Rattle.std.specs.Prelude.{◌≡◌};
    ghost use Rattle.bq_parse_grammar.specs.Literals.{name_line};

    /// Returns the line of a name that is not resolved, from 1: where a fault of it is. 0 for one that is.
    pub fn line(&self) -> u32
        ensures { result ≡ name_line self.now }
    {
        match self.referent {
            Referent::Unresolved(line) => line,
            _ => 0,
        }
    }
}

/// The slots of a comprehension. The parser writes `Shared`; the resolver writes the right one.
#[derive(Clone, Copy, Debug, PartialEq, Eq)]
pub enum ComprehensionFrame {
    /// They are among those of the function or the comprehension around it.
    Shared,
    /// A comprehension outside functions has so many of its own.
    Own(usize),
}

/// An operator between two operands, in the order of precedence, the tightest first. `and` and `or` stop early.
#[derive(Clone, Copy, Debug, PartialEq, Eq)]
pub enum Operator {
    Multiply,
    FloorDivide,
    Modulo,
    /// `/`, which the language leaves out: no tree that is answered holds it.
    Divide,
    Add,
    Subtract,
    ShiftLeft,
    ShiftRight,
    BitAnd,
    BitXor,
    BitOr,
    And,
    Or,
}

/// An operator before its operand.
#[derive(Clone, Copy, Debug, PartialEq, Eq)]
pub enum UnaryOperator {
    Plus,
    Minus,
    Invert,
    Not,
}

#[derive(Clone, Copy, Debug, PartialEq, Eq)]
pub enum Comparison {
    Equal,
    NotEqual,
    Less,
    Greater,
    LessEqual,
    GreaterEqual,
    In,
    NotIn,
}

/// What is read inside brackets.
#[derive(Clone, Copy, Debug, PartialEq, Eq)]
pub enum Nested {
    /// An expression without a conditional.
    Or,
    Test,
}

/// Chains stand in lists, so that a tree is no deeper than the brackets of its text times the levels of the grammar.
#[cycle(ast)]
#[derive(Drop)]
pub enum Expr {
    /// The use of a name.
    Name(Identifier),
    /// The number that a literal stands for.
    Int(i64),
    /// The bytes that a string literal stands for.
    String(Bytes),
    List(Items<Expr>),
    Tuple(Items<Expr>),
    Dict(Items<Pair>),
    /// `[element for .. in ..]`; the first clause is a `for`.
    ListComprehension(Boxed<Expr>, Boxed<Items<Clause>>, ComprehensionFrame),
    /// `{key: value for .. in ..}`; the first clause is a `for`.
    DictComprehension(Boxed<Pair>, Boxed<Items<Clause>>, ComprehensionFrame),
    /// An operand and what is done to it, from left to right. Nothing is done to an operand in parentheses before a dot: so `(x).f()`
    /// has another tree than `x.f()`, and else there is at least one suffix.
    Primary(Boxed<Expr>, Items<Suffix>),
    /// The operators before an operand, from left to right, at least one: all are `not`, or none is.
    Unary(Items<UnaryOperator>, Boxed<Expr>),
    /// An operand and at least one operation on it, from left to right, all of one precedence.
    Binary(Boxed<Expr>, Items<Operation>),
    Compare(Boxed<Expr>, Comparison, Boxed<Expr>),
    /// The value of the first choice, at least one, whose condition holds; else the last value.
    Conditional(Items<Choice>, Boxed<Expr>),
    /// `lambda`, which the language leaves out: no tree that is answered holds it.
    Lambda,
}

/// A further operand of a chain.
#[cycle(ast)]
#[derive(Drop)]
pub struct Operation {
    pub operator: Operator,
    pub operand: Expr,
}

/// `value if condition else ..`
#[cycle(ast)]
#[derive(Drop)]
pub struct Choice {
    pub value: Expr,
    pub condition: Expr,
}

/// `key: value`
#[cycle(ast)]
#[derive(Drop)]
pub struct Pair {
    pub key: Expr,
    pub value: Expr,
}

/// What is done to an operand.
#[cycle(ast)]
#[derive(Drop)]
pub enum Suffix {
    Call(Items<Argument>),
    /// `.name(arguments)`
    Method(Identifier, Items<Argument>),
    /// `.name` without a call, which the language leaves out: no tree that is answered holds it.
    Attribute(Identifier),
    Index(Boxed<Expr>),
    /// `[start:stop:step]`
    Slice(Option<Boxed<Expr>>, Option<Boxed<Expr>>, Option<Boxed<Expr>>),
}

/// An argument of a call.
#[cycle(ast)]
#[derive(Drop)]
pub enum Argument {
    Positional(Expr),
    /// `name = value`
    Named(Bytes, Expr),
    /// `*value`
    Star(Expr),
    /// `**value`
    StarStar(Expr),
}

/// A clause of a comprehension.
#[cycle(ast)]
#[derive(Drop)]
pub enum Clause {
    /// `for variables in iterable`
    For(TargetExpr, Expr),
    /// `if condition`
    If(Expr),
}

/// What is assigned to.
#[cycle(ast)]
#[derive(Drop)]
pub enum TargetExpr {
    Name(Identifier),
    /// `operand[index]`; never the variable of a `for`.
    Index(Boxed<Expr>, Boxed<Expr>),
    Tuple(Items<TargetExpr>),
    List(Items<TargetExpr>),
}

/// A top-level statement.
#[derive(Drop)]
pub struct TopLevel {
    /// The line of its first token, from 1. It is the line that a fault of its evaluation names.
    pub line: u32,
    pub statement: Stmt,
}

#[cycle(block)]
#[derive(Drop)]
pub enum Stmt {
    /// The small statements of one logical line.
    Simple(Items<SmallStmt>),
    /// The branches of `if` and of each `elif`, and the block of `else`, empty where there is none.
    If(Items<Branch>, Items<Stmt>),
    For(TargetExpr, Expr, Items<Stmt>),
    Def(Identifier, Items<Parameter>, Items<Stmt>),
}

/// `if condition:`, or `elif`, and its block.
#[cycle(block)]
#[derive(Drop)]
pub struct Branch {
    pub condition: Expr,
    pub block: Items<Stmt>,
}

#[derive(Drop)]
pub enum Parameter {
    Plain(Identifier),
    /// `name = value`
    Default(Identifier, Expr),
    /// `*`, after which only named arguments come.
    BareStar,
    /// `*name`
    Star(Identifier),
    /// `**name`
    StarStar(Identifier),
}

/// A statement that has no block.
#[derive(Drop)]
pub struct SmallStmt {
    /// The line of its first token, from 1.
    pub line: u32,
    pub kind: SmallKind,
}

#[derive(Drop)]
pub enum SmallKind {
    /// An expression, as a call that is made for what it declares.
    Expr(Expr),
    Assign(Boxed<TargetExpr>, Expr),
    /// `target += value` and the like; the target is a name or an index.
    Augment(Boxed<TargetExpr>, Operator, Expr),
    Return(Option<Expr>),
    Break,
    Continue,
    Pass,
    Load(Load),
}

/// `load("label", "symbol", local = "symbol")`
#[derive(Drop)]
pub struct Load {
    pub label: Bytes,
    pub clauses: Items<LoadClause>,
}

/// A name that a load binds, and the symbol of the other file that it stands for.
#[derive(Drop)]
pub struct LoadClause {
    pub local: Identifier,
    pub symbol: Bytes,
}
