//! Resolved files: the statements that were parsed, with what their names refer to written into them.

use crate::loads::LoadStmt;
use bq_base::Bytes;
use bq_base_takeable::Takeable;
use bq_parse_grammar::{Boxed, Expr, Identifier, Items as Trees, SmallStmt, Stmt};
use sqlite_items::Items;

/// A parameter of a function. Its name refers to its slot.
#[derive(Drop)]
pub enum Formal {
    Plain(Identifier),
    /// The value where no argument gives one is that of the `def`'s next default.
    Default(Identifier),
    /// `*`, after which only named arguments come.
    BareStar,
    /// `*name`
    Star(Identifier),
    /// `**name`
    StarStar(Identifier),
}

/// A function of a file.
pub struct Function {
    pub name: Bytes,
    pub parameters: Items<Formal>,
    /// How many slots its frame has.
    pub slots: usize,
    pub body: Trees<Stmt>,
}

impl Drop for Function {
    // PROOF: a drop that is written out is proved here alone, and a derived one in each crate that drops a function
    fn drop(self) {
        let Function {
            name: _,
            parameters: _,
            slots: _,
            body: _,
        } = self;
    }
}

/// A `def`.
pub struct Def {
    /// It refers to where the function goes.
    pub name: Identifier,
    /// The function, by its place among those of the file.
    pub function: usize,
    /// The defaults of its parameters, which are evaluated outside it.
    pub defaults: Items<Expr>,
}

impl Drop for Def {
    // PROOF: a drop that is written out is proved here alone, and a derived one in each crate that drops a `def`
    fn drop(self) {
        let Def {
            name: _,
            function: _,
            defaults: _,
        } = self;
    }
}

/// What stands on a line outside functions.
#[derive(Drop)]
pub enum Outside {
    Simple(Trees<SmallStmt>),
    Def(Boxed<Def>),
}

/// A statement outside functions.
pub struct FileLine {
    /// The line of its first token, from 1. It is the line that a fault of its evaluation names.
    pub line: u32,
    pub statement: Outside,
}

impl Drop for FileLine {
    // PROOF: a drop that is written out is proved here alone, and a derived one in each crate that drops a line of a file
    fn drop(self) {
        let FileLine {
            line: _,
            statement: _,
        } = self;
    }
}

/// A resolved file.
pub struct ResolvedFile {
    /// They run once, and whoever runs them takes them out, so that their memory is free while other files are evaluated. Functions stay.
    pub statements: Takeable<Items<FileLine>>,
    /// In the order of their `def`s.
    pub functions: Items<Function>,
    /// The names that the file itself binds, in order of first binding.
    pub globals: Items<Bytes>,
    /// In the order in which they are written.
    pub loads: Items<LoadStmt>,
}

impl Drop for ResolvedFile {
    // PROOF: a drop that is written out is proved here alone, and a derived one in each crate that drops a resolved file
    fn drop(self) {
        let ResolvedFile {
            statements: _,
            functions: _,
            globals: _,
            loads: _,
        } = self;
    }
}
