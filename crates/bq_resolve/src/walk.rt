//! What is carried along a file.

ghost use Rattle.std.specs.Prelude.{◌≡◌, ◌+◌, ◌++◌, [], ◌∷◌, ◌&&◌, length, IfOk, OnOk};
ghost use Rattle.bq_resolve_scope.specs.Names.{has, with_name};
ghost use Rattle.bq_resolve_scope.specs.Visit.{nothing_passed};
ghost use Rattle.bq_resolve_scope.specs.Expressions.{is_bzl};

use bq_base::Bytes;
use bq_parse_grammar::FileKind;
use bq_resolve_scope::{Block, Function, LoadStmt, Names, inside};
use sqlite_items::Items;
use std::alloc::{AllocError, Global};
use std::marker::Model;

/// What was passed so far.
#[derive(Drop)]
pub struct Walk {
    /// How many slots the frame has.
    slots: usize,
    pub(crate) bound: Names,
    pub(crate) loaded: Names,
    functions: Items<Function>,
    loads: Items<LoadStmt>,
}

impl Model for Walk {
    ghost use Rattle.bq_resolve_scope.specs.Visit.{Passed};
    ghost use Rattle.bq_parse_grammar.specs.contracts.tree.Stmt as stmt;
    ghost use Rattle.std.specs.Coded.{codes};

    ghost Value = { Passed };

    ghost coded = { Prim.hlevel (codes, stmt.the_row.coded) };

    ghost view = { λ w. record { slots = w.slots; bound = w.bound; loaded = w.loaded; functions = w.functions; loads = w.loads } };
}

impl Walk {
    /// Returns what is carried along before the first statement.
    pub fn new(alloc: Global) -> Walk
        ensures { result ≡ nothing_passed }
    {
        Walk {
            slots: 0,
            bound: Names::new(alloc),
            loaded: Names::new(alloc),
            functions: Items::new(alloc),
            loads: Items::new(alloc),
        }
    }

    /// Returns the functions and the loads.
    pub fn into_parts(self) -> (Items<Function>, Items<LoadStmt>)
        ensures functions { result.0 ≡ self.functions }
        ensures loads { result.1 ≡ self.loads }
    {
        let Walk {
            slots: _,
            bound: _,
            loaded: _,
            functions,
            loads,
        } = self;
        (functions, loads)
    }

    /// Sets the number of slots of the frame, and returns how many it had.
    pub fn frame(&mut self, slots: usize) -> usize
        ensures had { result ≡ self.old.slots }
        ensures has { self.new ≡ record self.old { slots = slots } }
    {
        let had = self.slots;
        self.slots = slots;
        had
    }

    /// Returns whether an earlier load clause has the name.
    pub fn is_loaded(&self, name: &Bytes) -> bool
        ensures { result ≡ has self.now.loaded name.now }
    {
        self.loaded.has(name)
    }

    /// Returns whether a statement of a .bzl file bound the name.
    pub fn is_bound(&self, kind: FileKind, name: &Bytes) -> bool
        ensures { result ≡ (is_bzl kind && has self.now.bound name.now) }
    {
        match kind {
            FileKind::Build => false,
            FileKind::Bzl => self.bound.has(name),
        }
    }

    /// Adds a name of a load clause.
    pub fn load(&mut self, name: &Bytes) -> Result<(), AllocError>
        ensures { OnOk result (self.new ≡ record self.old { loaded = with_name self.old.loaded name.now }) }
    {
        self.loaded.add(name)
    }

    /// Adds a load.
    pub fn add_load(&mut self, load: LoadStmt) -> Result<(), AllocError>
        ensures { OnOk result (self.new ≡ record self.old { loads = self.old.loads ++ load ∷ [] }) }
    {
        self.loads.push(load)
    }

    /// Adds a function: its number.
    pub fn add_function(&mut self, function: Function) -> Result<usize, AllocError>
        ensures number { IfOk result (λ k. k ≡ length self.old.functions) }
        ensures added { OnOk result (self.new ≡ record self.old { functions = self.old.functions ++ function ∷ [] }) }
    {
        let number = self.functions.len();
        self.functions.push(function)?;
        Ok(number)
    }

    /// Opens a block, whose names get the next slots: these blocks, and it inside them.
    pub fn open(
        &mut self,
        alloc: Global,
        names: Names,
        blocks: &[Block],
    ) -> Result<Vec<Block>, AllocError>
        ensures blocks { IfOk result (λ all. all.items ≡ record { base = self.old.slots; names = names } ∷ blocks.now) }
        ensures slots { OnOk result (self.new ≡ record self.old { slots = self.old.slots + length names }) }
    {
        let base = self.slots;
        // No frame has that many slots: their names would not fit into memory.
        let Some(slots) = base.checked_add(names.len()) else {
            return Err(AllocError);
        };
        self.slots = slots;
        let block = Block::new(alloc, base, names)?;
        inside(alloc, block, blocks)
    }
}
