//! What a name stands for, among the blocks around it and in its file.

ghost use Rattle.std.specs.Prelude.{◌≡◌, ◌+◌, ◌<◌, ◌^◌, ◌∷◌, length, IfOk};
ghost use Rattle.bq_resolve_scope.specs.Names.{place_among};
ghost use Rattle.bq_resolve_scope.specs.Scope.{use_of};
ghost use Rattle.bq_resolve_scope.specs.Files.{file_names};
ghost use Rattle.bq_resolve_scope.specs.Universe.{member_named};

use crate::binding::{global_names, loaded_names};
use crate::names::Names;
use crate::universe::{Namespace, Universe};
use bq_base::Bytes;
use bq_parse_grammar::{FileKind, Referent, TopLevel};
use bq_predeclared::Predeclared;
use sqlite_items::Items;
use std::alloc::{AllocError, Global};
use std::marker::Model;
use std::sync::Arc;

/// A block that is open. Contracts see its first slot and its names.
#[derive(Drop)]
pub struct Block {
    base: usize,
    names: Arc<Names>,
}

impl Model for Block {
    ghost use Rattle.std.specs.Prelude.{◌+◌, ◌<◌, ◌^◌, length};
    ghost use Rattle.bq_resolve_scope.specs.Scope.{BlockParts};

    ghost Value = { BlockParts };

    ghost view = { λ b. record { base = b.base; names = b.names.value } };

    ghost invariant = { λ b. b.base + length b.names.value < 2 ^ 64 };
}

impl Block {
    /// Returns a block whose names have the slots from `base` on.
    pub fn new(alloc: Global, base: usize, names: Names) -> Result<Block, AllocError>
        requires { base + length names < 2 ^ 64 }
        ensures base { IfOk result (λ b. b.base ≡ base) }
        ensures names { IfOk result (λ b. b.names ≡ names) }
    {
        Ok(Block {
            base,
            names: Arc::new(alloc, names)?,
        })
    }

    /// Returns a copy of the block.
    fn share(&self) -> Result<Block, AllocError>
        ensures { IfOk result (λ b. b ≡ self.now) }
    {
        Ok(Block {
            base: self.base,
            names: self.names.clone()?,
        })
    }
}

/// Returns these blocks, with one inside them.
pub fn inside(alloc: Global, block: Block, blocks: &[Block]) -> Result<Vec<Block>, AllocError>
    ensures { IfOk result (λ all. all.items ≡ block ∷ blocks.now) }
{
    let mut all = Vec::new(alloc);
    all.push(block)?;
    for outer in blocks {
        all.push(outer.share()?)?;
    }
    Ok(all)
}

/// The names of a file. Contracts see what every file of its kind has, what it binds, and what its loads bind.
pub struct FileNames {
    universe: Universe,
    globals: Names,
    loaded: Names,
}

impl Drop for FileNames {
    // PROOF: a drop that is written out is proved here alone, and a derived one in each crate that drops the names of a file
    fn drop(self) {
        let FileNames {
            universe: _,
            globals: _,
            loaded: _,
        } = self;
    }
}

impl Model for FileNames {
    ghost use Rattle.bq_resolve_scope.specs.Scope.{FileParts};

    ghost Value = { FileParts };

    ghost view = { λ f. record { universe = f.universe; globals = f.globals; loaded = f.loaded } };
}

impl FileNames {
    /// Returns the names of the file with these top-level statements.
    #[tactic(auto, unfolding(crate::specs::Files::file_names))]
    pub fn new(
        alloc: Global,
        universe: &Universe,
        statements: &[TopLevel],
    ) -> Result<FileNames, AllocError>
        ensures { IfOk result (λ f. f ≡ file_names universe.now statements.now) }
    {
        Ok(FileNames {
            universe: universe.share()?,
            globals: global_names(alloc, statements)?,
            loaded: loaded_names(alloc, statements)?,
        })
    }

    pub fn kind(&self) -> FileKind
        ensures { result ≡ self.now.universe.kind }
    {
        self.universe.kind()
    }

    /// Returns what a namespace holds by this name.
    pub fn member(&self, space: Namespace, name: &Bytes) -> Option<Predeclared>
        ensures { result ≡ member_named space self.now.universe.rules name.now }
    {
        self.universe.member(space, name)
    }

    /// Returns the names that the file binds, but for its loads, in order of first binding.
    pub fn globals(&self, alloc: Global) -> Result<Items<Bytes>, AllocError>
        ensures { IfOk result (λ names. names ≡ self.now.globals) }
    {
        self.globals.list(alloc)
    }

    /// Returns the place of a name among these.
    pub fn global(&self, name: &Bytes) -> Option<usize>
        ensures { result ≡ place_among name.now self.now.globals }
    {
        self.globals.place(name)
    }

    /// Returns what a use of the name among these blocks stands for. The blocks stand innermost first.
    #[tactic(auto, unfolding(crate::specs::Scope::use_of, crate::specs::Scope::slot_of, crate::specs::Scope::slot_in, crate::specs::Scope::file_has))]
    pub fn use_of(&self, blocks: &[Block], name: &Bytes) -> Option<Referent>
        ensures { result ≡ use_of self.now blocks.now name.now }
    {
        for block in blocks {
            if let Some(place) = block.names.place(name) {
                return Some(Referent::Local(block.base + place));
            }
        }
        if let Some(place) = self.globals.place(name) {
            return Some(Referent::Global(place));
        }
        if let Some(place) = self.loaded.place(name) {
            return Some(Referent::Loaded(place));
        }
        match self.universe.has(name) {
            None => None,
            Some(predeclared) => Some(Referent::Predeclared(predeclared)),
        }
    }
}
