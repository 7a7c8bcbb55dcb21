//! Scopes: where names are looked up.

ghost use Rattle.std.specs.Prelude.{◌≡◌, []};

use bq_resolve_scope::{Block, FileNames};
use std::alloc::Global;

/// The names of the file, and the blocks around a part of it, of which the innermost is the first.
#[derive(Clone, Copy)]
pub struct Scope<'a> {
    pub alloc: Global,
    pub file: &'a FileNames,
    pub blocks: &'a [Block],
}

impl<'a> Scope<'a> {
    /// Returns the scope outside functions and comprehensions.
    pub fn outside(alloc: Global, file: &'a FileNames) -> Scope<'a>
        ensures file { result.file.now ≡ file.now }
        ensures blocks { result.blocks.now ≡ [] }
    {
        Scope {
            alloc,
            file,
            blocks: &[],
        }
    }

    /// Returns the scope of these blocks in the same file.
    pub fn among<'b>(&'b self, blocks: &'b [Block]) -> Scope<'b>
        ensures file { result.file.now ≡ self.now.file.now }
        ensures blocks { result.blocks.now ≡ blocks.now }
    {
        Scope {
            alloc: self.alloc,
            file: self.file,
            blocks,
        }
    }
}
