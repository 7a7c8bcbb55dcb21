//! Frozen modules by their numbers, each shared.

ghost use Rattle.std.specs.Prelude.{◌≡◌, ◌≤◌, [], MatchOption, IfOk, OnOk, OnErr, fold};
ghost use Rattle.std.specs.Option.{option_copied};
ghost use Rattle.bq_value.specs.Cells.{module_at, added};
ghost use Rattle.bq_value.specs.Tries.{IsShaped, entries, all_entries};

use crate::shared::Shared;
use crate::tree::Tree;
use std::alloc::{AllocError, Global};
use std::marker::Model;

/// Frozen modules. Contracts see the list of them with their numbers, in the order of the numbers.
///
/// All numbers are below 2^height.
#[derive(Drop)]
pub(crate) struct Modules {
    alloc: Global,
    height: u32,
    tree: Tree,
}

impl Model for Modules {
    ghost use Rattle.std.specs.Prelude.{◌≤◌};
    ghost use Rattle.bq_value.specs.Cells.{Modules as ModulesView, coded_modules};
    ghost use Rattle.bq_value.specs.Tries.{IsShaped, entries};

    ghost Value = { ModulesView };

    ghost coded = { coded_modules };

    ghost view = { λ m. entries m.tree m.height 0 };

    ghost invariant = { λ m. (m.height ≤ 32) × IsShaped m.tree m.height };
}

impl Modules {
    pub(crate) fn new(alloc: Global) -> Modules
        ensures { result ≡ [] }
    {
        Modules {
            alloc,
            height: 0,
            tree: Tree::bare(),
        }
    }

    /// Returns the module of number `home`, if it is here.
    pub(crate) fn get(&self, home: u32) -> Option<&Shared>
        ensures { option_copied result ≡ module_at home self.now }
    {
        self.tree.get(self.height, 0, home)
    }

    /// Adds a module, if none of its number is here. The tree gets the least height that has room for the number.
    pub(crate) fn add(&mut self, home: u32, shared: &Shared) -> Result<(), AllocError>
        ensures ok { OnOk result (self.new ≡ added self.old (home, shared.now)) }
        ensures err { OnErr result (self.new ≡ self.old) }
    {
        let height = self.height.max(32 - home.leading_zeros());
        let one = Tree::lone(self.alloc, height, 0, home, shared)?;
        match joined(self.alloc, &self.tree, self.height, &one, height)? {
            None => Ok(()),
            Some(tree) => {
                self.tree = tree;
                self.height = height;
                Ok(())
            }
        }
    }

    /// Adds each of the other modules whose number isn't here.
    pub(crate) fn add_all(&mut self, others: &Modules) -> Result<(), AllocError>
        ensures { OnOk result (self.new ≡ fold added self.old others.now) }
    {
        let height = self.height.max(others.height);
        let other = raised(self.alloc, &others.tree, others.height, height)?;
        match joined(self.alloc, &self.tree, self.height, &other, height)? {
            None => Ok(()),
            Some(tree) => {
                self.tree = tree;
                self.height = height;
                Ok(())
            }
        }
    }
}

/// Returns a tree of all modules of the first, which has the height `from`, and of those of the other, which has the
/// height `to`, whose numbers the first doesn't have; `None` if it has all of them.
fn joined(
    alloc: Global,
    tree: &Tree,
    from: u32,
    other: &Tree,
    to: u32,
) -> Result<Option<Tree>, AllocError>
    requires longer { from ≤ to }
    requires shaped { IsShaped tree.now from }
    requires other { IsShaped other.now to }
    ensures { IfOk result (λ t. MatchOption t (all_entries tree.now from other.now to ≡ entries tree.now from 0) (λ j. IsShaped j to × (entries j to 0 ≡ all_entries tree.now from other.now to))) }
{
    let tree = raised(alloc, tree, from, to)?;
    tree.joined(alloc, to, other)
}

/// Returns a tree of the same modules for a longer range of numbers.
fn raised(alloc: Global, tree: &Tree, from: u32, to: u32) -> Result<Tree, AllocError>
    requires longer { from ≤ to }
    requires shaped { IsShaped tree.now from }
    ensures shaped { IfOk result (λ t. IsShaped t to) }
    ensures modules { IfOk result (λ t. entries t to 0 ≡ entries tree.now from 0) }
{
    if tree.is_bare() {
        return Ok(Tree::bare());
    }
    let mut longer = tree.share()?;
    for level in from..to {
        longer = Tree::fork(alloc, level + 1, longer, Tree::bare())?;
    }
    Ok(longer)
}
