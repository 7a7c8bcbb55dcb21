//! Frozen modules by their numbers, in a tree whose parts are shared: adding a module, or joining two trees, makes anew
//! only the nodes on the way.
//!
//! A tree is for a range of 2^height numbers that begins with `base`: a leaf has the only module of one number, and a
//! fork has the modules of the lower half and those of the upper half (a binary trie; Okasaki and Gill, "Fast Mergeable
//! Integer Maps"). So of modules that load one another in a chain each makes `height` nodes, and shares the others.
//! Where two modules reach nearly the same ones, their trees are joined block by block: the keys of 64 numbers are one
//! word of 64 bits. Where a range of 4,096 numbers has modules in much of it, it has the words of its blocks in a row too, so
//! that one look at these tells that a join adds none of it.

ghost use Rattle.std.specs.Prelude.{◌≡◌, ℕ, ◌+◌, ◌-◌, ◌*◌, ◌^◌, ◌<◌, ◌≤◌, ◌∷◌, [], None, IfOk, IsTrue, MatchOption, OnOk, length, ◌++◌};
ghost use Rattle.std.specs.Option.{option_copied, unwrap_or};
ghost use Rattle.bq_value.specs.Cells.{module_at};
ghost use Rattle.bq_value.specs.Tries.{bare, AreWithin, AreWordsOf, IsShaped, IsFork, Joins, blocks, entries, keys};

use crate::shared::Shared;
use std::alloc::{AllocError, Global};
use std::marker::Model;
use std::sync::Arc;

/// The height of a block of 64 numbers.
const BLOCK: u32 = 6;

/// The height of a range whose words are kept in a row.
const WIDE: u32 = 12;

/// A range has modules in much of it if so many of its sixteenths have some.
const MUCH: u32 = 4;

/// A tree of modules. Contracts see its `Trie`.
#[cycle(tree)]
#[derive(Drop)]
pub(crate) struct Tree {
    node: TreeNode,
}

#[cycle(tree)]
#[derive(Drop)]
enum TreeNode {
    Bare,
    Leaf(Shared),
    /// In a block, a bit for each number that has a module; and the halves.
    Fork(u64, Arc<Halves>),
}

#[cycle(tree)]
#[derive(Drop)]
struct Halves {
    left: Tree,
    right: Tree,
    /// Of a range of 64 blocks the words of these, or none.
    words: Vec<u64>,
}

impl Model for Tree {
    ghost use Rattle.bq_value.specs.Tries.{Trie, coded_trie, nodes};

    ghost Value = { Trie };

    ghost coded = { coded_trie };

    ghost use Rattle.bq_value.specs.TrieOf.{trie_of};

    ghost view = { λ t. trie_of t.node };

    ghost size = { nodes };

    ghost use Rattle.std.proofs.Common.{arith};
    ghost use Rattle.bq_value.specs.Smaller.{deep_le-nodes};

    ghost size_decreases = { λ t h. Prim.omega (arith, deep_le-nodes t.node) };
}

impl Tree {
    pub(crate) fn bare() -> Tree
        ensures { result ≡ bare }
    {
        Tree {
            node: TreeNode::Bare,
        }
    }

    /// Returns whether it is known that the tree has no module.
    pub(crate) fn is_bare(&self) -> bool
        ensures { IsTrue result → self.now ≡ bare }
    {
        matches!(&self.node, TreeNode::Bare)
    }

    /// Makes a tree of this height of two halves.
    pub(crate) fn fork(
        alloc: Global,
        height: u32,
        left: Tree,
        right: Tree,
    ) -> Result<Tree, AllocError>
        requires above { 0 < height }
        requires left { IsShaped left (height - 1) }
        requires right { IsShaped right (height - 1) }
        ensures { IfOk result (λ t. IsFork t height left right) }
    {
        let keys = keys_of(height, &left, &right);
        let words = words_of(alloc, height, &left, &right)?;
        let halves = Arc::new(alloc, Halves { left, right, words })?;
        Ok(Tree {
            node: TreeNode::Fork(keys, halves),
        })
    }

    fn keys(&self) -> u64
        ensures { result ≡ keys self.now }
    {
        match &self.node {
            TreeNode::Bare => 0,
            TreeNode::Leaf(_) => 1,
            TreeNode::Fork(keys, _) => *keys,
        }
    }

    /// Returns how many of the parts at this many levels below have a module.
    fn spread(&self, levels: u32) -> u32 {
        match &self.node {
            TreeNode::Bare => 0,
            TreeNode::Leaf(_) => 1,
            TreeNode::Fork(_, halves) => {
                if levels == 0 {
                    return 1;
                }
                let left = halves.left.spread(levels - 1);
                left.saturating_add(halves.right.spread(levels - 1))
            }
        }
    }

    /// Appends the words of the blocks.
    #[tactic(auto, using(crate::proofs::Tries::words_pushed, crate::proofs::Tries::blocks_at))]
    fn push_words(&self, height: u32, words: &mut Vec<u64>) -> Result<(), AllocError>
        requires high { 6 ≤ height }
        ensures { OnOk result (words.new.items ≡ words.old.items ++ blocks (height - 6) self.now) }
    {
        if height == BLOCK {
            words.push(self.keys())?;
            return Ok(());
        }
        match &self.node {
            TreeNode::Fork(_, halves) => {
                halves.left.push_words(height - 1, words)?;
                halves.right.push_words(height - 1, words)
            }
            _ => {
                let none = Tree::bare();
                none.push_words(height - 1, words)?;
                none.push_words(height - 1, words)
            }
        }
    }

    /// Returns another owner of the tree; no node is copied.
    pub(crate) fn share(&self) -> Result<Tree, AllocError>
        ensures { IfOk result (λ t. t ≡ self.now) }
    {
        let node = match &self.node {
            TreeNode::Bare => TreeNode::Bare,
            TreeNode::Leaf(shared) => TreeNode::Leaf(shared.share()?),
            TreeNode::Fork(keys, halves) => TreeNode::Fork(*keys, halves.clone()?),
        };
        Ok(Tree { node })
    }

    /// Returns the module of number `home`.
    pub(crate) fn get(&self, height: u32, base: u32, home: u32) -> Option<&Shared>
        requires shaped { IsShaped self.now height }
        requires fits { base + 2 ^ height ≤ 2 ^ 32 }
        ensures { option_copied result ≡ module_at home (entries self.now height base) }
    {
        match &self.node {
            TreeNode::Bare => None,
            TreeNode::Leaf(shared) => {
                if home == base {
                    return Some(shared);
                }
                None
            }
            TreeNode::Fork(_, halves) => {
                let middle = middle(height, base);
                if home < middle {
                    return halves.left.get(height - 1, base, home);
                }
                halves.right.get(height - 1, middle, home)
            }
        }
    }

    /// Makes a tree of one module.
    pub(crate) fn lone(
        alloc: Global,
        height: u32,
        base: u32,
        home: u32,
        shared: &Shared,
    ) -> Result<Tree, AllocError>
        requires fits { base + 2 ^ height ≤ 2 ^ 32 }
        requires from { base ≤ home }
        requires to { home < base + 2 ^ height }
        ensures shaped { IfOk result (λ t. IsShaped t height) }
        ensures module { IfOk result (λ t. entries t height base ≡ (home, shared.now) ∷ []) }
    {
        if height == 0 {
            return Ok(Tree {
                node: TreeNode::Leaf(shared.share()?),
            });
        }
        let middle = middle(height, base);
        if home < middle {
            let left = Tree::lone(alloc, height - 1, base, home, shared)?;
            return Tree::fork(alloc, height, left, Tree::bare());
        }
        let right = Tree::lone(alloc, height - 1, middle, home, shared)?;
        Tree::fork(alloc, height, Tree::bare(), right)
    }

    /// Returns whether the words of the blocks tell that a join adds nothing of `other`.
    #[tactic(auto, using(crate::proofs::Tries::joins_words))]
    fn covers(&self, other: &Tree) -> bool
        ensures { IsTrue result → (height : ℕ) → IsShaped self.now height → IsShaped other.now height → Joins self.now other.now height self.now }
    {
        match &self.node {
            TreeNode::Fork(_, halves) => match &other.node {
                TreeNode::Fork(_, others) => has_words(&halves.words, &others.words),
                _ => false,
            },
            _ => false,
        }
    }

    /// Returns the tree with those modules of `other` too whose numbers aren't here, or `None` if there are none.
    pub(crate) fn joined(
        &self,
        alloc: Global,
        height: u32,
        other: &Tree,
    ) -> Result<Option<Tree>, AllocError>
        requires shaped { IsShaped self.now height }
        requires other { IsShaped other.now height }
        ensures { IfOk result (λ t. Joins self.now other.now height (unwrap_or t self.now)) }
    {
        if height == WIDE && self.covers(other) {
            return Ok(None);
        }
        match &self.node {
            TreeNode::Bare => match &other.node {
                TreeNode::Bare => Ok(None),
                _ => Ok(Some(other.share()?)),
            },
            TreeNode::Leaf(_) => Ok(None),
            TreeNode::Fork(keys, halves) => match &other.node {
                TreeNode::Bare => Ok(None),
                TreeNode::Leaf(_) => Ok(None),
                TreeNode::Fork(more, others) => {
                    if height <= BLOCK && *more & *keys == *more {
                        return Ok(None);
                    }
                    let left = halves.left.joined(alloc, height - 1, &others.left)?;
                    let right = halves.right.joined(alloc, height - 1, &others.right)?;
                    halves.changed(alloc, height, left, right)
                }
            },
        }
    }
}

impl Halves {
    /// Returns a tree of this height in which the halves that are given replace these, or `None` if neither is given.
    fn changed(
        &self,
        alloc: Global,
        height: u32,
        left: Option<Tree>,
        right: Option<Tree>,
    ) -> Result<Option<Tree>, AllocError>
        requires above { 0 < height }
        requires left { IsShaped (unwrap_or left self.now.left) (height - 1) }
        requires right { IsShaped (unwrap_or right self.now.right) (height - 1) }
        ensures { IfOk result (λ t. MatchOption t ((left ≡ None) × (right ≡ None)) (λ f. IsFork f height (unwrap_or left self.now.left) (unwrap_or right self.now.right))) }
    {
        if left.is_none() && right.is_none() {
            return Ok(None);
        }
        let left = match left {
            None => self.left.share()?,
            Some(left) => left,
        };
        let right = match right {
            None => self.right.share()?,
            Some(right) => right,
        };
        Ok(Some(Tree::fork(alloc, height, left, right)?))
    }
}

/// Returns the first number of the upper half.
fn middle(height: u32, base: u32) -> u32
    requires above { 0 < height }
    requires fits { base + 2 ^ height ≤ 2 ^ 32 }
    ensures { result ≡ base + 2 ^ (height - 1) }
{
    base + (1 << (height - 1))
}

/// Returns the keys of a tree of this height with these halves, if it is within a block.
fn keys_of(height: u32, left: &Tree, right: &Tree) -> u64
    requires above { 0 < height }
    requires left { IsShaped left.now (height - 1) }
    requires right { IsShaped right.now (height - 1) }
    ensures { height ≤ 6 → result ≡ keys right.now * 2 ^ (2 ^ (height - 1)) + keys left.now }
{
    if height > BLOCK {
        return 0;
    }
    let width: u32 = 1 << (height - 1);
    (right.keys() << width) | left.keys()
}

/// Returns the words of a tree of this height with these halves, if it has modules in much of it, and else none.
#[tactic(auto, using(crate::proofs::Tries::words_are))]
fn words_of(alloc: Global, height: u32, left: &Tree, right: &Tree) -> Result<Vec<u64>, AllocError>
    ensures { IfOk result (λ words. AreWordsOf words.items left.now right.now height) }
{
    if height != WIDE || left.spread(3).saturating_add(right.spread(3)) < MUCH {
        return Ok(Vec::new(alloc));
    }
    let mut words = Vec::with_capacity(alloc, 64)?;
    left.push_words(height - 1, &mut words)?;
    right.push_words(height - 1, &mut words)?;
    Ok(words)
}

/// Returns whether the words are known, and each has all bits of that of `more` at its place.
fn has_words(words: &[u64], more: &[u64]) -> bool
    ensures { IsTrue result → (0 < length more.now) × AreWithin more.now words.now }
{
    if more.is_empty() {
        return false;
    }
    are_within(more, words)
}

/// Returns whether each of the words has no bit that the one at its place among `all` hasn't.
fn are_within(some: &[u64], all: &[u64]) -> bool
    ensures { IsTrue result → AreWithin some.now all.now }
{
    match (some, all) {
        ([], []) => true,
        ([word, words @ ..], [bits, more @ ..]) => {
            *word & *bits == *word && are_within(words, more)
        }
        _ => false,
    }
}
