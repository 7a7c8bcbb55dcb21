//! Patterns that names are matched against together.

ghost use Rattle.std.specs.Prelude.{◌≡◌, ◌||◌, List, ℕ, false, IfOk, OnOk};
ghost use Rattle.std.specs.List.{list_any};
ghost use Rattle.bq_label_glob.specs.Matching.{matches};
ghost use Rattle.bq_label_glob.specs.PatternSet.{is_match};

use crate::matching::is_match;
use crate::pattern::{Pattern, has_star};
use bq_base::Bytes;
use bq_base_texts::NameSet;
use std::alloc::{AllocError, Global};

/// The texts of patterns, each once. A name is looked up among those without a star, and matched against the others.
#[derive(Drop)]
pub struct PatternSet {
    plain: NameSet,
    starred: NameSet,
}

fn matches_some(texts: &[Bytes], name: &[u8]) -> bool
    ensures { result ≡ list_any (λ p. matches p name.now) texts.now }
{
    texts.iter().any(|text| is_match(text.as_slice(), name))
}

impl PatternSet {
    fn new(alloc: Global) -> PatternSet
        ensures { (name : List ℕ) → is_match result name ≡ false }
    {
        PatternSet {
            plain: NameSet::new(alloc),
            starred: NameSet::new(alloc),
        }
    }

    fn add(&mut self, pattern: &Pattern) -> Result<(), AllocError>
        ensures { OnOk result ((name : List ℕ) → is_match self.new name ≡ (is_match self.old name || matches pattern.now name)) }
    {
        let text = pattern.text();
        if has_star(text.as_slice()) {
            self.starred.add(text)?;
            return Ok(());
        }
        self.plain.add(text)?;
        Ok(())
    }

    /// Makes the set of these patterns.
    pub fn of(alloc: Global, patterns: &[Pattern]) -> Result<PatternSet, AllocError>
        ensures { IfOk result (λ s. (name : List ℕ) → is_match s name ≡ list_any (λ p. matches p name) patterns.now) }
    {
        let mut set = PatternSet::new(alloc);
        for pattern in patterns {
            set.add(pattern)?;
        }
        Ok(set)
    }

    /// Returns whether one of the patterns matches the name.
    pub fn is_match(&self, name: &[u8]) -> bool
        ensures { result ≡ is_match self.now name.now }
    {
        self.plain.place(name).is_some() || matches_some(self.starred.as_slice(), name)
    }
}
