//! Words to target patterns.

ghost use Rattle.bq_label.specs.Reading.{package_of_text};
ghost use Rattle.bq_query_lex.specs.PatternReading.{IsReadAs, IsReadPattern, AreReadPatterns, label_named, pattern_by};

use crate::pattern::TargetPattern;
use crate::query_error::QueryErr;
use crate::target_pattern::{PatternForm, begins_pattern, word_form};
use bq_base::{Bytes, SourceErr};
use bq_label::{Label, PackageId, read_label, read_package};
use sqlite_items::Items;
use std::alloc::Global;

/// Reads a word as a label: Q8 if it is none.
fn label_named(alloc: Global, word: &[u8]) -> Result<Label, QueryErr>
    ensures { IsReadAs (label_named word.now) result }
{
    let root = PackageId::root(alloc)?;
    match read_label(alloc, word, &root) {
        Ok(label) => Ok(label),
        Err(SourceErr::Bad(_)) => Err(QueryErr::Arguments),
        Err(SourceErr::Memory) => Err(QueryErr::Memory),
    }
}

/// Reads the package that the part of a word before `:` or `/...` names: Q8 if there is none.
fn package_named(alloc: Global, part: &[u8]) -> Result<PackageId, QueryErr>
    ensures { IsReadAs (package_of_text part.now) result }
{
    match read_package(alloc, part)? {
        Some(package) => Ok(package),
        None => Err(QueryErr::Arguments),
    }
}

/// Reads the part that names, in a word of this form.
fn read_form(alloc: Global, form: PatternForm, part: &[u8]) -> Result<TargetPattern, QueryErr>
    ensures { IsReadAs (pattern_by form part.now) result }
{
    match form {
        PatternForm::Target => Ok(TargetPattern::Target(label_named(alloc, part)?)),
        PatternForm::Rules => Ok(TargetPattern::Rules(package_named(alloc, part)?)),
        PatternForm::All => Ok(TargetPattern::All(package_named(alloc, part)?)),
        PatternForm::RulesBeneath => Ok(TargetPattern::RulesBeneath(package_named(alloc, part)?)),
        PatternForm::AllBeneath => Ok(TargetPattern::AllBeneath(package_named(alloc, part)?)),
    }
}

/// Reads a word as a target pattern: Q3 if it doesn't begin as one that can be answered, Q8 if it can't be read.
pub fn read_pattern(alloc: Global, word: &Bytes) -> Result<TargetPattern, QueryErr>
    ensures { IsReadPattern word.now result }
{
    if !begins_pattern(word.as_slice()) {
        return Err(QueryErr::LeftOut(word.share()?));
    }
    let found = word_form(word.as_slice());
    read_form(alloc, found.form, found.named)
}

/// Reads words as target patterns. Fails for the first that is none.
pub fn read_patterns(alloc: Global, words: &[Bytes]) -> Result<Items<TargetPattern>, QueryErr>
    ensures { AreReadPatterns words.now result }
{
    let mut patterns = Items::new(alloc);
    let mut rest = words;
    while let [word, more @ ..] = rest {
        patterns.push(read_pattern(alloc, word)?)?;
        rest = more;
    }
    Ok(patterns)
}
