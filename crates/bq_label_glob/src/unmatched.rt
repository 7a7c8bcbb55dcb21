//! Patterns that match none of some names.

ghost use Rattle.std.specs.Prelude.{◌≡◌, true, not, IfOk};
ghost use Rattle.std.specs.List.{list_any};
ghost use Rattle.bq_label_glob.specs.Matching.{matches};
ghost use Rattle.bq_label_glob.specs.Unmatched.{is_plain, HasNames};

use crate::pattern::{Pattern, has_star};
use bq_base::Bytes;
use bq_base_texts::NameSet;
use std::alloc::{AllocError, Global};

/// Returns whether a pattern has no star.
fn is_plain(pattern: &Pattern) -> bool
    ensures { result ≡ is_plain pattern.now }
{
    !has_star(pattern.text().as_slice())
}

fn some_is_plain(patterns: &[Pattern]) -> bool
    ensures { result ≡ list_any is_plain patterns.now }
{
    patterns.iter().any(|pattern| is_plain(pattern))
}

/// Makes the set of names.
fn set_of(alloc: Global, names: &[Bytes]) -> Result<NameSet, AllocError>
    ensures { IfOk result (λ set. HasNames set names.now) }
{
    let mut set = NameSet::new(alloc);
    for name in names {
        set.add(name)?;
    }
    Ok(set)
}

/// Makes the set of names where one of the patterns is looked up in it. Most patterns have a star.
fn set_for(alloc: Global, patterns: &[Pattern], names: &[Bytes]) -> Result<NameSet, AllocError>
    ensures { IfOk result (λ set. list_any is_plain patterns.now ≡ true → HasNames set names.now) }
{
    if !some_is_plain(patterns) {
        return Ok(NameSet::new(alloc));
    }
    set_of(alloc, names)
}

/// Returns whether a pattern matches one of the names. One without a star is looked up in the set of them.
fn has_match(pattern: &Pattern, names: &[Bytes], set: &NameSet) -> bool
    requires { is_plain pattern.now ≡ true → HasNames set.now names.now }
    ensures { result ≡ list_any (matches pattern.now) names.now }
{
    if is_plain(pattern) {
        return set.place(pattern.text().as_slice()).is_some();
    }
    names.iter().any(|name| pattern.matches(name.as_slice()))
}

/// Returns whether one of the patterns matches none of the names.
pub fn any_matches_none(
    alloc: Global,
    patterns: &[Pattern],
    names: &[Bytes],
) -> Result<bool, AllocError>
    ensures { IfOk result (λ found. found ≡ list_any (λ p. not (list_any (matches p) names.now)) patterns.now) }
{
    let set = set_for(alloc, patterns, names)?;
    for pattern in patterns {
        if !has_match(pattern, names, &set) {
            return Ok(true);
        }
    }
    Ok(false)
}
