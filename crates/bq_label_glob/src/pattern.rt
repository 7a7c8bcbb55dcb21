//! Patterns of glob.

ghost use Rattle.std.specs.Prelude.{◌≡◌, true, IfOk, IsTrue};
ghost use Rattle.std.specs.List.{list_any};
ghost use Rattle.bq_base.specs.Gives.{Gives};
ghost use Rattle.bq_base.specs.declared.fault.SourceErr.TheVariants.{Bad};
ghost use Rattle.bq_label.specs.Paths.{is_slash, is_segment};
ghost use Rattle.bq_label_glob.specs.Matching.{matches, is_star};
ghost use Rattle.bq_label_glob.specs.Pattern.{has_two_stars, is_pattern, pattern_of};

use crate::matching::is_match;
use bq_base::{Bytes, EvalFault, Fault, SourceErr};
use bq_label::is_segment;
use memchr::memchr;
use std::marker::Model;

/// A pattern of glob: segments joined by `/`. Contracts see its bytes.
#[derive(Drop, Debug)]
pub struct Pattern {
    text: Bytes,
}

impl Model for Pattern {
    ghost use Rattle.std.specs.Prelude.{ℕ, List, true, ◌≡◌};
    ghost use Rattle.bq_label_glob.specs.Pattern.{is_pattern};

    ghost Value = { List ℕ };

    ghost view = { λ p. p.text };

    ghost invariant = { λ p. is_pattern p.text ≡ true };
}

/// Returns whether two stars are next to each other.
#[tactic(auto, unfolding(crate::specs::Pattern::has_two_stars))]
fn has_two_stars(segment: &[u8]) -> bool
    ensures { result ≡ has_two_stars segment.now }
{
    let mut rest = segment;
    while let [_, more @ ..] = rest {
        if rest.starts_with(b"**") {
            return true;
        }
        rest = more;
    }
    false
}

/// Returns whether a text has a star.
pub(crate) fn has_star(text: &[u8]) -> bool
    ensures { result ≡ list_any is_star text.now }
{
    memchr(b'*', text).is_some()
}

/// Returns whether a text is a pattern.
#[tactic(auto, unfolding(crate::specs::Pattern::is_pattern, crate::specs::Pattern::is_pattern_segment))]
fn is_pattern(text: &[u8]) -> bool
    ensures { result ≡ is_pattern text.now }
{
    text.split(|byte| *byte == b'/').all(|segment| {
        is_segment(segment) && (segment == b"**".as_slice() || !has_two_stars(segment))
    })
}

/// Returns whether a text is that of a pattern.
fn is_text_of(text: &Bytes, pattern: Option<&Pattern>) -> bool
    ensures { IsTrue result → is_pattern text.now ≡ true }
{
    match pattern {
        Some(pattern) => pattern.text == *text,
        None => false,
    }
}

/// Reads a text as a pattern, and shares it. A text that isn't one is fault F77, at line 0: it or a segment of it is
/// empty, a segment is `.` or `..`, or `**` is a part of a longer segment. The text of a pattern that was read before
/// isn't looked through again.
#[tactic(auto, unfolding(crate::specs::Pattern::pattern_of))]
pub fn read_pattern(text: &Bytes, before: Option<&Pattern>) -> Result<Pattern, SourceErr<EvalFault>>
    ensures { Gives (λ p. p) Bad result (pattern_of text.now) }
{
    if !is_text_of(text, before) && !is_pattern(text.as_slice()) {
        return Err(SourceErr::Bad(Fault::at(EvalFault::GlobPattern, 0)));
    }
    Ok(Pattern {
        text: text.share()?,
    })
}

impl Pattern {
    /// Returns the pattern's text.
    pub fn text(&self) -> &Bytes
        ensures { result.now ≡ self.now }
    {
        &self.text
    }

    /// Returns whether the pattern matches a path.
    pub fn matches(&self, path: &[u8]) -> bool
        ensures { result ≡ matches self.now path.now }
    {
        is_match(self.text.as_slice(), path)
    }
}
