//! What searches for a pattern.

ghost use Rattle.std.specs.Prelude.{◌≡◌};
ghost use Rattle.regex.specs.Bytes.{regex_source, regex_config, regex_pattern, matcher_pattern, IsReadFromSource};
ghost use Rattle.bq_query_pattern.specs.Patterns.{options, is_found};

use regex::bytes::{Matcher, Regex};
use std::marker::Model;

/// Searches texts for a pattern, unanchored. Contracts see the pattern's bytes.
#[derive(Drop)]
pub struct PatternMatcher<'a> {
    regex: &'a Regex,
    matcher: Matcher<'a>,
}

impl<'a> Model for PatternMatcher<'a> {
    ghost use Rattle.std.specs.Prelude.{List, ℕ, ◌≡◌};
    ghost use Rattle.regex.specs.Bytes.{regex_source, regex_config, regex_pattern, matcher_pattern, IsReadFromSource};
    ghost use Rattle.bq_query_pattern.specs.Patterns.{options};

    ghost Value = { List ℕ };

    ghost view = { λ m. regex_source m.regex.now };

    ghost invariant = { λ m. (regex_config m.regex.now ≡ options) × IsReadFromSource m.regex.now × (matcher_pattern m.matcher ≡ regex_pattern m.regex.now) };
}

impl<'a> PatternMatcher<'a> {
    /// Searches for what is compiled, by its matcher.
    pub(crate) fn new(regex: &'a Regex, matcher: Matcher<'a>) -> PatternMatcher<'a>
        requires config { regex_config regex.now ≡ options }
        requires read { IsReadFromSource regex.now }
        requires same { matcher_pattern matcher ≡ regex_pattern regex.now }
        ensures { result ≡ regex_source regex.now }
    {
        PatternMatcher { regex, matcher }
    }

    /// Returns whether the pattern is found anywhere in the text.
    pub fn is_match(&mut self, text: &[u8]) -> bool
        ensures found { result ≡ is_found self.old text.now }
        ensures same { self.new ≡ self.old }
    {
        self.matcher.is_match(text)
    }
}
