//! Compiled patterns.

ghost use Rattle.std.specs.Prelude.{◌≡◌, IfOk, IfErr};
ghost use Rattle.bq_query_pattern.specs.Patterns.{IsRead, IsCause, cause_of};

use crate::matcher::PatternMatcher;
use crate::pattern::PatternErr;
use regex::bytes::Regex;
use std::alloc::{AllocError, Global};
use std::marker::Model;

/// A compiled pattern. Contracts see the bytes that it was read from.
#[derive(Drop)]
pub struct CompiledPattern {
    regex: Regex,
}

impl Model for CompiledPattern {
    ghost use Rattle.std.specs.Prelude.{List, ℕ, ◌≡◌};
    ghost use Rattle.regex.specs.Bytes.{regex_source, regex_config, IsReadFromSource};
    ghost use Rattle.bq_query_pattern.specs.Patterns.{options};

    ghost Value = { List ℕ };

    ghost view = { λ c. regex_source c.regex };

    ghost invariant = { λ c. (regex_config c.regex ≡ options) × IsReadFromSource c.regex };
}

fn cause(error: regex::Error) -> PatternErr
    ensures { result ≡ cause_of error }
{
    match error {
        regex::Error::OutOfMemory => PatternErr::Memory,
        _ => PatternErr::BadRegex,
    }
}

impl CompiledPattern {
    /// Compiles the pattern of these bytes.
    pub fn read(alloc: Global, bytes: &[u8]) -> Result<CompiledPattern, PatternErr>
        ensures same { IfOk result (λ c. c ≡ bytes.now) }
        ensures read { IfOk result (λ _. IsRead bytes.now) }
        ensures refused { IfErr result (IsCause bytes.now) }
    {
        match str::from_utf8(bytes) {
            Err(_) => Err(PatternErr::BadRegex),
            Ok(text) => match Regex::new(alloc, text) {
                Ok(regex) => Ok(CompiledPattern { regex }),
                Err(error) => Err(cause(error)),
            },
        }
    }

    /// Returns what searches for the pattern. Its tables are made once for all texts.
    pub fn matcher(&self, alloc: Global) -> Result<PatternMatcher<'_>, AllocError>
        ensures { IfOk result (λ m. m ≡ self.now) }
    {
        Ok(PatternMatcher::new(&self.regex, self.regex.matcher(alloc)?))
    }
}
