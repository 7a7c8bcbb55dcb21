//! A pattern that was compiled once, and is kept as its bytes.

ghost use Rattle.std.specs.Prelude.{◌≡◌, IfOk, IfErr};
ghost use Rattle.bq_query_pattern.specs.Patterns.{IsRead, IsCause};

use crate::compiled::CompiledPattern;
use bq_base::Bytes;
use std::alloc::{AllocError, Global};
use std::marker::Model;

/// Why bytes are refused as a pattern.
#[derive(Clone, Copy, PartialEq, Eq, Debug, Drop)]
pub enum PatternErr {
    /// They are not UTF-8, or `regex` refuses them, though there is memory.
    BadRegex,
    Memory,
}

/// A pattern. Contracts see its bytes. It is compiled again where it is searched for, since a short pattern may take megabytes
/// once it is compiled, and a query may have thousands.
#[derive(Drop)]
pub struct QueryPattern {
    bytes: Bytes,
}

impl Model for QueryPattern {
    ghost use Rattle.std.specs.Prelude.{List, ℕ};

    ghost Value = { List ℕ };

    ghost view = { λ p. p.bytes };
}

impl QueryPattern {
    /// Takes these bytes as a pattern, if they can be compiled. Not inlined, so that only this call has the frame that
    /// compiling takes.
    #[inline(never)]
    pub fn new(alloc: Global, bytes: &Bytes) -> Result<QueryPattern, PatternErr>
        ensures same { IfOk result (λ p. p ≡ bytes.now) }
        ensures read { IfOk result (λ _. IsRead bytes.now) }
        ensures refused { IfErr result (IsCause bytes.now) }
    {
        let _compiled = CompiledPattern::read(alloc, bytes.as_slice())?;
        match bytes.share() {
            Ok(bytes) => Ok(QueryPattern { bytes }),
            Err(_) => Err(PatternErr::Memory),
        }
    }

    /// Compiles it again. It compiled once, so a refusal is returned as one of memory; the contract doesn't say why
    /// it fails.
    #[inline(never)]
    pub fn compiled(&self, alloc: Global) -> Result<CompiledPattern, AllocError>
        ensures { IfOk result (λ c. c ≡ self.now) }
    {
        match CompiledPattern::read(alloc, self.bytes.as_slice()) {
            Ok(compiled) => Ok(compiled),
            Err(_) => Err(AllocError),
        }
    }
}
