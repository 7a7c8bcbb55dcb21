//! A reader and a writer of one byte a call, which fail at a call.

ghost use Rattle.std.specs.Prelude.{◌≡◌};

use bq_run::Metered;
use std::alloc::Global;
use std::io;
use std::io::{Error, ErrorKind, Read, Write};

/// A reader of one byte a call, which fails at its `fails`th call.
#[derive(Drop)]
pub struct Drip<'a> {
    left: &'a [u8],
    calls: u64,
    fails: u64,
}

impl Read for Drip<'_> {
    fn read(&mut self, buf: &mut [u8]) -> io::Result<usize> {
        self.calls = self.calls.saturating_add(1);
        if self.calls == self.fails {
            return Err(Error::from(ErrorKind::Other));
        }
        let Some((first, rest)) = self.left.split_first() else {
            return Ok(0);
        };
        if buf.is_empty() {
            return Ok(0);
        }
        buf[0] = *first;
        self.left = rest;
        Ok(1)
    }
}

/// The reader of these bytes. Where `fails` is 0 it never fails.
pub fn make_drip(left: &[u8], fails: u64) -> Metered<Drip<'_>>
    ensures { result.failures ≡ 0 }
{
    Metered::new(Drip {
        left,
        calls: 0,
        fails,
    })
}

/// A writer of one byte a call, which fails at its `fails`th call: by an error, or by taking nothing.
#[derive(Drop)]
pub struct Sip {
    pub held: Vec<u8>,
    calls: u64,
    fails: u64,
    quietly: bool,
}

impl Write for Sip {
    fn write(&mut self, buf: &[u8]) -> io::Result<usize> {
        self.calls = self.calls.saturating_add(1);
        if self.calls == self.fails {
            return if self.quietly {
                Ok(0)
            } else {
                Err(Error::from(ErrorKind::Other))
            };
        }
        let Some(first) = buf.first() else {
            return Ok(0);
        };
        self.held.push(*first)?;
        Ok(1)
    }

    fn flush(&mut self) -> io::Result<()> {
        Ok(())
    }
}

/// An empty writer. Where `fails` is 0 it never fails.
pub fn make_sip(alloc: Global, fails: u64, quietly: bool) -> Metered<Sip>
    ensures { result.failures ≡ 0 }
{
    Metered::new(Sip {
        held: Vec::new(alloc),
        calls: 0,
        fails,
        quietly,
    })
}
