//! Devices that count their failures.

ghost use Rattle.std.specs.Prelude.{◌≡◌, ℕ, List, Option, None};
ghost use Rattle.std.specs.Io.{ReadsAtMost, WritesAtMost};
ghost use Rattle.std.specs.Io.KnownBytes.{ReadConsumes, WriteAppends};
ghost use Rattle.bq_run_device.specs.Device.{ReadCounts, WriteCounts};

use std::io;
use std::io::{Read, Write};

/// A device that counts its calls that failed. At 2^64 - 1 the count stays.
pub trait Counted {
    ghost failed: { Self → ℕ };

    fn failures(&self) -> u64
        ensures { result ≡ failed self.now };
}

/// A reader that counts each read that returns an error.
pub trait ByteSource: Counted {
    /// The bytes that the reader still has, if they are known.
    ghost remaining: { Self → Option (List ℕ) } = { λ _. None };

    /// Reads some bytes into the front of `buf`, and returns how many: 0 at the end, and if `buf` is empty.
    fn read(&mut self, buf: &mut [u8]) -> io::Result<usize>
        ensures bound { ReadsAtMost result buf.new }
        ensures bytes { ReadConsumes (remaining self.old) (remaining self.new) result buf.new }
        ensures count { ReadCounts (Self.failed self.old) (Self.failed self.new) result };
}

/// A writer that counts each write that returns an error, and each of some bytes that takes none.
pub trait ByteSink: Counted {
    /// The bytes that the writer has taken, if they are known.
    ghost contents: { Self → Option (List ℕ) } = { λ _. None };

    /// Takes some bytes from the front of `buf`, and returns how many.
    fn write(&mut self, buf: &[u8]) -> io::Result<usize>
        ensures bound { WritesAtMost result buf.now }
        ensures bytes { WriteAppends (contents self.old) (contents self.new) result buf.now }
        ensures count { WriteCounts (Self.failed self.old) (Self.failed self.new) result buf.now };
}

/// Any reader or writer, with a count of its failures.
#[derive(Drop)]
pub struct Metered<D> {
    pub device: D,
    pub failures: u64,
}

impl<D> Metered<D> {
    /// Returns the device with a count of 0.
    pub fn new(device: D) -> Self
        ensures device { result.device ≡ device }
        ensures none { result.failures ≡ 0 }
    {
        Metered {
            device,
            failures: 0,
        }
    }
}

impl<D> Counted for Metered<D> {
    ghost failed = { λ m. m.failures };

    fn failures(&self) -> u64 {
        self.failures
    }
}

impl<D: Read> ByteSource for Metered<D> {
    ghost remaining = { λ m. D.remaining m.device };

    fn read(&mut self, buf: &mut [u8]) -> io::Result<usize> {
        let result = self.device.read(buf);
        if result.is_err() {
            self.failures = self.failures.saturating_add(1);
        }
        result
    }
}

impl<D: Write> ByteSink for Metered<D> {
    ghost contents = { λ m. D.contents m.device };

    fn write(&mut self, buf: &[u8]) -> io::Result<usize> {
        match self.device.write(buf) {
            Ok(0) if !buf.is_empty() => {
                self.failures = self.failures.saturating_add(1);
                Ok(0)
            }
            Ok(n) => Ok(n),
            Err(e) => {
                self.failures = self.failures.saturating_add(1);
                Err(e)
            }
        }
    }
}
