//! Input that never ends. It is read up to a limit, and that of a bundle is the number of docs/FORMATS.md.

ghost use Rattle.std.specs.Prelude.{◌≡◌};

use bq_base::Limits;
use bq_run::{Metered, ReadFault, read_all};
use std::io;
use std::io::Read;

/// A reader that never ends: it fills what it is lent, and counts the bytes.
#[derive(Drop)]
struct Endless {
    given: u64,
}

impl Read for Endless {
    fn read(&mut self, buf: &mut [u8]) -> io::Result<usize> {
        self.given = self.given.saturating_add(buf.len() as u64);
        Ok(buf.len())
    }
}

fn make_endless() -> Metered<Endless>
    ensures { result.failures ≡ 0 }
{
    Metered::new(Endless { given: 0 })
}

/// How many bytes are read beyond a limit, at the most: those of a read.
const MAX_READ: u64 = 65_536;

#[test]
fn endless_input_meets_its_limit(rt: HostRuntime) {
    for limit in LIMITS {
        let mut reader = make_endless();
        let found = read_all(rt.alloc(), &mut reader, *limit);
        let is_too_long = matches!(&found, Err(ReadFault::TooLong));
        let beyond = reader.device.given.saturating_sub(*limit as u64);
        drop(found);
        assert!(rt;
            is_too_long && 0 < beyond && beyond <= MAX_READ,
            "limit {limit}"
        );
    }
}

const LIMITS: &[usize] = &[0, 1, 65_535, 65_536, 1_000_000];

/// A bundle of so many bytes would take as much memory, so the number alone is tried.
#[test]
fn the_limit_of_a_bundle(rt: HostRuntime) {
    assert!(rt; Limits::standard().bundle_bytes == 1_073_741_824);
}
