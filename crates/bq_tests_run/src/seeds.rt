//! That each load draws from the handle what the hashes of its keys begin with, so that nobody can choose keys for which dicts are slow.
//! No byte that is written depends on it, so the random bytes that the handle gives are counted.

use crate::runs::{Case, Given, UNFAILING, gives};
use crate::workspaces::{Property, has};
use std::alloc::AllocError;
use std::io;
use std::random::RandomSource;
use std::sync::Wait;
use std::sync::atomic::{AtomicU64, Ordering};
use std::thread::Threads;

/// A handle that counts the random bytes that it is asked for.
#[derive(Drop)]
struct Source<'a, R> {
    rt: &'a R,
    asked: AtomicU64,
}

impl<R: Threads> Threads for Source<'_, R> {}

impl<R: Wait> Wait for Source<'_, R> {}

impl<R: RandomSource> RandomSource for Source<'_, R> {
    fn fill_bytes(&self, buf: &mut [u8]) -> io::Result<()> {
        self.asked.fetch_add(buf.len() as u64, Ordering::SeqCst);
        self.rt.fill_bytes(buf)
    }
}

impl<R> Source<'_, R> {
    /// Whether it was asked for as many bytes as a seed has: two numbers of 64 bits.
    fn has_given_a_seed(&self) -> bool {
        self.asked.load(Ordering::SeqCst) >= 16
    }
}

fn make_source<R>(rt: &R) -> Source<'_, R> {
    Source {
        rt,
        asked: AtomicU64::new(0),
    }
}

const BUNDLE: &[u8] = b"=== a/BUILD\n";

#[test]
fn runs_draw_a_seed(rt: HostRuntime) -> Result<(), AllocError> {
    let wanted = Given {
        faults: b"",
        answer: b"//a:BUILD\n",
        line: b"",
        status: 0,
        failures: 0,
    };
    for jobs in [1u32, 4] {
        let case = Case {
            bundle: BUNDLE,
            query: b"//a:BUILD",
            jobs,
            steps: 1_000,
        };
        let source = make_source(&rt);
        let found = gives(&source, rt.alloc(), case, UNFAILING, wanted)?;
        assert!(rt; found && source.has_given_a_seed(), "{jobs} jobs");
    }
    Ok(())
}

/// Sessions and facts load a workspace by calls of their own. These fail in the midst of what they write, after it is loaded.
#[test]
fn sessions_and_facts_draw_a_seed(rt: HostRuntime) -> Result<(), AllocError> {
    for property in [
        Property::Session(b"//a:BUILD\n", 0, 5, b"=== "),
        Property::Facts(5, b"{\"fa"),
    ] {
        let source = make_source(&rt);
        let found = has(&source, rt.alloc(), BUNDLE, property)?;
        assert!(rt; found && source.has_given_a_seed());
    }
    Ok(())
}
