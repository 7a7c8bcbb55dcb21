//! A gate that counts how often each module of a large workspace enters.

use bq_label::Label;
use bq_load::{Gate, Loaded, ModuleOutcome};
use std::alloc::{AllocError, Global};
use std::sync::atomic::{AtomicU64, Ordering};

/// Counts how often each module of a large workspace enters.
#[derive(Drop)]
pub struct Counts {
    counts: Vec<AtomicU64>,
}

/// The number that the digits of a text write.
fn number_in(text: &[u8]) -> usize {
    let mut number = 0usize;
    for byte in text {
        if byte.is_ascii_digit() {
            let digit = usize::from(byte.wrapping_sub(b'0'));
            number = number.wrapping_mul(10).wrapping_add(digit);
        }
    }
    number
}

/// The place of a module's count: of a .bzl file at its number, of a BUILD file after all of them.
fn place_of(module: &Label) -> usize {
    let name = module.name().as_slice();
    if name != b"BUILD".as_slice() {
        return number_in(name);
    }
    let package = module.package().as_slice();
    if package.is_empty() {
        return 400;
    }
    number_in(package).wrapping_add(200)
}

impl Counts {
    pub fn new(alloc: Global) -> Result<Counts, AllocError> {
        let mut counts = Vec::new(alloc);
        for _ in 0..401 {
            counts.push(AtomicU64::new(0))?;
        }
        Ok(Counts { counts })
    }

    /// How often a module entered.
    fn of(&self, module: &Label) -> u64 {
        match self.counts.get(place_of(module)) {
            Some(count) => count.load(Ordering::SeqCst),
            None => 0,
        }
    }

    /// Whether a module that was evaluated entered once, and any other didn't.
    fn is_right(&self, module: &ModuleOutcome) -> bool {
        let wanted = if is_evaluated(module) { 1 } else { 0 };
        self.of(&module.label) == wanted
    }

    pub fn are_right(&self, loaded: &Loaded) -> bool {
        loaded.modules.iter().all(|module| self.is_right(module))
    }
}

/// Whether a module of a large workspace was evaluated: a division by zero is the one fault of evaluation there.
fn is_evaluated(module: &ModuleOutcome) -> bool {
    match &module.result {
        Ok(_) => true,
        Err(failed) => failed.fault.kind.number() == 42,
    }
}

impl Gate for Counts {
    fn enter(&self, module: &Label) {
        match self.counts.get(place_of(module)) {
            Some(count) => {
                count.fetch_add(1, Ordering::SeqCst);
            }
            None => {}
        }
    }
}
