//! A gate that holds one module until another has entered.

use bq_label::Label;
use bq_load::Gate;
use std::sync::atomic::{AtomicBool, Ordering};
use std::thread;

/// Holds `b.bzl` until `c.bzl` has entered.
#[derive(Drop)]
pub struct Holding {
    entered: AtomicBool,
    met: AtomicBool,
}

impl Holding {
    pub fn new() -> Holding {
        Holding {
            entered: AtomicBool::new(false),
            met: AtomicBool::new(false),
        }
    }

    /// Whether the other module enters before so many turns.
    fn waits(&self) -> bool {
        for _ in 0..10_000_000u64 {
            if self.entered.load(Ordering::SeqCst) {
                return true;
            }
            thread::yield_now();
        }
        false
    }

    /// Whether `c.bzl` entered while `b.bzl` was held, or before.
    pub fn both_met(&self) -> bool {
        self.met.load(Ordering::SeqCst)
    }
}

impl Gate for Holding {
    fn enter(&self, module: &Label) {
        match module.name().as_slice() {
            [b'b', ..] => {
                if self.waits() {
                    self.met.store(true, Ordering::SeqCst);
                }
            }
            [b'c', ..] => self.entered.store(true, Ordering::SeqCst),
            _ => {}
        }
    }
}
