//! A gate that holds each of two modules until the other has entered.

use bq_label::Label;
use bq_load::Gate;
use std::sync::atomic::{AtomicU64, Ordering};
use std::thread;

/// Counts the modules that enter, and holds each of the first two until the other has entered.
#[derive(Drop)]
pub struct Meeting {
    entered: AtomicU64,
    met: AtomicU64,
    x: AtomicU64,
    y: AtomicU64,
    others: AtomicU64,
}

impl Meeting {
    pub fn new() -> Meeting {
        Meeting {
            entered: AtomicU64::new(0),
            met: AtomicU64::new(0),
            x: AtomicU64::new(0),
            y: AtomicU64::new(0),
            others: AtomicU64::new(0),
        }
    }

    /// The count of this module.
    fn count_of(&self, module: &Label) -> &AtomicU64 {
        match module.name().as_slice() {
            [b'x', ..] => &self.x,
            [b'y', ..] => &self.y,
            _ => &self.others,
        }
    }

    /// Whether a second module enters before so many turns.
    fn waits(&self) -> bool {
        for _ in 0..10_000_000u64 {
            if self.entered.load(Ordering::SeqCst) > 1 {
                return true;
            }
            thread::yield_now();
        }
        false
    }

    pub fn both_met(&self) -> bool {
        self.met.load(Ordering::SeqCst) == 2
    }

    /// Whether each of the three modules entered once.
    pub fn entered_once(&self) -> bool {
        let x = self.x.load(Ordering::SeqCst);
        let y = self.y.load(Ordering::SeqCst);
        let others = self.others.load(Ordering::SeqCst);
        x == 1 && y == 1 && others == 1
    }
}

impl Gate for Meeting {
    fn enter(&self, module: &Label) {
        self.count_of(module).fetch_add(1, Ordering::SeqCst);
        let before = self.entered.fetch_add(1, Ordering::SeqCst);
        if before < 2 && self.waits() {
            self.met.fetch_add(1, Ordering::SeqCst);
        }
    }
}
