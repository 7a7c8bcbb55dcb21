//! Who is notified of each evaluation.
use std::marker::Sync;

/// Is notified of each module that is evaluated. What it does changes no outcome. Threads may share it.
pub trait Watch: Sync {
    /// Is called by what evaluates a module, once, right before the module's statements run.
    fn begins(&self, m: u32);
}

/// Watches nothing.
#[derive(Clone, Copy)]
pub struct Unwatched;

impl Watch for Unwatched {
    fn begins(&self, m: u32) {
        let _ = m;
    }
}
