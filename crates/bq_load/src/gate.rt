//! Who evaluates modules, and who is notified of each evaluation.

use crate::loading::Loading;
use bq_label::Label;
use bq_load_order::Watch;
use std::marker::Sync;

/// Is notified of each module that is evaluated. What it does changes no outcome.
pub trait Gate: Sync {
    /// Is called once by whoever evaluates a module, right before. It isn't called for a module whose outcome is known
    /// without evaluation: one with a fault of its own, one that is cyclic or too deep, one that loads a failed module,
    /// and one that loads a symbol that isn't there.
    fn enter(&self, module: &Label);
}

/// Does nothing.
#[derive(Clone, Copy)]
pub struct OpenGate;

impl Gate for OpenGate {
    fn enter(&self, module: &Label) {
        let _ = module;
    }
}

/// How many workers evaluate modules, each in a thread of its own, and whom they notify.
#[derive(Drop)]
pub struct Workers<'a, G: Gate> {
    pub count: usize,
    pub gate: &'a G,
}

/// Notifies a gate of each evaluation, by the labels of the modules.
#[derive(Drop)]
pub struct GateWatch<'a, G: Gate> {
    pub gate: &'a G,
    pub loading: &'a Loading<'a>,
}

impl<'a, G: Gate> Watch for GateWatch<'a, G> {
    fn begins(&self, m: u32) {
        match self.loading.modules.get(m as usize) {
            None => {}
            Some(module) => self.gate.enter(&module.label),
        }
    }
}
