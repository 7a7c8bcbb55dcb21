//! The environment in which code is evaluated.

ghost use Rattle.std.specs.Prelude.{◌≡◌, option_copied};
ghost use Rattle.bq_eval_rules.specs.Round.{globals_of};

use bq_eval_frame::Frame;
use bq_resolve_scope::{Function, ResolvedFile};
use bq_value::{Frozen, Value};
use std::alloc::Global;
use std::sync::Arc;

/// The globals of a file.
#[derive(Clone, Copy)]
pub enum Globals<'a> {
    /// Nothing is bound.
    Absent,
    /// Those of the file that is evaluated, of which some are not bound yet.
    Running(&'a Frame<'a>),
    /// Those of a frozen module.
    Frozen(&'a [Value]),
}

impl<'a> Globals<'a> {
    #[tactic(auto, unfolding(crate::specs::Round::globals_of, bq_eval_spec::specs::Frame::empty))]
    #[inline(always)]
    pub fn get(self, k: usize) -> Option<&'a Value>
        ensures { option_copied result ≡ globals_of self.entry k }
    {
        match self {
            Globals::Absent => None,
            Globals::Running(frame) => frame.get(k),
            Globals::Frozen(values) => values.get(k),
        }
    }
}

/// The module that is evaluated, and the frozen ones that it reaches.
#[derive(Clone, Copy)]
pub struct Program<'a> {
    pub number: u32,
    pub functions: &'a [Function],
    /// The values that its loads bind.
    pub loaded: &'a [Value],
    /// The resolved files, by the numbers of their modules.
    pub code: &'a [Option<&'a ResolvedFile>],
    /// The modules that it loads.
    pub frozen: &'a [Arc<Frozen>],
}

/// The environment in which an expression or a statement is evaluated.
#[derive(Clone, Copy)]
pub struct Context<'a> {
    pub alloc: Global,
    /// How many functions may still become active.
    pub left: usize,
    pub program: &'a Program<'a>,
    /// The globals of the module that is evaluated.
    pub own: Globals<'a>,
    /// Whether the statement is outside functions: its frame is the globals of the module that is evaluated.
    pub outside: bool,
    /// The globals of the file of this code.
    pub globals: Globals<'a>,
    /// The values that the loads of the file of this code bind.
    pub loaded: &'a [Value],
}
