//! The modules of a program.

ghost use Rattle.std.specs.Prelude.{◌≡◌, None, Some, MatchOption};
ghost use Rattle.bq_eval_spec.specs.Slots.{frozen_unit, globals_among};
ghost use Rattle.bq_eval_rules.specs.TreeUnits.{unit_of};
ghost use Rattle.bq_eval_rules.specs.Round.{units_at, globals_of, views_of};

use crate::context::{Globals, Program};
use bq_resolve_scope::{Function, ResolvedFile};
use bq_value::{Frozen, Value};
use std::sync::Arc;

/// A module: its functions in the order of their `def`s, its globals, and what its loads bound.
#[derive(Clone, Copy)]
pub struct TreeUnit<'a> {
    pub functions: &'a [Function],
    pub globals: Globals<'a>,
    pub loaded: &'a [Value],
}

/// Returns the module of this number, where `own` are the globals of the one that is evaluated.
#[tactic(auto, unfolding(crate::specs::Round::units_at, bq_eval_spec::specs::Slots::frozen_units, crate::specs::Round::globals_of))]
pub fn unit_at<'a>(program: &'a Program<'a>, own: Globals<'a>, home: u32) -> Option<TreeUnit<'a>>
    ensures { MatchOption result (units_at program.now (globals_of own.entry) home ≡ None) (λ u. units_at program.now (globals_of own.entry) home ≡ Some (unit_of u)) }
{
    if home == program.number {
        return Some(TreeUnit {
            functions: program.functions,
            globals: own,
            loaded: program.loaded,
        });
    }
    match globals_among(program.frozen, home) {
        None => None,
        Some(values) => match program.code.get(home as usize) {
            None => None,
            Some(None) => None,
            Some(Some(file)) => Some(frozen_unit(file, values)),
        },
    }
}

/// Returns the globals and loaded values of module `home`, if one of `frozen` is that module or reaches it.
#[tactic(auto, unfolding(bq_eval_spec::specs::Slots::globals_among))]
fn globals_among<'a>(mut frozen: &'a [Arc<Frozen>], home: u32) -> Option<&'a [Value]>
    ensures { MatchOption result (globals_among home (views_of frozen.entry.now) ≡ None) (λ values. globals_among home (views_of frozen.entry.now) ≡ Some values.now) }
{
    while let [first, rest @ ..] = frozen {
        if let Some(values) = first.globals_of(home) {
            return Some(values);
        }
        frozen = rest;
    }
    None
}

/// Returns a frozen module, from its file, and the values of its globals and of what its loads bind.
#[tactic(auto, using(std::proofs::lemmas::List::take_min, std::proofs::lemmas::List::drop_min), unfolding(crate::specs::Round::globals_of))]
fn frozen_unit<'a>(file: &'a ResolvedFile, values: &'a [Value]) -> TreeUnit<'a>
    ensures { Some (unit_of result) ≡ frozen_unit (Some (Some file.now)) (Some values.now) }
{
    let count = file.globals.len().min(values.len());
    TreeUnit {
        functions: file.functions.as_slice(),
        globals: Globals::Frozen(&values[..count]),
        loaded: &values[count..],
    }
}
