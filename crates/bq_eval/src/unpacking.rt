//! Unpacking.

ghost use Rattle.bq_builtin_machine.specs.Action.{Does};
ghost use Rattle.bq_eval.specs.Unpacking.{parts};

use bq_base::EvalFault;
use bq_builtin_machine::{Elements, Machine};
use bq_value::{EvalErr, Value};
use std::alloc::Global;

/// Returns the elements of an iterable that has exactly `count` (F57).
#[tactic(auto, unfolding(crate::specs::Unpacking::parts, bq_builtin_machine::specs::Iteration::elements))]
pub fn parts_of(
    machine: &Machine,
    alloc: Global,
    count: usize,
    value: &Value,
) -> Result<Elements, EvalErr>
    ensures { Does (λ xs. xs) result machine.now (parts count value.now machine.now) }
{
    match machine.elements(alloc, value) {
        Err(EvalErr::Memory) => Err(EvalErr::Memory),
        Err(EvalErr::Bad(_)) => Err(EvalErr::Bad(EvalFault::BadValue)),
        Ok(elements) => {
            if elements.len() == count {
                Ok(elements)
            } else {
                Err(EvalErr::Bad(EvalFault::BadValue))
            }
        }
    }
}
