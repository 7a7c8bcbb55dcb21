//! The names of a frame, which lends their values.

ghost use Rattle.std.specs.Prelude.{◌≡◌, IfSome, Some};
ghost use Rattle.bq_value.specs.Datum.{int};
ghost use Rattle.bq_eval_spec.specs.Targets.{bound};
ghost use Rattle.bq_eval_frame.specs.Slots.{slots_of};
ghost use Rattle.bq_eval_rules.specs.Acts.{Acts};
ghost use Rattle.bq_eval_rules.specs.Operands.{local_use};

use crate::runtime::Runtime;
use bq_base::EvalFault;
use bq_eval_frame::Frame;
use bq_value::{EvalErr, Node, Value};

/// Returns the integer in a slot, if there is one.
#[inline(always)]
pub fn int_in(frame: &Frame<'_>, slot: usize) -> Option<i64>
    ensures { IfSome result (λ n. slots_of frame.now slot ≡ Some (int n)) }
{
    match frame.get(slot) {
        None => None,
        Some(value) => match &value.node {
            Node::Int(n) => Some(*n),
            _ => None,
        },
    }
}

/// Lends the value in a slot, if there is one that is no integer.
#[inline(always)]
pub fn lent_in<'f>(frame: &'f Frame<'_>, slot: usize) -> Option<&'f Value>
    ensures { IfSome result (λ v. slots_of frame.now slot ≡ Some v.now) }
{
    match frame.get(slot) {
        None => None,
        Some(value) => match &value.node {
            Node::Int(_) => None,
            _ => Some(value),
        },
    }
}

/// Lends the value of a name, or fails with F49.
#[tactic(auto, unfolding(bq_eval_spec::specs::Targets::bound))]
#[inline(always)]
pub fn bound<'f, R: Runtime>(
    frame: &'f Frame<'_>,
    runtime: &R,
    slot: usize,
) -> Result<&'f Value, EvalErr>
    ensures { Acts R.means (λ v. v.now) result (R.seen runtime.now) (bound R.means (slots_of frame.now slot) (R.seen runtime.now)) }
{
    match frame.get(slot) {
        None => Err(EvalErr::Bad(EvalFault::Unbound)),
        Some(value) => Ok(value),
    }
}

/// Lends the value of a local name, or fails with F49. It takes the step of the use.
#[inline(always)]
pub fn local_use<'f, R: Runtime>(
    frame: &'f Frame<'_>,
    runtime: &mut R,
    slot: usize,
) -> Result<&'f Value, EvalErr>
    ensures { Acts R.means (λ v. v.now) result (R.seen runtime.new) (local_use R.means (slots_of frame.now) slot (R.seen runtime.old)) }
{
    runtime.step(1)?;
    bound(frame, &*runtime, slot)
}
