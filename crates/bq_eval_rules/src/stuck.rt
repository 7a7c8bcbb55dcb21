//! What a tree means that no file resolves to.

ghost use Rattle.std.specs.Prelude.{◌≡◌};
ghost use Rattle.bq_value.specs.declared.error.EvalErr.TheVariants.{Bad};
ghost use Rattle.bq_eval_spec.specs.Primitives.{stuck_fault};

use bq_base::EvalFault;
use bq_value::EvalErr;

/// Why a rule has no answer where it has come to what no file that is resolved has.
#[inline(always)]
pub fn stuck() -> EvalErr
    ensures { result ≡ Bad stuck_fault }
{
    EvalErr::Bad(EvalFault::BadValue)
}
