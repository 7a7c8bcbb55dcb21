//! Which functions are active.

ghost use Rattle.std.specs.Prelude.{◌≡◌};
ghost use Rattle.bq_builtin_machine.specs.Action.{Does};
ghost use Rattle.bq_builtin_machine.specs.Calls.{enter, leave};

use crate::machine::Machine;
use bq_base::EvalFault;
use bq_value::EvalErr;

/// The most functions that are active (F51).
pub const MAX_ACTIVE: usize = 100;

impl Machine {
    /// Makes a function active: the one of `module` whose `def` has this place.
    #[tactic(auto, unfolding(crate::specs::Calls::enter))]
    pub fn enter(&mut self, module: u32, place: u32) -> Result<(), EvalErr>
        ensures { Does (λ _. tt) result self.new (enter «module» place self.old) }
    {
        for function in &self.active {
            if function.0 == module && function.1 == place {
                return Err(EvalErr::Bad(EvalFault::Recursion));
            }
        }
        if self.active.len() >= MAX_ACTIVE {
            return Err(EvalErr::Bad(EvalFault::CallDepth));
        }
        self.active.push((module, place))?;
        Ok(())
    }

    /// Leaves the function that became active last.
    #[tactic(auto, unfolding(crate::specs::Calls::leave))]
    pub fn leave(&mut self)
        ensures { self.new ≡ leave self.old }
    {
        let _newest = self.active.pop();
    }
}
