//! Lists, dicts and rules: how they are made, what they hold, and whether they may be changed.

ghost use Rattle.std.specs.Prelude.{◌≡◌, ◌<◌, IfOk, OnOk, Some, length};
ghost use Rattle.std.specs.Borrow.{sem};
ghost use Rattle.bq_value.specs.Cells.{content_at};
ghost use Rattle.bq_builtin_machine.specs.Action.{Does};
ghost use Rattle.bq_builtin_machine.specs.Cells.{new_content, new_list, new_dict, content, is_walked, may_change, can_change};
ghost use Rattle.bq_builtin_machine.specs.Lending.{LendsContent};

use crate::machine::Machine;
use bq_base::EvalFault;
use bq_value::{Cell, Content, Dict, EvalErr, Value};

impl Machine {
    /// Makes a list, a dict or a rule.
    #[tactic(auto, unfolding(crate::specs::Cells::new_content))]
    pub fn new_content(&mut self, content: Content) -> Result<Value, EvalErr>
        ensures { Does (λ v. v) result self.new (new_content content self.old) }
    {
        Ok(Value::cell(self.store.make(content)?))
    }

    /// Makes a list.
    #[tactic(auto, unfolding(crate::specs::Cells::new_list))]
    pub fn new_list(&mut self, values: Vec<Value>) -> Result<Value, EvalErr>
        ensures { Does (λ v. v) result self.new (new_list values.items self.old) }
    {
        self.new_content(Content::list(values))
    }

    /// Makes a dict.
    #[tactic(auto, unfolding(crate::specs::Cells::new_dict))]
    pub fn new_dict(&mut self, pairs: Dict) -> Result<Value, EvalErr>
        ensures { Does (λ v. v) result self.new (new_dict pairs self.old) }
    {
        self.new_content(Content::dict(pairs))
    }

    /// Returns what a list, dict or rule holds.
    #[tactic(auto, unfolding(crate::specs::Cells::content))]
    pub fn content(&self, cell: Cell) -> Result<&Content, EvalErr>
        ensures { Does (λ c. c.now) result self.now (content cell.module cell.number self.now) }
    {
        match self.store.content(cell) {
            Some(content) => Ok(content),
            None => Err(EvalErr::Bad(EvalFault::WrongType)),
        }
    }

    /// Fails where a list or dict may not be changed (F47, F48).
    #[tactic(auto, unfolding(crate::specs::Cells::may_change))]
    pub fn may_change(&self, cell: Cell) -> Result<(), EvalErr>
        ensures says { Does (λ _. tt) result self.now (may_change cell.module cell.number self.now) }
        ensures own { OnOk result (cell.module ≡ self.now.store.own) }
    {
        if cell.module != self.store.module() {
            return Err(EvalErr::Bad(EvalFault::Frozen));
        }
        if is_walked(&self.walks, cell) {
            return Err(EvalErr::Bad(EvalFault::Iterating));
        }
        Ok(())
    }

    /// Fails where there is no such list or dict, or it may not be changed.
    #[tactic(auto, using(crate::proofs::Within::known_here, crate::proofs::Within::known_within), unfolding(crate::specs::Cells::can_change, crate::specs::Cells::content))]
    fn can_change(&self, cell: Cell) -> Result<(), EvalErr>
        ensures says { Does (λ _. tt) result self.now (can_change cell.module cell.number self.now) }
        ensures own { OnOk result (cell.module ≡ self.now.store.own) }
        ensures within { OnOk result (cell.number < length self.now.store.cells) }
    {
        match self.store.content(cell) {
            None => Err(EvalErr::Bad(EvalFault::WrongType)),
            Some(_) => self.may_change(cell),
        }
    }

    /// Returns what a list or dict holds, to be changed.
    pub fn change(&mut self, cell: Cell) -> Result<&mut Content, EvalErr>
        ensures* lends { sem 𝓛 (LendsContent self.entry cell.number result) }
        ensures says { Does (λ _. tt) result self.old (can_change cell.module cell.number self.old) }
        ensures now { IfOk result (λ c. content_at self.old.store cell.module cell.number ≡ Some c.now) }
    {
        self.can_change(cell)?;
        let content = self.store.change(cell)?;
        Ok(content)
    }
}

fn is_walked(walks: &[Cell], cell: Cell) -> bool
    ensures { result ≡ is_walked cell.module cell.number walks.now }
{
    for walk in walks {
        if walk.module == cell.module && walk.number == cell.number {
            return true;
        }
    }
    false
}
