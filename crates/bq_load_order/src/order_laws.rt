//! Outcomes as a list. The function does nothing; its contract is the law.
ghost use Rattle.std.specs.Prelude.{◌≡◌, ℕ, List};
ghost use Rattle.bq_load_order.specs.Slots.{Tabulates};

/// Only one list has an outcome for each module, and no more: so all that promise the outcomes of modules return the
/// same.
pub fn one_list<A>()
    ensures { (n : ℕ) (f : ℕ → A) (xs ys : List A) → Tabulates n f xs → Tabulates n f ys → xs ≡ ys }
{}
