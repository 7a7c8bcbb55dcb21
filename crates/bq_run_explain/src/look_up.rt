//! The look-up by number.

ghost use Rattle.std.specs.Prelude.{◌≡◌, option_map};
ghost use Rattle.bq_run_explain.specs.Numbers.{entry_of, entry_numbered};

use crate::explanation::{Explanation, NumberMeaning};
use crate::faults::{fault_called, text_of};
use crate::queries::in_queries;
use crate::runs::in_runs;

/// Returns the explanation of this number, if there is such a number.
#[tactic(auto, unfolding(crate::specs::Numbers::entry_numbered))]
pub fn explain(number: &[u8]) -> Option<Explanation>
    ensures { option_map entry_of result ≡ entry_numbered number.now }
{
    if let Some(kind) = fault_called(number) {
        return Some(Explanation {
            subject: NumberMeaning::Fault(kind),
            text: text_of(kind),
        });
    }
    let error = in_queries(number);
    match error {
        Some(_) => error,
        None => in_runs(number),
    }
}
