//! Lists and dicts that are being made.

ghost use Rattle.std.specs.Prelude.{◌≡◌};
ghost use Rattle.bq_base.specs.Gives.{Gives};
ghost use Rattle.bq_value.specs.declared.error.EvalErr.TheVariants.{Bad};
ghost use Rattle.bq_eval.specs.Making.{with_element, with_pair, with_new_pair};

use bq_base::EvalFault;
use bq_builtin_strings::MAX_LEN;
use bq_value::{Body, Content, EvalErr, Key, Value};

/// Appends an element to a list (F54).
#[tactic(auto, unfolding(crate::specs::Making::with_element))]
pub(crate) fn with_element(content: &mut Content, value: Value) -> Result<(), EvalErr>
    ensures { Gives (λ _. content.new) Bad result (with_element content.old value) }
{
    match content.change()? {
        Body::List(values) => {
            if values.len() >= MAX_LEN {
                return Err(EvalErr::Bad(EvalFault::TooLong));
            }
            values.push(value)?;
            Ok(())
        }
        _ => Err(EvalErr::Bad(EvalFault::WrongType)),
    }
}

/// Sets the value of a key (F54).
#[tactic(auto, unfolding(crate::specs::Making::with_pair))]
pub(crate) fn with_pair(content: &mut Content, key: Key, value: Value) -> Result<(), EvalErr>
    ensures { Gives (λ _. content.new) Bad result (with_pair content.old key value) }
{
    match content.change()? {
        Body::Dict(dict) => {
            let _before = dict.insert(key, value)?;
            if dict.len() > MAX_LEN {
                return Err(EvalErr::Bad(EvalFault::TooLong));
            }
            Ok(())
        }
        _ => Err(EvalErr::Bad(EvalFault::WrongType)),
    }
}

/// Sets the value of a key that isn't there yet (F46, F54).
#[tactic(auto, unfolding(crate::specs::Making::with_new_pair))]
pub(crate) fn with_new_pair(content: &mut Content, key: Key, value: Value) -> Result<(), EvalErr>
    ensures { Gives (λ _. content.new) Bad result (with_new_pair content.old key value) }
{
    match content.body() {
        Body::Dict(dict) => {
            if dict.get(&key).is_some() {
                return Err(EvalErr::Bad(EvalFault::DoubleKey));
            }
        }
        _ => return Err(EvalErr::Bad(EvalFault::WrongType)),
    }
    with_pair(content, key, value)
}
