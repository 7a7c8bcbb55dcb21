//! What holds of the meaning. The functions do nothing: their contracts are the laws.

ghost use Rattle.bq_eval_spec.specs.FrameLaws.{BindingIsOfOneName};

/// A name that is bound has its value, and every other name what it had.
pub fn binding_is_of_one_name()
    ensures { BindingIsOfOneName }
{}
