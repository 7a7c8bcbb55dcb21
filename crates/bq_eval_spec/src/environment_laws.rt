//! What holds of environments. The function does nothing: its contract is the law.

ghost use Rattle.bq_eval_spec.specs.EnvironmentLaws.{BindingIsOfOneName};

/// A name that is bound has its value, and every other name what it had.
pub fn binding_by_name_is_of_one_name()
    ensures { BindingIsOfOneName }
{}
