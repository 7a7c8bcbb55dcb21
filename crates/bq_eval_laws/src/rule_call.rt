//! What holds of calls of rules. The functions do nothing: their contracts are the laws.

ghost use Rattle.std.specs.Prelude.{◌≡◌, ℕ, List, None, Ok, Err};
ghost use Rattle.bq_base.specs.declared.fault.EvalFault.TheVariants.{NoAttribute};
ghost use Rattle.bq_package_target.specs.Value.{attribute_type};
ghost use Rattle.bq_package_target.specs.declared.target.Target.{Target};
ghost use Rattle.bq_value.specs.Datum.{Datum};
ghost use Rattle.bq_builtin_machine.specs.Args.{Passed};
ghost use Rattle.bq_package_attributes.specs.declared.arguments.Given.{Given};
ghost use Rattle.bq_package_attributes.specs.Arguments.{keyword};
ghost use Rattle.bq_builtin_machine.specs.Refusals.{FailsForFirst};
ghost use Rattle.bq_eval_laws.specs.RuleCalls.CallPlace.{CallPlace, argument_read, target_declared, GivesName, GivesAttribute};
ghost use Rattle.bq_eval_laws.specs.RuleCalls.Given.{EachMandatoryIsGiven};
ghost use Rattle.bq_eval_laws.specs.RuleCalls.Orders.{giving, naming, declaring};

/// An argument that names no attribute of the rule is F71, whatever its value is, also `None`. Any other is refused for its value; and
/// the name for not being a string before it is read as a label.
#[tactic(auto, using(crate::proofs::RuleCalls::Orders::given_in_order, crate::proofs::RuleCalls::Orders::unknown_attribute, crate::proofs::RuleCalls::Orders::named_in_order))]
pub fn arguments_are_refused_in_order()
    ensures attribute { (x : CallPlace) (g : Given) (argument : Datum × Datum) → GivesAttribute argument → FailsForFirst (argument_read x g argument) (giving x argument) }
    ensures unknown { (x : CallPlace) (g : Given) (argument : Datum × Datum) → GivesAttribute argument → attribute_type x.class (keyword argument.0) ≡ None → argument_read x g argument ≡ Err NoAttribute }
    ensures name { (x : CallPlace) (g : Given) (argument : Datum × Datum) → GivesName argument → FailsForFirst (argument_read x g argument) (naming x argument.1) }
{}

/// A call of a rule is refused for the first of the reasons that are listed, and for nothing else: F72 comes after each
/// fault of an argument.
#[tactic(auto, using(crate::proofs::RuleCalls::Orders::declared_in_order))]
pub fn calls_of_rules_are_refused_in_order()
    ensures { (x : CallPlace) (rule : List ℕ) (line : ℕ) (passed : Passed) → FailsForFirst (target_declared x rule line passed) (declaring x passed) }
{}

/// A call that declares a target gives each mandatory attribute: one of its arguments has the name, and a value that
/// isn't `None`. A default of the attribute doesn't change that.
#[tactic(auto, using(crate::proofs::RuleCalls::Given::each_is_given))]
pub fn mandatory_attributes_are_given_by_the_call()
    ensures { (x : CallPlace) (rule : List ℕ) (line : ℕ) (passed : Passed) (t : Target) → target_declared x rule line passed ≡ Ok t → EachMandatoryIsGiven x.class passed.named }
{}
