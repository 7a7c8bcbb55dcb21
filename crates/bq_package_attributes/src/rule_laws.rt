//! What holds of rules that are declared. The functions do nothing: their contracts are the laws.

ghost use Rattle.bq_package_attributes.specs.RuleLaws.{RulesAreRefusedInOrder, ARuleHasTheAttributesOfItsDict, NoRuleIsDeclaredInABuildFile};

/// `rule(..)` is refused for the first of its checks that fails.
pub fn rules_are_refused_in_order()
    ensures { RulesAreRefusedInOrder }
{}

/// A rule has exactly the attributes of its dict, in the dict's order.
pub fn a_rule_has_the_attributes_of_its_dict()
    ensures { ARuleHasTheAttributesOfItsDict }
{}

/// While a BUILD file is evaluated no rule is declared.
pub fn no_rule_is_declared_in_a_build_file()
    ensures { NoRuleIsDeclaredInABuildFile }
{}
