//! Calls of rules.

ghost use Rattle.std.specs.Prelude.{◌≡◌, IfOk};
ghost use Rattle.bq_base.specs.Gives.{Gives};
ghost use Rattle.bq_value.specs.declared.error.EvalErr.TheVariants.{Bad};
ghost use Rattle.bq_package.specs.Place.{place_of};
ghost use Rattle.bq_package.specs.Rules.{declared_target, rule_target};

use crate::place::Place;
use bq_base::{Bytes, EvalFault};
use bq_builtin_machine::{Args, Machine};
use bq_package_attributes::{Callee, declaration};
use bq_package_schema::rule_names;
use bq_package_target::Target;
use bq_value::EvalErr;
use bq_value_datum::RuleClass;
use std::alloc::Global;

impl<'a> Place<'a> {
    /// Returns the target that a call of a rule declares, by the rule's kind and its class.
    #[tactic(auto, unfolding(crate::specs::Rules::declared_target))]
    pub fn declared_target(
        &self,
        alloc: Global,
        machine: &Machine,
        kind: &Bytes,
        class: &RuleClass,
        args: Args,
    ) -> Result<Target, EvalErr>
        ensures { Gives (λ t. t) Bad result (declared_target (place_of self.now) machine.now.store machine.now.line kind.now class.now args) }
    {
        let callee = Callee {
            scope: self.scope,
            store: machine.store(),
            class,
            kind,
        };
        declaration(alloc, callee, machine.line(), args)
    }

    /// Returns the target that a call of the schema's rule of this number declares.
    #[tactic(auto, unfolding(crate::specs::Rules::rule_target))]
    pub fn rule_target(
        &self,
        alloc: Global,
        machine: &Machine,
        rule: usize,
        args: Args,
    ) -> Result<Target, EvalErr>
        ensures { Gives (λ t. t) Bad result (rule_target (place_of self.now) machine.now.store machine.now.line rule args) }
    {
        let Some(kind) = rule_names(self.schema).get(rule) else {
            return Err(EvalErr::Bad(EvalFault::NotInPackage));
        };
        let Some(class) = self.schema.class(rule) else {
            return Err(EvalErr::Bad(EvalFault::NotInPackage));
        };
        self.declared_target(alloc, machine, kind, class, args)
    }
}
