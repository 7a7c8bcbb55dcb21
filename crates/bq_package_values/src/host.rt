//! What carries out build functions and rules.

ghost use Rattle.std.specs.Prelude.{◌≡◌};
ghost use Rattle.bq_base.specs.Gives.{Gives};
ghost use Rattle.bq_value.specs.declared.error.EvalErr.TheVariants.{Bad};
ghost use Rattle.bq_builtin_machine.specs.Action.{HostDoes};
ghost use Rattle.bq_package_values.specs.Host.{HostCalls, KeepsIfRefused};

use crate::written::Written;
use bq_base::Bytes;
use bq_builtin_machine::{Args, Machine};
use bq_predeclared::HostFunction;
use bq_value::{EvalErr, Value};
use bq_value_datum::{AttributeValue, RuleClass};
use std::alloc::Global;

/// Carries out the functions of a host, and the calls of rules that .bzl files declare.
pub trait Host {
    /// What it keeps, as contracts see it.
    ghost Kept: { Type 0 };

    ghost seen: { Self → Kept };

    /// What calls mean.
    ghost means: { HostCalls Kept };

    /// Returns whether a BUILD file is evaluated.
    fn in_build(&self) -> bool
        ensures { result ≡ means.in_build (seen self.now) };

    /// Returns the value of a default, with its labels read in the package of the module that is evaluated.
    fn read_default(&self, alloc: Global, written: Written) -> Result<AttributeValue, EvalErr>
        ensures { Gives (λ v. v) Bad result (means.read_default (seen self.now) written) };

    /// Calls a build function, or a rule of the schema.
    fn call(
        &mut self,
        alloc: Global,
        function: HostFunction,
        args: Args,
        machine: &mut Machine,
    ) -> Result<Value, EvalErr>
        ensures says { HostDoes (λ v. v) result machine.new (seen self.new) (means.call function args (machine.old, seen self.old)) }
        ensures keeps { KeepsIfRefused result (seen self.old) (seen self.new) };

    /// Calls a rule that a .bzl file declares, by its kind and its attributes.
    fn call_rule(
        &mut self,
        alloc: Global,
        kind: &Bytes,
        class: &RuleClass,
        args: Args,
        machine: &mut Machine,
    ) -> Result<Value, EvalErr>
        ensures says { HostDoes (λ v. v) result machine.new (seen self.new) (means.call_rule kind.now class.now args (machine.old, seen self.old)) }
        ensures keeps { KeepsIfRefused result (seen self.old) (seen self.new) };
}
