//! The host of a BUILD file's evaluation.

ghost use Rattle.std.specs.Prelude.{◌≡◌, IfOk};
ghost use Rattle.bq_base.specs.Gives.{Gives};
ghost use Rattle.bq_value.specs.declared.error.EvalErr.TheVariants.{Bad};
ghost use Rattle.bq_label.specs.Label.{package_of};
ghost use Rattle.bq_label.specs.Workspace.{paths_of};
ghost use Rattle.bq_builtin_machine.specs.State.{State};
ghost use Rattle.bq_builtin_machine.specs.Action.{Does, HostDoes};
ghost use Rattle.bq_package_values.specs.Host.{KeepsIfRefused};
ghost use Rattle.bq_package_target.specs.Package.{no_targets};
ghost use Rattle.bq_package_target.specs.Calls.{declared, exported};
ghost use Rattle.bq_package.specs.Place.{place_of};
ghost use Rattle.bq_package.specs.Calls.{HeldPackage, outside, declaring, held_by, package_in, place_in, own_of, packages_of, new_strings, package_name, ignored, call_by, rule_by, is_building, default_value, meaning};
ghost use Rattle.bq_package.specs.Keeping.{answer, package_after, Settles, IsSettled, OwnsTarget, OwnsFiles};

use crate::building::{BuildHost, Building};
use crate::place::Place;
use bq_base::{Bytes, EvalFault};
use bq_builtin_machine::{Args, Machine, Signature, bind};
use bq_label::{Label, PackageId, Packages, Workspace};
use bq_package_schema::Schema;
use bq_package_target::{Declared, KeptValues, PackageState, Target};
use bq_package_values::{Host, PackageScope, Written, typed};
use bq_predeclared::HostFunction;
use bq_value::{EvalErr, Value};
use bq_value_datum::{AttributeValue, RuleClass, Seed};
use std::alloc::{AllocError, Global};
use std::cell::Cell;

/// `()`
const NO_PARAMETERS: Signature<'static> = Signature {
    parameters: &[],
    placed: 0,
    takes_rest: false,
    takes_keywords: false,
};

/// `(*args, **kwargs)`
const ANY_PARAMETERS: Signature<'static> = Signature {
    parameters: &[],
    placed: 0,
    takes_rest: true,
    takes_keywords: true,
};

/// Makes a list of strings.
#[tactic(auto, unfolding(crate::specs::Calls::new_strings))]
fn new_strings(alloc: Global, machine: &mut Machine, texts: Vec<Bytes>) -> Result<Value, EvalErr>
    ensures { Does (λ v. v) result machine.new (new_strings texts.items machine.old) }
{
    let mut values = Vec::with_capacity(alloc, texts.len())?;
    for text in texts {
        values.push(Value::string(text))?;
    }
    machine.new_list(values)
}

/// Returns the result of `package_name`.
#[tactic(auto, unfolding(crate::specs::Calls::package_name))]
fn package_name(alloc: Global, place: Place<'_>, args: Args) -> Result<Value, EvalErr>
    ensures { Gives (λ v. v) Bad result (package_name (place_of place.entry) args) }
{
    let _none = bind(alloc, Seed::fixed(), &NO_PARAMETERS, args)?;
    let name = place.scope.own.package().share()?;
    Ok(Value::string(name))
}

/// Returns the result of a call that takes any arguments and has no effect.
#[tactic(auto, unfolding(crate::specs::Calls::ignored))]
fn ignored(alloc: Global, seed: Seed, args: Args) -> Result<Value, EvalErr>
    ensures { Gives (λ v. v) Bad result (ignored args) }
{
    let _any = bind(alloc, seed, &ANY_PARAMETERS, args)?;
    Ok(Value::none())
}

impl<'a> BuildHost<'a> {
    /// Makes the host of a file of this package that is no BUILD file: every call is F70.
    pub fn outside(
        alloc: Global,
        own: &'a PackageId,
        packages: &'a Packages,
    ) -> Result<BuildHost<'a>, AllocError>
        ensures { IfOk result (λ h. held_by h ≡ outside own.now packages.now) }
    {
        Ok(BuildHost {
            scope: PackageScope::new(alloc, own, packages)?,
            building: None,
            defaults: Cell::new(KeptValues::new(alloc)),
        })
    }

    /// Makes the host of the BUILD file of this label.
    pub fn inside(
        alloc: Global,
        workspace: &'a Workspace,
        packages: &'a Packages,
        schema: &'a Schema,
        own: &'a PackageId,
        build_file: Label,
    ) -> Result<BuildHost<'a>, AllocError>
        requires { package_of build_file ≡ own.now }
        ensures { IfOk result (λ h. held_by h ≡ declaring (record { place = record { own = own.now; paths = paths_of workspace.now; packages = packages.now; rules = schema.now }; «package» = no_targets build_file })) }
    {
        let scope = PackageScope::new(alloc, own, packages)?;
        Ok(BuildHost {
            scope,
            building: Some(Building {
                place: Place {
                    workspace,
                    scope,
                    schema,
                },
                package: PackageState::new(alloc, build_file),
            }),
            defaults: Cell::new(KeptValues::new(alloc)),
        })
    }

    /// Returns what the accepted calls have declared, if a BUILD file is evaluated.
    pub fn into_package(self) -> Option<PackageState>
        ensures { result ≡ package_in (held_by self.entry) }
    {
        let BuildHost { building, .. } = self;
        match building {
            None => None,
            Some(Building { place: _, package }) => Some(package),
        }
    }

    /// Returns where the BUILD file is evaluated, or F70.
    fn place(&self) -> Result<Place<'a>, EvalErr>
        ensures { Gives place_of Bad result (place_in (held_by self.now)) }
    {
        match &self.building {
            None => Err(EvalErr::Bad(EvalFault::NotInPackage)),
            Some(building) => Ok(building.place),
        }
    }

    /// Returns the package of the file that is evaluated, among the others.
    fn scope(&self) -> PackageScope<'a>
        ensures own { result.own.now ≡ own_of (held_by self.now) }
        ensures packages { result.packages.now ≡ packages_of (held_by self.now) }
    {
        match &self.building {
            None => self.scope,
            Some(building) => building.place.scope,
        }
    }

    /// Returns a default or, if it is long, a share of an equal one that was read before.
    fn kept_default(
        &self,
        alloc: Global,
        value: AttributeValue,
    ) -> Result<AttributeValue, AllocError>
        ensures { IfOk result (λ v. v ≡ value) }
    {
        let mut kept = self.defaults.replace(KeptValues::new(alloc));
        let value = kept.share_if_long(value);
        self.defaults.set(kept);
        value
    }

    /// Keeps the package that a call leaves. A refused call is F74.
    fn settle(&mut self, place: Place<'a>, declared: Declared) -> Result<Value, EvalErr>
        requires { package_of (package_after declared).build_file ≡ place.scope.own.now }
        ensures { Settles result (held_by self.new) (place_of place.entry) declared }
    {
        match declared {
            Declared::Accepted(package) => {
                self.building = Some(Building { place, package });
                Ok(Value::none())
            }
            Declared::Refused(package) => {
                self.building = Some(Building { place, package });
                Err(EvalErr::Bad(EvalFault::DoubleTarget))
            }
        }
    }

    /// Declares a target, and the files that the rule makes.
    #[tactic(auto, using(crate::proofs::Owning::declared_in, crate::proofs::Owning::target_here, crate::proofs::Settling::declare_settles, crate::proofs::Settling::memory_settles, crate::proofs::Settling::none_settles))]
    fn declare(&mut self, alloc: Global, target: Target) -> Result<Value, EvalErr>
        requires { OwnsTarget (held_by self.old) target }
        ensures { IsSettled result (held_by self.old) (held_by self.new) (λ p. declared p target) }
    {
        let Some(building) = self.building.take() else {
            return Err(EvalErr::Bad(EvalFault::NotInPackage));
        };
        let Building { place, package } = building;
        let declared = package.declare(alloc, target)?;
        self.settle(place, declared)
    }

    /// Declares source files.
    #[tactic(auto, using(crate::proofs::Owning::exported_in, crate::proofs::Owning::files_here, crate::proofs::Settling::export_settles, crate::proofs::Settling::memory_settles, crate::proofs::Settling::none_settles))]
    fn export(&mut self, alloc: Global, labels: &[Label], line: u32) -> Result<Value, EvalErr>
        requires { OwnsFiles (held_by self.old) labels.now }
        ensures { IsSettled result (held_by self.old) (held_by self.new) (λ p. exported p labels.now line) }
    {
        let Some(building) = self.building.take() else {
            return Err(EvalErr::Bad(EvalFault::NotInPackage));
        };
        let Building { place, package } = building;
        let declared = package.export(alloc, labels, line)?;
        self.settle(place, declared)
    }

    /// Calls `glob`.
    #[tactic(auto, using(crate::proofs::Meaning::refused_outside, crate::proofs::Meaning::glob_refused, crate::proofs::Meaning::glob_done))]
    fn glob(&self, alloc: Global, args: Args, machine: &mut Machine) -> Result<Value, EvalErr>
        ensures { HostDoes (λ v. v) result machine.new (held_by self.now) (call_by machine.old (held_by self.now) HostFunction.Glob args) }
    {
        let place = self.place()?;
        let names = place.globbed(alloc, machine.store(), args)?;
        new_strings(alloc, machine, names)
    }

    /// Calls `exports_files`.
    #[tactic(auto, using(crate::proofs::Meaning::refused_outside, crate::proofs::Meaning::files_refused, crate::proofs::Meaning::files_done, crate::proofs::Owning::files_owned))]
    fn exports_files(
        &mut self,
        alloc: Global,
        args: Args,
        machine: &Machine,
    ) -> Result<Value, EvalErr>
        ensures says { HostDoes (λ v. v) result machine.now (held_by self.new) (call_by machine.now (held_by self.old) HostFunction.ExportsFiles args) }
        ensures keeps { KeepsIfRefused result (held_by self.old) (held_by self.new) }
    {
        let place = self.place()?;
        let labels = place.files_named(alloc, machine.store(), args)?;
        self.export(alloc, labels.as_slice(), machine.line())
    }

    /// Calls `package_group`.
    #[tactic(auto, using(crate::proofs::Meaning::refused_outside, crate::proofs::Meaning::group_refused, crate::proofs::Meaning::group_done, crate::proofs::Owning::group_owned))]
    fn package_group(
        &mut self,
        alloc: Global,
        args: Args,
        machine: &Machine,
    ) -> Result<Value, EvalErr>
        ensures says { HostDoes (λ v. v) result machine.now (held_by self.new) (call_by machine.now (held_by self.old) HostFunction.PackageGroup args) }
        ensures keeps { KeepsIfRefused result (held_by self.old) (held_by self.new) }
    {
        let place = self.place()?;
        let target = place.group_named(alloc, machine.store(), machine.line(), args)?;
        self.declare(alloc, target)
    }

    /// Calls the schema's rule of this number.
    #[tactic(auto, using(crate::proofs::Meaning::refused_outside, crate::proofs::Meaning::rule_refused, crate::proofs::Meaning::rule_done, crate::proofs::Owning::rule_owned))]
    fn rule(
        &mut self,
        alloc: Global,
        rule: u32,
        args: Args,
        machine: &Machine,
    ) -> Result<Value, EvalErr>
        ensures says { HostDoes (λ v. v) result machine.now (held_by self.new) (call_by machine.now (held_by self.old) (HostFunction.Rule rule) args) }
        ensures keeps { KeepsIfRefused result (held_by self.old) (held_by self.new) }
    {
        let place = self.place()?;
        let target = place.rule_target(alloc, machine, rule as usize, args)?;
        self.declare(alloc, target)
    }

    /// Calls a rule that a .bzl file declares, by its kind and its class.
    #[tactic(auto, using(crate::proofs::Meaning::rule_outside, crate::proofs::Meaning::declared_refused, crate::proofs::Meaning::declared_done, crate::proofs::Owning::declared_owned))]
    fn declared_rule(
        &mut self,
        alloc: Global,
        kind: &Bytes,
        class: &RuleClass,
        args: Args,
        machine: &Machine,
    ) -> Result<Value, EvalErr>
        ensures says { HostDoes (λ v. v) result machine.now (held_by self.new) (rule_by machine.now (held_by self.old) kind.now class.now args) }
        ensures keeps { KeepsIfRefused result (held_by self.old) (held_by self.new) }
    {
        let place = self.place()?;
        let target = place.declared_target(alloc, machine, kind, class, args)?;
        self.declare(alloc, target)
    }

    /// Calls `package_name`.
    #[tactic(auto, using(crate::proofs::Meaning::refused_outside, crate::proofs::Meaning::name_done))]
    fn name(&self, alloc: Global, args: Args) -> Result<Value, EvalErr>
        ensures { (s : State) → HostDoes (λ v. v) result s (held_by self.now) (call_by s (held_by self.now) HostFunction.PackageName args) }
    {
        let place = self.place()?;
        package_name(alloc, place, args)
    }

    /// Carries out a call that takes any arguments and has no effect.
    #[tactic(auto, using(crate::proofs::Meaning::refused_outside, crate::proofs::Meaning::package_done, crate::proofs::Meaning::licenses_done))]
    fn nothing(&self, alloc: Global, seed: Seed, args: Args) -> Result<Value, EvalErr>
        ensures as_package { (s : State) → HostDoes (λ v. v) result s (held_by self.now) (call_by s (held_by self.now) HostFunction.Package args) }
        ensures as_licenses { (s : State) → HostDoes (λ v. v) result s (held_by self.now) (call_by s (held_by self.now) HostFunction.Licenses args) }
    {
        let _place = self.place()?;
        ignored(alloc, seed, args)
    }
}

impl<'a> Host for BuildHost<'a> {
    ghost Kept = { HeldPackage };

    ghost seen = { held_by };

    ghost means = { meaning };

    fn in_build(&self) -> bool {
        match &self.building {
            None => false,
            Some(_) => true,
        }
    }

    #[tactic(auto, unfolding(crate::specs::Calls::default_value))]
    fn read_default(&self, alloc: Global, written: Written) -> Result<AttributeValue, EvalErr> {
        let value = typed(alloc, self.scope(), written)?;
        Ok(self.kept_default(alloc, value)?)
    }

    #[tactic(auto, using(crate::proofs::Settling::keeps_same), unfolding(crate::specs::Calls::call_of))]
    fn call(
        &mut self,
        alloc: Global,
        function: HostFunction,
        args: Args,
        machine: &mut Machine,
    ) -> Result<Value, EvalErr> {
        match function {
            HostFunction::Glob => self.glob(alloc, args, machine),
            HostFunction::PackageName => self.name(alloc, args),
            HostFunction::Package => self.nothing(alloc, machine.store().seed(), args),
            HostFunction::Licenses => self.nothing(alloc, machine.store().seed(), args),
            HostFunction::ExportsFiles => self.exports_files(alloc, args, machine),
            HostFunction::PackageGroup => self.package_group(alloc, args, machine),
            HostFunction::Rule(rule) => self.rule(alloc, rule, args, machine),
        }
    }

    #[tactic(auto, unfolding(crate::specs::Calls::rule_call))]
    fn call_rule(
        &mut self,
        alloc: Global,
        kind: &Bytes,
        class: &RuleClass,
        args: Args,
        machine: &mut Machine,
    ) -> Result<Value, EvalErr> {
        self.declared_rule(alloc, kind, class, args, machine)
    }
}
