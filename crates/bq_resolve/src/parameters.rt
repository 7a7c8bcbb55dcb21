//! The parameters of a function, and their defaults.

ghost use Rattle.bq_base.specs.Gives.{Gives};
ghost use Rattle.bq_base.specs.declared.fault.SourceErr.TheVariants.{Bad};
ghost use Rattle.bq_resolve_scope.specs.Statements as spec;
ghost use Rattle.bq_resolve.specs.Walks.{Walks};
ghost use Rattle.bq_resolve.specs.Parameters.{slotted};

use crate::identifier::fault_of;
use crate::scope::Scope;
use crate::statement_parts::expr;
use crate::walk::Walk;
use bq_base::{NameFault, SourceErr};
use bq_parse_grammar::{Expr, Identifier, Items as Trees, Parameter, Referent};
use bq_resolve_scope::{FileNames, Formal, Names};
use sqlite_items::Items;
use std::alloc::Global;
use std::marker::Model;

/// The parameters so far. Contracts see their names, what they resolve to, and their defaults.
#[derive(Drop)]
pub struct ParameterList {
    pub names: Names,
    pub parameters: Items<Formal>,
    pub defaults: Items<Expr>,
}

impl Model for ParameterList {
    ghost use Rattle.bq_resolve_scope.specs.Statements.{ParameterParts};
    ghost use Rattle.bq_parse_grammar.specs.contracts.tree.Expr as tree;
    ghost use Rattle.std.specs.Coded.{codes};

    ghost Value = { ParameterParts };

    ghost coded = { Prim.hlevel (codes, tree.the_row.coded) };

    ghost view = { λ p. record { names = p.names; parameters = p.parameters; defaults = p.defaults } };
}

impl ParameterList {
    /// Gives a parameter's name the next slot. No other has the name: else F24.
    #[tactic(auto, unfolding(bq_resolve_scope::specs::Names::with_name))]
    fn slotted(&mut self, name: Identifier) -> Result<Identifier, SourceErr<NameFault>>
        ensures { Gives (λ n. (n, self.new)) Bad result (slotted self.old name) }
    {
        if self.names.has(&name.name) {
            return Err(SourceErr::Bad(fault_of(NameFault::DoubleParameter, &name)?));
        }
        let slot = self.names.len();
        self.names.add(&name.name)?;
        let mut name = name;
        name.referent = Referent::Local(slot);
        Ok(name)
    }

    /// Adds a parameter. Its default lies outside the function.
    #[tactic(auto, unfolding(bq_resolve_scope::specs::Statements::next_parameter, bq_resolve_scope::specs::Statements::default_parameter, bq_resolve_scope::specs::Statements::named_parameter))]
    fn add(
        &mut self,
        alloc: Global,
        file: &FileNames,
        walk: &mut Walk,
        parameter: Parameter,
    ) -> Result<(), SourceErr<NameFault>>
        ensures { Gives (λ _. (self.new, walk.new)) Bad result (spec.next_parameter file.now self.old parameter walk.old) }
    {
        match parameter {
            Parameter::Plain(name) => {
                let name = self.slotted(name)?;
                self.parameters.push(Formal::Plain(name))?;
                Ok(())
            }
            Parameter::Default(name, default) => {
                let name = self.slotted(name)?;
                self.parameters.push(Formal::Default(name))?;
                let mut default = default;
                expr(&Scope::outside(alloc, file), walk, &mut default)?;
                self.defaults.push(default)?;
                Ok(())
            }
            Parameter::BareStar => {
                self.parameters.push(Formal::BareStar)?;
                Ok(())
            }
            Parameter::Star(name) => {
                let name = self.slotted(name)?;
                self.parameters.push(Formal::Star(name))?;
                Ok(())
            }
            Parameter::StarStar(name) => {
                let name = self.slotted(name)?;
                self.parameters.push(Formal::StarStar(name))?;
                Ok(())
            }
        }
    }
}

/// Resolves the parameters of a function.
#[tactic(auto, unfolding(bq_resolve_scope::specs::Statements::parameters))]
pub fn parameters(
    alloc: Global,
    file: &FileNames,
    walk: &mut Walk,
    parameters: Trees<Parameter>,
) -> Result<ParameterList, SourceErr<NameFault>>
    ensures { Walks (spec.parameters file.now spec.no_parameters parameters walk.old) result walk.new }
{
    let mut list = ParameterList {
        names: Names::new(alloc),
        parameters: Items::new(alloc),
        defaults: Items::new(alloc),
    };
    for parameter in parameters.into_vec() {
        list.add(alloc, file, walk, parameter)?;
    }
    Ok(list)
}
