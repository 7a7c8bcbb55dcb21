//! The values of predeclared names.

ghost use Rattle.std.specs.Prelude.{◌≡◌, IfOk};
ghost use Rattle.bq_package_values.specs.BuiltIns.{predeclared_value};

use bq_base_texts::NameSet;
use bq_predeclared::{HostFunction, Predeclared};
use bq_value::Value;
use std::alloc::AllocError;
use std::marker::Model;
use std::sync::Arc;

/// The built-in functions of a workspace. Contracts see the names of the rules, in their order.
#[derive(Drop)]
pub struct BuiltIns {
    rules: Arc<NameSet>,
}

impl Model for BuiltIns {
    ghost use Rattle.std.specs.Prelude.{List, ℕ};
    ghost use Rattle.std.specs.Coded.{coded_ℕ, coded_list};

    ghost Value = { List (List ℕ) };

    ghost coded = { coded_list (coded_list coded_ℕ) };

    ghost view = { λ b. b.rules.value };
}

impl BuiltIns {
    /// Makes those of a workspace whose schema has these rules. No name is copied.
    pub fn new(rules: Arc<NameSet>) -> BuiltIns
        ensures { result ≡ rules.value }
    {
        BuiltIns { rules }
    }

    /// Returns the value of a predeclared name.
    #[tactic(auto, unfolding(crate::specs::BuiltIns::predeclared_value))]
    pub fn value(&self, name: Predeclared) -> Result<Value, AllocError>
        ensures { IfOk result (λ v. v ≡ predeclared_value self.now name) }
    {
        match name {
            Predeclared::None => Ok(Value::none()),
            Predeclared::True => Ok(Value::bool(true)),
            Predeclared::False => Ok(Value::bool(false)),
            Predeclared::Host(HostFunction::Rule(place)) => {
                match self.rules.as_slice().get(place as usize) {
                    None => Ok(Value::none()),
                    Some(name) => Ok(Value::schema_rule(place, name.share()?)),
                }
            }
            Predeclared::RuleFunction(function) => Ok(Value::rule_function(function)),
            function => match function.name() {
                None => Ok(Value::none()),
                Some(_) => Ok(Value::built_in(function)),
            },
        }
    }
}
