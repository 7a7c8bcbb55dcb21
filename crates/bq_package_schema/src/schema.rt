//! The rules that a schema declares.

ghost use Rattle.std.specs.Prelude.{◌≡◌, position, slice_get, option_copied, bytes_eq, IfOk};

use bq_base::Bytes;
use bq_base_texts::NameSet;
use bq_value_datum::RuleClass;
use sqlite_items::Items;
use std::alloc::AllocError;
use std::marker::Model;
use std::sync::Arc;

/// Rules with their typed attributes. Contracts see the names of the rules in the order in which they are declared, and the
/// attributes of each in the same order.
pub struct Schema {
    pub(crate) names: Arc<NameSet>,
    pub(crate) classes: Items<RuleClass>,
}

impl Drop for Schema {
    // PROOF: a drop that is written out is proved here alone, and a derived one in each crate that drops a schema
    fn drop(self) {
        let Schema {
            names: _,
            classes: _,
        } = self;
    }
}

impl Model for Schema {
    ghost use Rattle.bq_package_schema.specs.Schema.{Rules};

    ghost Value = { Rules };

    ghost view = { λ s. record { names = s.names.value; classes = s.classes } };
}

/// Returns the names of the rules, in the order in which they are declared.
pub fn rule_names(schema: &Schema) -> &[Bytes]
    ensures { result.now ≡ schema.now.names }
{
    schema.names.as_slice()
}

impl Schema {
    /// Returns another owner of the names of the rules, in the order in which they are declared. No name is copied.
    pub fn shared_names(&self) -> Result<Arc<NameSet>, AllocError>
        ensures { IfOk result (λ names. names.value ≡ self.now.names) }
    {
        Ok(self.names.clone()?)
    }

    /// Returns the number of the rule of this name: its place in the order of declaration.
    pub fn rule(&self, name: &[u8]) -> Option<usize>
        ensures { result ≡ position (bytes_eq name.now) self.now.names }
    {
        self.names.place(name)
    }

    /// Returns the attributes that the rule of this number has of its own.
    pub fn class(&self, rule: usize) -> Option<&RuleClass>
        ensures { option_copied result ≡ slice_get self.now.classes rule }
    {
        self.classes.get(rule)
    }
}
