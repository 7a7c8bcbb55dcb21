//! The rules that the lines of a schema have declared so far, and what a further line adds to them.

ghost use Rattle.std.specs.Prelude.{◌≡◌, IfOk};
ghost use Rattle.bq_package_schema.specs.Schema.{no_rules, with_rule, with_attribute_of_last, after};
ghost use Rattle.bq_package_schema.specs.Draft.{classes_of};

use crate::line::Line;
use crate::schema::Schema;
use bq_base::Bytes;
use bq_base_texts::NameSet;
use bq_value_datum::{Attribute, Attributes, RuleClass};
use sqlite_items::Items;
use std::alloc::{AllocError, Global};
use std::marker::Model;
use std::sync::Arc;

/// The classes of the rules so far.
#[derive(Drop)]
pub struct Classes {
    /// The classes of the rules before the last.
    pub before: Items<RuleClass>,
    /// The attributes of the last rule, to which lines may add.
    pub last: Attributes,
}

/// The rules so far. Contracts see what they see of a schema.
#[derive(Drop)]
pub struct SchemaDraft {
    names: NameSet,
    /// `None` while there is no rule.
    classes: Option<Classes>,
}

impl Model for SchemaDraft {
    ghost use Rattle.bq_package_schema.specs.Schema.{Rules};
    ghost use Rattle.bq_package_schema.specs.Draft.{classes_of};

    ghost Value = { Rules };

    ghost view = { λ d. record { names = d.names; classes = classes_of d.classes } };
}

/// Returns the classes, each of which is shared from now on.
fn shared(alloc: Global, classes: Option<Classes>) -> Result<Items<RuleClass>, AllocError>
    ensures { IfOk result (λ all. all ≡ classes_of classes) }
{
    let Some(classes) = classes else {
        return Ok(Items::new(alloc));
    };
    let Classes { before, last } = classes;
    let mut all = before;
    all.push(RuleClass::of(alloc, last)?)?;
    Ok(all)
}

impl SchemaDraft {
    pub fn empty(alloc: Global) -> SchemaDraft
        ensures { result ≡ no_rules }
    {
        SchemaDraft {
            names: NameSet::new(alloc),
            classes: None,
        }
    }

    /// Returns the schema that declares these rules.
    pub fn finish(self, alloc: Global) -> Result<Schema, AllocError>
        ensures { IfOk result (λ s. s ≡ self) }
    {
        let SchemaDraft { names, classes } = self;
        Ok(Schema {
            names: Arc::new(alloc, names)?,
            classes: shared(alloc, classes)?,
        })
    }

    /// Adds a rule without attributes; `None` if one has the name.
    #[tactic(auto, unfolding(crate::specs::Schema::with_rule))]
    fn with_rule(self, alloc: Global, name: Bytes) -> Result<Option<SchemaDraft>, AllocError>
        ensures { IfOk result (λ d. d ≡ with_rule self name) }
    {
        let SchemaDraft { mut names, classes } = self;
        if !names.add(&name)? {
            return Ok(None);
        }
        let classes = Classes {
            before: shared(alloc, classes)?,
            last: Attributes::new(alloc),
        };
        Ok(Some(SchemaDraft {
            names,
            classes: Some(classes),
        }))
    }

    /// Adds an attribute to the last rule; `None` if there is no rule, or it has one of the name.
    #[tactic(auto, using(crate::proofs::Lasts::no_last, crate::proofs::Lasts::none_more, crate::proofs::Lasts::one_more))]
    fn with_attribute(
        self,
        alloc: Global,
        name: Bytes,
        attribute: Attribute,
    ) -> Result<Option<SchemaDraft>, AllocError>
        ensures { IfOk result (λ d. d ≡ with_attribute_of_last self name attribute) }
    {
        let SchemaDraft { names, classes } = self;
        let Some(classes) = classes else {
            drop(attribute);
            return Ok(None);
        };
        let Classes { before, last } = classes;
        match last.with(alloc, name.as_slice(), attribute)? {
            None => Ok(None),
            Some(last) => Ok(Some(SchemaDraft {
                names,
                classes: Some(Classes { before, last }),
            })),
        }
    }

    /// Adds what a line declares; `None` if the line is a bad one.
    #[tactic(auto, unfolding(crate::specs::Schema::after))]
    pub fn after(self, alloc: Global, line: Line) -> Result<Option<SchemaDraft>, AllocError>
        ensures { IfOk result (λ d. d ≡ after self line) }
    {
        match line {
            Line::Skipped => Ok(Some(self)),
            Line::Rule(name) => self.with_rule(alloc, name),
            Line::Attribute(name, attribute) => self.with_attribute(alloc, name, attribute),
            Line::Other => {
                drop(self);
                Ok(None)
            }
        }
    }
}
