//! The kinds of rules (Bazel, "rule"): the name of a rule is that of the first global of its own module that holds it.

ghost use Rattle.std.specs.Prelude.{◌≡◌, option_copied, IfOk, OnOk};
ghost use Rattle.bq_value_content.specs.Kinds.{kind_at, is_rule, rule_number, with_kind, kinds_of};

use crate::content::{Body, Content};
use bq_base::Bytes;
use bq_value_datum::{Node, Value};
use indexmap::IndexMap;
use std::alloc::{AllocError, Global};
use std::marker::Model;

/// The names of rules by the numbers of their cells. Contracts see the list of them, each name after its number.
pub struct Kinds {
    names: IndexMap<usize, Bytes>,
}

impl Drop for Kinds {
    // PROOF: a drop that is written out is proved here alone, and a derived one in each crate that drops kinds
    fn drop(self) {
        let Kinds { names: _ } = self;
    }
}

impl Model for Kinds {
    ghost use Rattle.bq_value_content.specs.Kinds.{Kinds as KindsView, coded_kinds};

    ghost Value = { KindsView };

    ghost coded = { coded_kinds };

    ghost view = { λ k. k.names.entries };
}

impl Kinds {
    /// Returns the kind of the rule in the cell of this number.
    pub fn get(&self, number: usize) -> Option<&Bytes>
        ensures { option_copied result ≡ kind_at number self.now }
    {
        self.names.get(&number)
    }

    /// Names the rule of this number, if it has no name yet.
    #[tactic(auto, unfolding(crate::specs::Kinds::with_kind))]
    fn add(&mut self, number: Option<usize>, name: &Bytes) -> Result<(), AllocError>
        ensures { OnOk result (self.new ≡ with_kind self.old number name.now) }
    {
        match number {
            None => Ok(()),
            Some(number) => {
                if self.names.contains_key(&number) {
                    return Ok(());
                }
                self.names.insert(number, name.share()?)?;
                Ok(())
            }
        }
    }
}

fn is_rule(content: Option<&Content>) -> bool
    ensures { result ≡ is_rule (option_copied content.entry) }
{
    match content {
        None => false,
        Some(content) => match content.body() {
            Body::List(_) => false,
            Body::Dict(_) => false,
            Body::Rule(_) => true,
        },
    }
}

/// Returns the number of the cell that `value` is, if that is one of these cells of module `own`, and holds a rule.
#[tactic(auto, unfolding(crate::specs::Kinds::rule_number))]
fn rule_number(own: u32, cells: &[Content], value: &Value) -> Option<usize>
    ensures { result ≡ rule_number own cells.now value.now }
{
    match &value.node {
        Node::Cell(cell) => {
            if cell.module == own && is_rule(cells.get(cell.number)) {
                return Some(cell.number);
            }
            None
        }
        _ => None,
    }
}

/// Returns the kinds of the rules of a module with these cells and these globals.
#[tactic(auto, unfolding(crate::specs::Kinds::kinds_of))]
pub fn kinds_of(
    alloc: Global,
    own: u32,
    cells: &[Content],
    names: &[Bytes],
    values: &[Value],
) -> Result<Kinds, AllocError>
    ensures { IfOk result (λ k. k ≡ kinds_of own cells.now names.now values.now) }
{
    let mut kinds = Kinds {
        names: IndexMap::new(alloc),
    };
    for (i, name) in names.iter().enumerate() {
        if i >= values.len() {
            return Ok(kinds);
        }
        kinds.add(rule_number(own, cells, &values[i]), name)?;
    }
    Ok(kinds)
}
