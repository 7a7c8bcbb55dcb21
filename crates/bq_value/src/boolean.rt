//! What counts as true (Starlark, "Booleans").

ghost use Rattle.std.specs.Prelude.{◌≡◌, Some};
ghost use Rattle.bq_value.specs.Truth.{truth_of, content_truth};

use crate::store::Store;
use crate::{Body, Content, Node, Value};

/// Returns whether a value counts as true. It takes neither steps nor memory.
#[tactic(auto, using(bq_value_datum::specs::Datum::list_of_data_of))]
pub fn truth(store: &Store, value: &Value) -> bool
    ensures { result ≡ truth_of store.now value.now }
{
    match &value.node {
        Node::NoneValue => false,
        Node::Bool(b) => *b,
        Node::Int(n) => *n != 0,
        Node::Text(bytes) => bytes.len() > 0,
        Node::Tuple(items) => items.len() > 0,
        Node::Range(range) => range.count() != 0,
        Node::Cell(cell) => match store.content(*cell) {
            None => false,
            Some(content) => is_filled(content),
        },
        Node::Function(_) => true,
        Node::BuiltIn(_) => true,
        Node::SchemaRule(_, _) => true,
        Node::Rule | Node::Attr(_) => true,
        Node::Attribute(_) => true,
    }
}

fn is_filled(content: &Content) -> bool
    ensures { result ≡ content_truth (Some content.now) }
{
    match content.body() {
        Body::List(items) => items.len() > 0,
        Body::Dict(dict) => dict.len() > 0,
        Body::Rule(_) => true,
    }
}
