//! The types of attributes (Bazel, "attr"), and their names.

ghost use Rattle.std.specs.Prelude.{◌≡◌, bytes_eq};
ghost use Rattle.std.specs.List.{find};
ghost use Rattle.bq_predeclared.specs.AttributeType.{type_name, has_function, type_named};

/// What an attribute takes.
#[derive(Clone, Copy, Debug, PartialEq, Eq)]
pub enum AttributeType {
    String,
    Int,
    Bool,
    StringList,
    Label,
    LabelList,
    /// The name of a file that the rule makes.
    Output,
    OutputList,
}

/// The types.
const TYPES: [AttributeType; 8] = [
    AttributeType::String,
    AttributeType::Int,
    AttributeType::Bool,
    AttributeType::StringList,
    AttributeType::Label,
    AttributeType::LabelList,
    AttributeType::Output,
    AttributeType::OutputList,
];

impl AttributeType {
    /// Returns its name, in a schema and after `attr.`.
    pub fn name(self) -> &'static [u8]
        ensures { result.now ≡ type_name self }
    {
        match self {
            AttributeType::String => b"string",
            AttributeType::Int => b"int",
            AttributeType::Bool => b"bool",
            AttributeType::StringList => b"string_list",
            AttributeType::Label => b"label",
            AttributeType::LabelList => b"label_list",
            AttributeType::Output => b"output",
            AttributeType::OutputList => b"output_list",
        }
    }

    /// Returns whether `attr.NAME` declares attributes of the type; the files that a rule makes are declared in a schema alone.
    pub fn has_function(self) -> bool
        ensures { result ≡ has_function self }
    {
        match self {
            AttributeType::Output => false,
            AttributeType::OutputList => false,
            _ => true,
        }
    }
}

/// Returns the first of these types that has the name.
fn type_among(mut types: &[AttributeType], name: &[u8]) -> Option<AttributeType>
    ensures { result ≡ find (λ k. bytes_eq name.now (type_name k)) types.entry.now }
{
    while let [kind, rest @ ..] = types {
        if name == kind.name() {
            return Some(*kind);
        }
        types = rest;
    }
    None
}

/// Returns the type of this name.
#[tactic(auto, unfolding(crate::specs::AttributeType::type_named))]
pub fn type_named(name: &[u8]) -> Option<AttributeType>
    ensures { result ≡ type_named name.now }
{
    type_among(&TYPES, name)
}
