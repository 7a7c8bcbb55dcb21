//! The attributes that all rules have.

ghost use Rattle.std.specs.Prelude.{◌≡◌, map, bytes_eq};
ghost use Rattle.std.specs.Map.{lookup};
ghost use Rattle.bq_value_datum.specs.CommonAttributes.{common_attribute};

use bq_predeclared::AttributeType;

/// The attributes that all rules have.
const COMMON_ATTRIBUTES: [(&[u8], AttributeType); 6] = [
    (b"name", AttributeType::String),
    (b"visibility", AttributeType::StringList),
    (b"tags", AttributeType::StringList),
    (b"features", AttributeType::StringList),
    (b"testonly", AttributeType::Bool),
    (b"deprecation", AttributeType::String),
];

/// Returns the type that has this name in a table.
fn find(mut table: &[(&[u8], AttributeType)], name: &[u8]) -> Option<AttributeType>
    ensures { result ≡ lookup (bytes_eq name.now) (map (λ e. (e.0.now, e.1)) table.entry.now) }
{
    while let [entry, rest @ ..] = table {
        if name == entry.0 {
            return Some(entry.1);
        }
        table = rest;
    }
    None
}

/// Returns the type of the attribute of this name that all rules have.
pub fn common_attribute(name: &[u8]) -> Option<AttributeType>
    ensures { result ≡ common_attribute name.now }
{
    find(&COMMON_ATTRIBUTES, name)
}
