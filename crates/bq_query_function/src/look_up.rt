//! Functions by their names.

ghost use Rattle.std.specs.Prelude.{◌≡◌, map, bytes_eq, option_map};
ghost use Rattle.std.specs.List.{list_any};
ghost use Rattle.bq_query_function.specs.Calls.{function_named, is_left_out, row_of};

use crate::functions::{FUNCTIONS, LEFT_OUT};
use crate::signature::QuerySignature;

fn is_among(mut table: &[&[u8]], name: &[u8]) -> bool
    ensures { result ≡ list_any (bytes_eq name.now) (map (λ k. k.now) table.entry.now) }
{
    while let [entry, rest @ ..] = table {
        if name == *entry {
            return true;
        }
        table = rest;
    }
    false
}

/// Returns the function of this name, if it is known and not left out.
pub fn function_named(name: &[u8]) -> Option<QuerySignature>
    ensures { option_map row_of result ≡ function_named name.now }
{
    let mut table: &[(&[u8], QuerySignature)] = &FUNCTIONS;
    while let [entry, rest @ ..] = table {
        if name == entry.0 {
            return Some(entry.1);
        }
        table = rest;
    }
    None
}

/// Returns whether Bazel has a function of this name that is left out here (Q3); any other unknown name is Q2.
pub fn is_left_out(name: &[u8]) -> bool
    ensures { result ≡ is_left_out name.now }
{
    is_among(&LEFT_OUT, name)
}
