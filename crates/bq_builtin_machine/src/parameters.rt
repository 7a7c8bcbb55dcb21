//! The parameters of functions and of built-in functions (Starlark, "Function definitions").

ghost use Rattle.std.specs.Prelude.{◌≡◌, map, IfOk};
ghost use Rattle.std.specs.List.{position_from};
ghost use Rattle.bq_builtin_machine.specs.Parameters.{is_called, parameter_of, HasPlaces};

use std::alloc::{AllocError, Global};
use std::collections::BTreeMap;

/// A parameter that takes one argument.
#[derive(Clone, Copy)]
pub struct SingleParameter<'a> {
    /// `None` for a parameter that only a positional argument can reach.
    pub name: Option<&'a [u8]>,
    /// Whether it has no default.
    pub is_required: bool,
}

/// The parameters of a function.
#[derive(Clone, Copy)]
pub struct Signature<'a> {
    pub parameters: &'a [SingleParameter<'a>],
    /// How many of the first parameters take positional arguments too. The others take named ones alone.
    pub placed: usize,
    /// Whether there is a `*`, which takes the positional arguments that are left.
    pub takes_rest: bool,
    /// Whether there is a `**`, which takes the named arguments that are left.
    pub takes_keywords: bool,
}

/// Returns the place of the first parameter of this name.
pub(crate) fn parameter_called(parameters: &[SingleParameter<'_>], name: &[u8]) -> Option<usize>
    ensures { result ≡ position_from (is_called name.now) 0 (map parameter_of parameters.now) }
{
    for (i, parameter) in parameters.iter().enumerate() {
        if let Some(other) = parameter.name {
            if name == other {
                return Some(i);
            }
        }
    }
    None
}

/// Returns the places of parameters by their names; of two with one name, the first's. It is a tree, and not a hash
/// table, since strangers choose the names.
#[tactic(auto, using(crate::proofs::Places::none_after, crate::proofs::Places::unnamed_before, crate::proofs::Places::named_before))]
pub(crate) fn places_by_name<'a>(
    alloc: Global,
    parameters: &[SingleParameter<'a>],
) -> Result<BTreeMap<&'a [u8], usize>, AllocError>
    ensures { IfOk result (λ places. HasPlaces 0 (map parameter_of parameters.now) places) }
{
    let mut places = BTreeMap::new(alloc);
    for i in (0..parameters.len()).rev() {
        let Some(name) = parameters[i].name else {
            continue;
        };
        places.insert(name, i)?;
    }
    Ok(places)
}
