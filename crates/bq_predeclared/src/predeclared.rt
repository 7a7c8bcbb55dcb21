//! The predeclared names (Starlark specification, "Built-in constants and functions"; Bazel, Build Encyclopedia, "Functions").

ghost use Rattle.std.specs.Prelude.{◌≡◌, option_copied};
ghost use Rattle.bq_predeclared.specs.Predeclared.{built_in_names, place_from, first_named, predeclared_named, name_of};

use crate::host_function::HostFunction;
use crate::rule_function::RuleFunction;

/// What a predeclared name stands for.
#[derive(Clone, Copy, Debug, PartialEq, Eq)]
pub enum Predeclared {
    // Constants.
    None,
    True,
    False,
    /// A built-in function of the language, by the place of its name in the table.
    BuiltIn(u32),
    /// A build function or a rule of the schema.
    Host(HostFunction),
    /// A function that declares rules. It is in no table of names: a .bzl file has `rule` and `attr.NAME`, for the resolver to find.
    RuleFunction(RuleFunction),
}

/// The names of the built-in functions of the language. A new one comes last, so that the others keep their places.
const BUILT_IN_NAMES: [&[u8]; 21] = [
    b"all",
    b"any",
    b"bool",
    b"dict",
    b"enumerate",
    b"fail",
    b"int",
    b"len",
    b"list",
    b"max",
    b"min",
    b"print",
    b"range",
    b"repr",
    b"reversed",
    b"select",
    b"sorted",
    b"str",
    b"tuple",
    b"type",
    b"zip",
];

/// The constants and the build functions.
const OTHERS: [Predeclared; 9] = [
    Predeclared::None,
    Predeclared::True,
    Predeclared::False,
    Predeclared::Host(HostFunction::Glob),
    Predeclared::Host(HostFunction::PackageName),
    Predeclared::Host(HostFunction::Package),
    Predeclared::Host(HostFunction::Licenses),
    Predeclared::Host(HostFunction::ExportsFiles),
    Predeclared::Host(HostFunction::PackageGroup),
];

impl Predeclared {
    /// Returns the name that it is looked up by: `None` for a rule, whose name is the schema's, and for a function that declares rules,
    /// since `int` is not `attr.int`, and a schema may name a rule `rule`.
    pub fn name(self) -> Option<&'static [u8]>
        ensures { option_copied result ≡ name_of self }
    {
        match self {
            Predeclared::None => Some(b"None"),
            Predeclared::True => Some(b"True"),
            Predeclared::False => Some(b"False"),
            Predeclared::BuiltIn(place) => BUILT_IN_NAMES.get(place as usize).copied(),
            Predeclared::Host(function) => function.name(),
            Predeclared::RuleFunction(_) => None,
        }
    }
}

/// Returns the place of the built-in function of this name.
#[tactic(auto, unfolding(crate::specs::Predeclared::place_from))]
fn built_in_place(name: &[u8]) -> Option<u32>
    ensures { result ≡ place_from 0 name.now built_in_names }
{
    let mut names = BUILT_IN_NAMES.as_slice();
    let mut place = 0;
    while let [own, rest @ ..] = names {
        if name == *own {
            return Some(place);
        }
        place += 1;
        names = rest;
    }
    None
}

/// Returns the first of these that has the name.
#[tactic(auto, unfolding(crate::specs::Predeclared::first_named))]
fn first_named(mut table: &[Predeclared], name: &[u8]) -> Option<Predeclared>
    ensures { result ≡ first_named name.now table.entry.now }
{
    while let [entry, rest @ ..] = table {
        match entry.name() {
            Some(own) if name == own => return Some(*entry),
            _ => table = rest,
        }
    }
    None
}

/// Returns what the name stands for, or `None` for the name of a rule and for one that nothing has.
#[tactic(auto, unfolding(crate::specs::Predeclared::predeclared_named))]
pub fn predeclared_named(name: &[u8]) -> Option<Predeclared>
    ensures { result ≡ predeclared_named name.now }
{
    match built_in_place(name) {
        Some(place) => Some(Predeclared::BuiltIn(place)),
        None => first_named(&OTHERS, name),
    }
}
