//! Calls of `glob`.

ghost use Rattle.std.specs.Prelude.{◌≡◌, option_copied};
ghost use Rattle.bq_base.specs.Gives.{Gives};
ghost use Rattle.bq_value.specs.declared.error.EvalErr.TheVariants.{Bad};
ghost use Rattle.bq_builtin_machine.specs.Binding.{bind};
ghost use Rattle.bq_package.specs.Place.{place_of};
ghost use Rattle.bq_package_values.specs.Parameters.{argument};
ghost use Rattle.bq_package.specs.Bound.{glob_parameters};
ghost use Rattle.bq_package.specs.Glob.{patterns, excludes_directories, request_of, is_nothing, found, globbed};

use crate::bound::texts_of;
use crate::place::Place;
use bq_base::{Bytes, EvalFault, SourceErr};
use bq_builtin_machine::{Args, Bound, Signature, SingleParameter, bind};
use bq_label_glob::{Pattern, any_is_idle, glob, read_pattern};
use bq_package_values::argument;
use bq_value::{EvalErr, Node, Store, Value, truth};
use bq_value_datum::Seed;
use sqlite_items::Items;
use std::alloc::Global;

/// What a call of `glob` asks for.
#[derive(Drop)]
pub struct GlobRequest {
    pub include: Items<Pattern>,
    pub exclude: Items<Pattern>,
    /// Whether the result may be empty.
    pub allows_empty: bool,
}

/// `(include, exclude = [], exclude_directories = 1, allow_empty = True)`
const GLOB: Signature<'static> = Signature {
    parameters: &[
        SingleParameter {
            name: Some(b"include"),
            is_required: true,
        },
        SingleParameter {
            name: Some(b"exclude"),
            is_required: false,
        },
        SingleParameter {
            name: Some(b"exclude_directories"),
            is_required: false,
        },
        SingleParameter {
            name: Some(b"allow_empty"),
            is_required: false,
        },
    ],
    placed: 4,
    takes_rest: false,
    takes_keywords: false,
};

fn bind_glob(alloc: Global, args: Args) -> Result<Bound, EvalErr>
    ensures { Gives (λ b. b) Bad result (bind glob_parameters args) }
{
    bind(alloc, Seed::fixed(), &GLOB, args)
}

/// Reads texts as patterns, or fails with F77.
#[tactic(auto, unfolding(crate::specs::Glob::patterns, bq_package_values::specs::Steps::in_turn))]
fn patterns(alloc: Global, texts: &[Bytes]) -> Result<Items<Pattern>, EvalErr>
    ensures { Gives (λ ps. ps) Bad result (patterns texts.now) }
{
    let mut patterns = Items::new(alloc);
    for text in texts {
        match read_pattern(text, patterns.as_slice().last()) {
            Ok(pattern) => patterns.push(pattern)?,
            Err(SourceErr::Memory) => return Err(EvalErr::Memory),
            Err(SourceErr::Bad(_)) => return Err(EvalErr::Bad(EvalFault::GlobPattern)),
        }
    }
    Ok(patterns)
}

fn excludes_directories(value: Option<&Value>) -> bool
    ensures { result ≡ excludes_directories (option_copied value.entry) }
{
    match value {
        None => true,
        Some(value) => match &value.node {
            Node::Int(n) => *n == 1,
            Node::Bool(b) => *b,
            _ => false,
        },
    }
}

/// Returns what a call asks for, from the arguments of its parameters: F73, F57, F77.
#[tactic(auto, unfolding(crate::specs::Glob::request_of, crate::specs::Glob::request_by))]
fn request_of(
    alloc: Global,
    store: &Store,
    values: &[Option<Value>],
) -> Result<GlobRequest, EvalErr>
    ensures { Gives (λ r. r) Bad result (request_of store.now values.now) }
{
    let include = texts_of(alloc, store, values, 0)?;
    let exclude = texts_of(alloc, store, values, 1)?;
    if !excludes_directories(argument(values, 2)) {
        return Err(EvalErr::Bad(EvalFault::BadValue));
    }
    Ok(GlobRequest {
        include: patterns(alloc, include.as_slice())?,
        exclude: patterns(alloc, exclude.as_slice())?,
        allows_empty: match argument(values, 3) {
            None => true,
            Some(value) => truth(store, value),
        },
    })
}

fn is_nothing(names: &[Bytes]) -> bool
    ensures { result ≡ is_nothing names.now }
{
    match names {
        [] => true,
        [_, ..] => false,
    }
}

impl<'a> Place<'a> {
    /// Returns the result of a call that asks for this: F76 if it may not be empty, and some pattern matches no file,
    /// or no name is left.
    #[tactic(auto, unfolding(crate::specs::Glob::found))]
    fn found(&self, alloc: Global, request: &GlobRequest) -> Result<Vec<Bytes>, EvalErr>
        ensures { Gives (λ names. names.items) Bad result (found (place_of self.now) request.now) }
    {
        let (packages, own) = (self.scope.packages, self.scope.own);
        let include = request.include.as_slice();
        let exclude = request.exclude.as_slice();
        let names = glob(alloc, self.workspace, packages, own, include, exclude)?;
        if request.allows_empty {
            return Ok(names);
        }
        let idle = any_is_idle(alloc, self.workspace, packages, own, include)?;
        if idle || is_nothing(&names) {
            return Err(EvalErr::Bad(EvalFault::GlobEmpty));
        }
        Ok(names)
    }

    /// Returns the names of a call of `glob`.
    #[tactic(auto, unfolding(crate::specs::Glob::globbed))]
    pub fn globbed(&self, alloc: Global, store: &Store, args: Args) -> Result<Vec<Bytes>, EvalErr>
        ensures { Gives (λ names. names.items) Bad result (globbed (place_of self.now) store.now args) }
    {
        let bound = bind_glob(alloc, args)?;
        let request = request_of(alloc, store, &bound.values)?;
        self.found(alloc, &request)
    }
}
