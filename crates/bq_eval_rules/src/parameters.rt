//! The parameters of a function, and the binding of its arguments.

ghost use Rattle.std.specs.Prelude.{◌≡◌, ◌++◌, ◌∷◌, [], map, IfOk, OnOk};
ghost use Rattle.bq_base.specs.Gives.{Gives};
ghost use Rattle.bq_value.specs.declared.error.EvalErr.TheVariants.{Bad};
ghost use Rattle.bq_builtin_machine.specs.Binding as binding;
ghost use Rattle.bq_builtin_machine.specs.Parameters.{parameter_of};
ghost use Rattle.bq_eval_spec.specs.Calls as meaning;
ghost use Rattle.bq_eval_rules.specs.Effects.{Returns};

use crate::runtime::Runtime;
use bq_builtin_machine::{Args, Bound, Signature, SingleParameter, bind};
use bq_resolve_scope::Formal;
use bq_value::{Content, Dict, EvalErr, Value};
use bq_value_datum::Seed;
use std::alloc::{AllocError, Global};

/// Appends the parameter, if it takes one argument.
#[tactic(auto, using(crate::proofs::ParameterLists::one_more))]
fn add_single<'a>(
    all: &mut Vec<SingleParameter<'a>>,
    parameter: &'a Formal,
) -> Result<(), AllocError>
    ensures { OnOk result (map parameter_of all.new.items ≡ map parameter_of all.old.items ++ meaning.singles (parameter.now ∷ [])) }
{
    match parameter {
        Formal::Plain(name) => {
            all.push(SingleParameter {
                name: Some(name.name.as_slice()),
                is_required: true,
            })?;
        }
        Formal::Default(name) => {
            all.push(SingleParameter {
                name: Some(name.name.as_slice()),
                is_required: false,
            })?;
        }
        Formal::BareStar => {}
        Formal::Star(_) => {}
        Formal::StarStar(_) => {}
    }
    Ok(())
}

/// Returns the parameters that take one argument.
#[tactic(auto, using(crate::proofs::ParameterLists::singles_from))]
fn singles<'a>(
    alloc: Global,
    parameters: &'a [Formal],
) -> Result<Vec<SingleParameter<'a>>, AllocError>
    ensures { IfOk result (λ all. map parameter_of all.items ≡ meaning.singles parameters.now) }
{
    let mut all = Vec::with_capacity(alloc, parameters.len())?;
    for parameter in parameters {
        add_single(&mut all, parameter)?;
    }
    Ok(all)
}

/// Returns how many of them are before a `*`.
fn placed_of(parameters: &[Formal]) -> usize
    ensures { result ≡ meaning.placed_of parameters.now }
{
    let mut placed = 0;
    for parameter in parameters {
        match parameter {
            Formal::Plain(_) => placed += 1,
            Formal::Default(_) => placed += 1,
            Formal::BareStar => return placed,
            Formal::Star(_) => return placed,
            Formal::StarStar(_) => {}
        }
    }
    placed
}

/// Returns whether there is a `*` that takes arguments.
fn has_star(parameters: &[Formal]) -> bool
    ensures { result ≡ meaning.has_star parameters.now }
{
    for parameter in parameters {
        if let Formal::Star(_) = parameter {
            return true;
        }
    }
    false
}

/// Returns whether there is a `**`.
pub fn has_star_star(parameters: &[Formal]) -> bool
    ensures { result ≡ meaning.has_star_star parameters.now }
{
    for parameter in parameters {
        if let Formal::StarStar(_) = parameter {
            return true;
        }
    }
    false
}

/// Binds the arguments of a call, or fails with F52.
#[tactic(auto, unfolding(bq_eval_spec::specs::Calls::signature))]
pub fn bind_args(
    alloc: Global,
    seed: Seed,
    parameters: &[Formal],
    args: Args,
) -> Result<Bound, EvalErr>
    ensures { Gives (λ b. b) Bad result (binding.bind (meaning.signature parameters.now) args) }
{
    let singles = singles(alloc, parameters)?;
    let signature = Signature {
        parameters: singles.as_slice(),
        placed: placed_of(parameters),
        takes_rest: has_star(parameters),
        takes_keywords: has_star_star(parameters),
    };
    bind(alloc, seed, &signature, args)
}

/// Returns the dict for `**`, or `None` if there is no `**`.
#[tactic(auto, unfolding(bq_eval_spec::specs::Calls::keywords_of))]
pub fn keywords_of<R: Runtime>(
    runtime: &mut R,
    takes: bool,
    keywords: Dict,
) -> Result<Value, EvalErr>
    ensures { Returns R.means R.seen (meaning.keywords_of R.means takes keywords) runtime.old result runtime.new }
{
    if takes {
        return runtime.make(Content::dict(keywords));
    }
    Ok(Value::none())
}
