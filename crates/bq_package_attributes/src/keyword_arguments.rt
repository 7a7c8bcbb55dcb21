//! The keyword arguments of a call. A call has few of them, so mostly they are searched one by one, and no dict is
//! made.

ghost use Rattle.std.specs.Prelude.{◌≡◌, [], length, option_copied, Ok, IfOk};
ghost use Rattle.std.specs.Option.{is_some};
ghost use Rattle.bq_base.specs.Gives.{Gives};
ghost use Rattle.bq_value.specs.declared.error.EvalErr.TheVariants.{Bad};
ghost use Rattle.bq_value.specs.Datum.{string};
ghost use Rattle.bq_value.specs.Pairs.{found};
ghost use Rattle.bq_builtin_machine.specs.Binding.{bind};
ghost use Rattle.bq_package_values.specs.Steps.{and_then};
ghost use Rattle.bq_package_attributes.specs.Declarations.{keywords_alone};
ghost use Rattle.bq_package_attributes.specs.KeywordArguments.{pairs, pairs_of, are_new};

use bq_base::{Bytes, EvalFault};
use bq_builtin_machine::{Args, Signature, bind};
use bq_value::{Dict, EvalErr, Key, Value};
use bq_value_datum::Seed;
use std::alloc::{AllocError, Global};
use std::marker::Model;

/// Up to this many arguments are searched one by one. More are in a dict.
const FEW: usize = 16;

/// How arguments are held.
#[derive(Drop)]
pub(crate) enum HeldArguments {
    Few(Vec<(Bytes, Value)>),
    Many(Dict),
}

/// The keyword arguments of a call, none of them twice, in the order in which they are written. Contracts see the pairs of a dict.
#[derive(Drop)]
pub(crate) struct Keywords {
    pub(crate) held: HeldArguments,
}

impl Model for Keywords {
    ghost use Rattle.std.specs.Prelude.{List};
    ghost use Rattle.bq_value.specs.Datum.{Datum};
    ghost use Rattle.bq_value.specs.Pairs.{coded_pairs};
    ghost use Rattle.bq_package_attributes.specs.KeywordArguments.{pairs_of};

    ghost Value = { List (Datum × Datum) };

    ghost coded = { coded_pairs };

    ghost view = { λ k. pairs_of k.held };
}

/// Returns the value of the argument of this name.
fn value_of<'a>(mut named: &'a [(Bytes, Value)], name: &[u8]) -> Option<&'a Value>
    ensures { option_copied result ≡ found (string name.now) (pairs named.entry.now) }
{
    while let [argument, rest @ ..] = named {
        if name == argument.0.as_slice() {
            return Some(&argument.1);
        }
        named = rest;
    }
    None
}

/// Returns whether no argument has the name of an earlier one.
fn are_new(named: &[(Bytes, Value)]) -> bool
    ensures { result ≡ are_new [] named.now }
{
    for at in 0..named.len() {
        if value_of(&named[..at], named[at].0.as_slice()).is_some() {
            return false;
        }
    }
    true
}

/// Makes a dict of any number of arguments, or fails with F52.
fn many(alloc: Global, seed: Seed, args: Args) -> Result<Keywords, EvalErr>
    ensures { Gives (λ keywords. keywords) Bad result (and_then (bind keywords_alone args) (λ b. Ok b.keywords)) }
{
    let signature = Signature {
        parameters: &[],
        placed: 0,
        takes_rest: false,
        takes_keywords: true,
    };
    let bound = bind(alloc, seed, &signature, args)?;
    Ok(Keywords {
        held: HeldArguments::Many(bound.keywords),
    })
}

impl Keywords {
    /// Takes the arguments of a call that has keyword arguments alone, or fails with F52.
    pub(crate) fn of(alloc: Global, seed: Seed, args: Args) -> Result<Keywords, EvalErr>
        ensures { Gives (λ keywords. keywords) Bad result (and_then (bind keywords_alone args) (λ b. Ok b.keywords)) }
    {
        if args.named.len() > FEW {
            return many(alloc, seed, args);
        }
        let Args { positional, named } = args;
        if positional.len() > 0 {
            return Err(EvalErr::Bad(EvalFault::Args));
        }
        if !are_new(&named) {
            return Err(EvalErr::Bad(EvalFault::Args));
        }
        Ok(Keywords {
            held: HeldArguments::Few(named),
        })
    }

    /// Returns the value of the argument of this name.
    pub(crate) fn get(&self, name: &Bytes) -> Result<Option<&Value>, AllocError>
        ensures { IfOk result (λ value. option_copied value ≡ found (string name.now) self.now) }
    {
        match &self.held {
            HeldArguments::Few(named) => Ok(value_of(named, name.as_slice())),
            HeldArguments::Many(dict) => {
                let key = Key::new(Value::string(name.share()?));
                Ok(dict.get(&key))
            }
        }
    }
}
