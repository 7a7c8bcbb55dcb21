//! The arguments of the functions that declare rules.

ghost use Rattle.std.specs.Prelude.{◌≡◌, option_copied};
ghost use Rattle.bq_base.specs.Gives.{Gives};
ghost use Rattle.bq_value.specs.declared.error.EvalErr.TheVariants.{Bad};
ghost use Rattle.bq_builtin_machine.specs.Binding.{bind};
ghost use Rattle.bq_package_attributes.specs.Keywords.{attribute_parameters, rule_parameters, documented};

use bq_base::EvalFault;
use bq_builtin_machine::{Args, Bound, Signature, SingleParameter, bind};
use bq_value::{EvalErr, Node, Value};
use bq_value_datum::Seed;
use std::alloc::Global;

/// `(*, default, mandatory = False, doc = "")`, and what is accepted and has no effect.
const ATTRIBUTE: Signature<'static> = Signature {
    parameters: &[
        SingleParameter {
            name: Some(b"default"),
            is_required: false,
        },
        SingleParameter {
            name: Some(b"mandatory"),
            is_required: false,
        },
        SingleParameter {
            name: Some(b"doc"),
            is_required: false,
        },
        SingleParameter {
            name: Some(b"allow_files"),
            is_required: false,
        },
        SingleParameter {
            name: Some(b"allow_single_file"),
            is_required: false,
        },
        SingleParameter {
            name: Some(b"providers"),
            is_required: false,
        },
        SingleParameter {
            name: Some(b"cfg"),
            is_required: false,
        },
        SingleParameter {
            name: Some(b"executable"),
            is_required: false,
        },
        SingleParameter {
            name: Some(b"values"),
            is_required: false,
        },
        SingleParameter {
            name: Some(b"allow_empty"),
            is_required: false,
        },
    ],
    placed: 0,
    takes_rest: false,
    takes_keywords: false,
};

/// `(implementation, attrs = {}, doc = "")`, and by keyword what is accepted and has no effect.
const RULE: Signature<'static> = Signature {
    parameters: &[
        SingleParameter {
            name: Some(b"implementation"),
            is_required: true,
        },
        SingleParameter {
            name: Some(b"attrs"),
            is_required: false,
        },
        SingleParameter {
            name: Some(b"doc"),
            is_required: false,
        },
        SingleParameter {
            name: Some(b"executable"),
            is_required: false,
        },
        SingleParameter {
            name: Some(b"test"),
            is_required: false,
        },
        SingleParameter {
            name: Some(b"provides"),
            is_required: false,
        },
        SingleParameter {
            name: Some(b"toolchains"),
            is_required: false,
        },
        SingleParameter {
            name: Some(b"fragments"),
            is_required: false,
        },
    ],
    placed: 3,
    takes_rest: false,
    takes_keywords: false,
};

/// Returns the arguments of `attr.NAME`, or F52.
pub(crate) fn bind_attribute(alloc: Global, args: Args) -> Result<Bound, EvalErr>
    ensures { Gives (λ b. b) Bad result (bind attribute_parameters args) }
{
    bind(alloc, Seed::fixed(), &ATTRIBUTE, args)
}

/// Returns the arguments of `rule`, or F52.
pub(crate) fn bind_rule(alloc: Global, args: Args) -> Result<Bound, EvalErr>
    ensures { Gives (λ b. b) Bad result (bind rule_parameters args) }
{
    bind(alloc, Seed::fixed(), &RULE, args)
}

/// Fails with F40 if `doc` is neither a string nor `None`.
pub(crate) fn documented(value: Option<&Value>) -> Result<(), EvalFault>
    ensures { result ≡ documented (option_copied value.entry) }
{
    match value {
        None => Ok(()),
        Some(value) => match &value.node {
            Node::NoneValue => Ok(()),
            Node::Text(_) => Ok(()),
            _ => Err(EvalFault::WrongType),
        },
    }
}
