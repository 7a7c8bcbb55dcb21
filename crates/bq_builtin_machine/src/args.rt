//! What a call passes (Starlark, "Function and method calls").

ghost use Rattle.std.specs.Prelude.{◌≡◌};
ghost use Rattle.bq_builtin_machine.specs.Args.{nothing_passed};

use bq_base::Bytes;
use bq_value::Value;
use std::alloc::Global;
use std::marker::Model;

/// The arguments of a call, in written order. Contracts see `Passed`.
#[derive(Drop)]
pub struct Args {
    pub positional: Vec<Value>,
    pub named: Vec<(Bytes, Value)>,
}

impl Model for Args {
    ghost use Rattle.bq_builtin_machine.specs.Args.{Passed, coded_passed};

    ghost Value = { Passed };

    ghost coded = { coded_passed };

    ghost use Rattle.bq_builtin_machine.specs.ArgsOf.{passed_of};

    ghost view = { passed_of };
}

impl Args {
    /// Makes the arguments of `()`.
    pub fn new(alloc: Global) -> Args
        ensures { result ≡ nothing_passed }
    {
        Args {
            positional: Vec::new(alloc),
            named: Vec::new(alloc),
        }
    }
}
