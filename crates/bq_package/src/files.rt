//! Calls of `exports_files`.

ghost use Rattle.std.specs.Prelude.{◌≡◌};
ghost use Rattle.bq_base.specs.Gives.{Gives};
ghost use Rattle.bq_value.specs.declared.error.EvalErr.TheVariants.{Bad};
ghost use Rattle.bq_builtin_machine.specs.Binding.{bind};
ghost use Rattle.bq_package.specs.Place.{place_of};
ghost use Rattle.bq_package.specs.Bound.{exports_parameters};
ghost use Rattle.bq_package.specs.Files.{files_named};

use crate::bound::texts_of;
use crate::place::Place;
use bq_builtin_machine::{Args, Bound, Signature, SingleParameter, bind};
use bq_label::Label;
use bq_package_values::{TextKind, labels};
use bq_value::{EvalErr, Store};
use bq_value_datum::Seed;
use sqlite_items::Items;
use std::alloc::Global;

/// `(srcs, visibility = None, licenses = None)`
const EXPORTS_FILES: Signature<'static> = Signature {
    parameters: &[
        SingleParameter {
            name: Some(b"srcs"),
            is_required: true,
        },
        SingleParameter {
            name: Some(b"visibility"),
            is_required: false,
        },
        SingleParameter {
            name: Some(b"licenses"),
            is_required: false,
        },
    ],
    placed: 3,
    takes_rest: false,
    takes_keywords: false,
};

fn bind_exports(alloc: Global, args: Args) -> Result<Bound, EvalErr>
    ensures { Gives (λ b. b) Bad result (bind exports_parameters args) }
{
    bind(alloc, Seed::fixed(), &EXPORTS_FILES, args)
}

impl<'a> Place<'a> {
    /// Returns the files that a call of `exports_files` names: F52, F73, F75, F37.
    #[tactic(auto, unfolding(crate::specs::Files::files_named))]
    pub fn files_named(
        &self,
        alloc: Global,
        store: &Store,
        args: Args,
    ) -> Result<Items<Label>, EvalErr>
        ensures { Gives (λ ls. ls) Bad result (files_named (place_of self.now) store.now args) }
    {
        let bound = bind_exports(alloc, args)?;
        let texts = texts_of(alloc, store, &bound.values, 0)?;
        labels(alloc, self.scope, TextKind::Name, texts.as_slice())
    }
}
