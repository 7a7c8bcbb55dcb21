//! A workspace that was loaded.

ghost use Rattle.std.specs.Prelude.{◌≡◌, map, IfOk};
ghost use Rattle.bq_load.specs.Views.{outcome_view};
ghost use Rattle.bq_load.specs.Loaded.{IsGathered};
ghost use Rattle.bq_load.specs.Packages.{labels_of};

use crate::lines::{fault_lines, print_lines};
use crate::outcome::ModuleOutcome;
use crate::packages::packages_in;
use bq_base_texts::{FaultLines, Rope};
use bq_label::Packages;
use bq_label_set::LabelSet;
use bq_package_target::PackageList;
use std::alloc::{AllocError, Global};

/// A workspace that was loaded.
#[derive(Drop)]
pub struct Loaded {
    /// The modules in the order of the bytes of their labels' full forms.
    pub modules: Vec<ModuleOutcome>,
    /// The packages in the order of their directories. A BUILD file that failed has one without targets.
    pub packages: PackageList,
    /// A line for each module that failed.
    pub faults: FaultLines,
    /// `LABEL: TEXT` and a newline for each text that a module printed. Long texts are shared with the modules.
    pub prints: Rope,
}

impl Loaded {
    /// Gathers the outcomes of modules, which have these labels, in a workspace with these packages.
    #[tactic(auto, using(crate::proofs::Ascending::packages_ascend))]
    pub fn gathered(
        alloc: Global,
        packages: &Packages,
        labels: &LabelSet,
        modules: Vec<ModuleOutcome>,
    ) -> Result<Loaded, AllocError>
        requires { labels.now ≡ labels_of (map outcome_view modules.items) }
        ensures { IfOk result (λ l. IsGathered packages.now (map outcome_view modules.items) l) }
    {
        let all = packages_in(alloc, packages, labels, modules.as_slice())?;
        let faults = fault_lines(alloc, modules.as_slice())?;
        let prints = print_lines(alloc, modules.as_slice())?;
        Ok(Loaded {
            modules,
            packages: PackageList::of(all),
            faults,
            prints,
        })
    }
}
