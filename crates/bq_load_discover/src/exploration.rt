//! The modules of a workspace, found along loads.

ghost use Rattle.std.specs.Prelude.{◌≡◌, ◌+◌, [], ◌++◌, length, Option, IfOk, OnOk, option_to_list};
ghost use Rattle.bq_base.specs.Limits.{AreBounded};
ghost use Rattle.bq_label.specs.Packages.{build_label};
ghost use Rattle.bq_label_set.specs.Labels.{with_labels};
ghost use Rattle.bq_load_front.specs.Front.{loads_by};
ghost use Rattle.bq_load_front.specs.Inputs.{InputParts};
ghost use Rattle.bq_load_discover.specs.Modules.{build_labels};
ghost use Rattle.bq_load_discover.specs.Exploring.{Explores, IsNextIn, AfterReading, Finds};

use crate::modules::Module;
use bq_base::Limits;
use bq_label::{BuildFile, Packages};
use bq_label_set::LabelSet;
use bq_load_front::Inputs;
use std::alloc::{AllocError, Global};

/// The labels of modules that were found, and the modules of the first of them, which were read.
#[derive(Drop)]
pub(crate) struct Exploration {
    pub(crate) found: LabelSet,
    pub(crate) read: Vec<Module>,
}

/// Finds the package's BUILD file.
#[tactic(auto, unfolding(bq_label_set::specs::Labels::with_labels))]
fn add_build_file(alloc: Global, build: &BuildFile, found: &mut LabelSet) -> Result<(), AllocError>
    ensures { OnOk result (found.new ≡ with_labels found.old (option_to_list (build_label build.now))) }
{
    match build.label(alloc)? {
        None => Ok(()),
        Some(label) => {
            found.add(&label)?;
            Ok(())
        }
    }
}

/// Returns the labels of the BUILD files.
#[tactic(auto, unfolding(bq_label_set::specs::Labels::with_labels))]
fn build_labels(alloc: Global, packages: &Packages) -> Result<LabelSet, AllocError>
    ensures { IfOk result (λ found. found ≡ with_labels [] (build_labels packages.now)) }
{
    let mut found = LabelSet::new(alloc);
    let all = packages.all();
    for build in all {
        add_build_file(alloc, build, &mut found)?;
    }
    Ok(found)
}

impl Exploration {
    /// Finds the BUILD files, and reads nothing.
    pub(crate) fn new(alloc: Global, inputs: &Inputs<'_>) -> Result<Exploration, AllocError>
        ensures { IfOk result (λ e. Explores inputs.now e.found e.read.items) }
    {
        Ok(Exploration {
            found: build_labels(alloc, inputs.packages())?,
            read: Vec::new(alloc),
        })
    }

    /// Adds the next module, which was read, and finds what it loads.
    pub(crate) fn put(&mut self, next: Module) -> Result<(), AllocError>
        ensures explores { (inputs : InputParts) → Explores inputs self.old.found self.old.read.items → IsNextIn inputs self.old.found self.old.read.items next → OnOk result (Explores inputs self.new.found self.new.read.items) }
        ensures more { OnOk result (length self.new.read.items ≡ length self.old.read.items + 1) }
        ensures found { OnOk result (self.new.found ≡ with_labels self.old.found (loads_by next.front)) }
    {
        let added = self.found.add_all(next.loads());
        self.read.push(next)?;
        added
    }

    /// Reads the next module and finds what it loads. Returns false if all that was found has been read.
    fn read_next(&mut self, alloc: Global, inputs: &Inputs<'_>) -> Result<bool, AllocError>
        requires { Explores inputs.now self.old.found self.old.read.items }
        ensures explores { OnOk result (Explores inputs.now self.new.found self.new.read.items) }
        ensures more { IfOk result (λ more. AfterReading more (length self.old.read.items) self.new.found self.new.read.items) }
    {
        let Some(label) = self.found.get(self.read.len()) else {
            return Ok(false);
        };
        let next = Module::of(alloc, inputs, label)?;
        self.put(next)?;
        Ok(true)
    }
}

/// Returns all modules of a workspace, some of which have been read; `None` if there are more than the limits allow.
pub(crate) fn read_rest(
    alloc: Global,
    limits: Limits,
    inputs: &Inputs<'_>,
    mut exploration: Exploration,
) -> Result<Option<Vec<Module>>, AllocError>
    requires bounded { AreBounded limits }
    requires explores { Explores inputs.now exploration.found exploration.read.items }
    ensures { IfOk result (Finds limits inputs.now) }
{
    for _ in 0..limits.modules + 1 {
        if exploration.read.len() > limits.modules {
            return Ok(None);
        }
        if !exploration.read_next(alloc, inputs)? {
            return Ok(Some(exploration.read));
        }
    }
    Ok(None)
}

/// Returns the modules of a workspace in the order in which they are found; `None` if there are too many.
pub(crate) fn explore(
    alloc: Global,
    limits: Limits,
    inputs: &Inputs<'_>,
) -> Result<Option<Vec<Module>>, AllocError>
    requires { AreBounded limits }
    ensures { IfOk result (Finds limits inputs.now) }
{
    let exploration = Exploration::new(alloc, inputs)?;
    read_rest(alloc, limits, inputs, exploration)
}
