//! The evaluation of the statements of a file.

ghost use Rattle.std.specs.Prelude.{◌≡◌, [], map, IfOk};
ghost use Rattle.bq_load_module.specs.Calls.{held_by};
ghost use Rattle.bq_load_module.specs.Round.{views_of, lent_files};
ghost use Rattle.bq_base.specs.Gives.{Gives};
ghost use Rattle.bq_base.specs.declared.fault.SourceErr.TheVariants.{Bad};
ghost use Rattle.bq_load_front.specs.Resolved.{items};
ghost use Rattle.bq_load_order.specs.SharedOutcomes.{told};
ghost use Rattle.bq_load.specs.Views.{module_view, failed_view, module_views};
ghost use Rattle.bq_load.specs.ResolvedFiles.{resolved_files};
ghost use Rattle.bq_load.specs.Loading.{loading_of};
ghost use Rattle.bq_load.specs.Imports.{imports};
ghost use Rattle.bq_load.specs.Evaluation.{kept_first, hosted_run, file_after, module_after, loaded_parts};

use crate::imports::LoadedFiles;
use crate::loading::Loading;
use bq_base::{LoadFault, SourceErr};
use bq_label::Label;
use bq_load_front::{Front, kind_of};
use bq_load_module::{BuildHost, FailedModule, LoadedModule, ResolvedModule, load_module};
use bq_parse_grammar::FileKind;
use bq_value::{Frozen, Value};
use std::alloc::{AllocError, Global};
use std::sync::Arc;

/// Returns the frozen cells of modules.
fn frozen_of(
    alloc: Global,
    modules: &[Arc<LoadedModule, Global>],
) -> Result<Vec<Arc<Frozen>>, AllocError>
    ensures { IfOk result (λ all. views_of all.items ≡ map (λ v. v.frozen) (module_views modules.now)) }
{
    let mut all = Vec::with_capacity(alloc, modules.len())?;
    for loaded in modules {
        all.push(Arc::try_clone(&loaded.frozen)?)?;
    }
    Ok(all)
}

/// A module that has a resolved file, with what its file is on its own.
#[derive(Drop)]
pub(crate) struct FileModule<'a> {
    pub number: u32,
    pub label: &'a Label,
    pub front: &'a Front,
}

impl<'a> Loading<'a> {
    /// Returns the host of a file's evaluation, in the package of the file. For a BUILD file its package has no targets
    /// yet.
    fn host<'b>(&'b self, alloc: Global, label: &'b Label) -> Result<BuildHost<'b>, AllocError>
        ensures { IfOk result (λ h. held_by h ≡ kept_first (loading_of self.now) label.now) }
    {
        match kind_of(label) {
            FileKind::Bzl => BuildHost::outside(alloc, label.package_id(), self.packages),
            FileKind::Build => {
                let build_file = label.share()?;
                BuildHost::inside(
                    alloc,
                    self.workspace,
                    self.packages,
                    self.schema,
                    label.package_id(),
                    build_file,
                )
            }
        }
    }

    /// Runs the statements of a file.
    fn run(
        &self,
        alloc: Global,
        label: &Label,
        module: &ResolvedModule<'_>,
    ) -> Result<Result<LoadedModule, FailedModule>, AllocError>
        requires { lent_files «module».now.files.now ≡ resolved_files self.now.modules.now }
        ensures { IfOk result (λ r. told module_view failed_view r ≡ module_after «module».now.file.now «module».now.imports.now (hosted_run self.now label.now «module».now)) }
    {
        let host = self.host(alloc, label)?;
        load_module(alloc, &self.built_ins, module, host, self.limit, self.seed)
    }

    /// Evaluates a file, with a value for each clause of its loads.
    #[tactic(auto, unfolding(crate::specs::Evaluation::evaluation))]
    pub(crate) fn evaluated(
        &self,
        alloc: Global,
        module: &FileModule<'_>,
        modules: &[Arc<LoadedModule, Global>],
        imports: &[Value],
    ) -> Result<Result<LoadedModule, FailedModule>, AllocError>
        ensures { IfOk result (λ r. told module_view failed_view r ≡ file_after (loading_of self.now) «module».now.number «module».now.label.now «module».now.front.now.file (module_views modules.now) imports.now) }
    {
        let loaded = frozen_of(alloc, modules)?;
        let resolved = ResolvedModule {
            number: module.number,
            file: &module.front.file,
            loaded: loaded.as_slice(),
            imports,
            files: self.resolved.as_slice(),
            once: self.once,
        };
        // PROOF: the file is run as this module
        Ok(self.run(alloc, module.label, &resolved)?)
    }

    /// Returns what a file gets of the modules that it loads.
    pub(crate) fn imports(
        &self,
        alloc: Global,
        module: &FileModule<'_>,
        modules: &[Arc<LoadedModule, Global>],
    ) -> Result<Vec<Value>, SourceErr<LoadFault>>
        ensures { Gives items Bad result (imports (loaded_parts (loading_of self.now) «module».now.front.now (module_views modules.now)) [] «module».now.front.now.file.loads «module».now.front.now.loads) }
    {
        let loaded = LoadedFiles {
            named: &module.front.loads,
            modules,
            resolved: self.resolved.as_slice(),
        };
        let file = &module.front.file;
        loaded.imports(alloc, file.loads.as_slice())
    }
}
