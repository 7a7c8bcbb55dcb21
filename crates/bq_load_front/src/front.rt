//! What the file of a module is on its own.

ghost use Rattle.std.specs.Prelude.{◌≡◌, []};
ghost use Rattle.bq_base.specs.Gives.{Gives};
ghost use Rattle.bq_base.specs.Fault.{or_fault_as, kind_of_load};
ghost use Rattle.bq_base.specs.declared.fault.SourceErr.TheVariants.{Bad};
ghost use Rattle.bq_load_front.specs.Resolved.{itself};
ghost use Rattle.bq_load_front.specs.Front.{front_of, load_of};
ghost use Rattle.bq_load_front.specs.Parsed.{labels_of, kind_of};

use crate::inputs::Inputs;
use crate::named_file::load_label;
use crate::named_files::NamedFiles;
use crate::resolved::resolved_file;
use bq_base::{Fault, FaultKind, LoadFault, SourceErr};
use bq_label::{Label, PackageId, label_file};
use bq_parse_grammar::FileKind;
use bq_resolve_scope::{LoadStmt, ResolvedFile};
use sqlite_items::Items;
use std::alloc::Global;

/// What a file resolves to, and the files that its loads name.
#[derive(Drop)]
pub struct Front {
    pub file: ResolvedFile,
    pub loads: NamedFiles,
}

/// Returns the files that loads in this package name, or the fault of the first bad load (F30, F31, F32, F37).
#[tactic(auto, unfolding(crate::specs::Parsed::labels_of))]
fn named_files(
    alloc: Global,
    inputs: &Inputs<'_>,
    own: &PackageId,
    loads: &[LoadStmt],
) -> Result<NamedFiles, SourceErr<LoadFault>>
    ensures { Gives itself Bad result (labels_of (load_of inputs.now own.now) [] loads.now) }
{
    let mut labels = Items::new(alloc);
    for load in loads {
        labels.push(load_label(
            alloc,
            inputs.workspace(),
            inputs.packages(),
            own,
            load.line,
            load.label.as_slice(),
        )?)?;
    }
    Ok(NamedFiles::of(alloc, labels.as_slice())?)
}

/// Returns the same, with the load's fault as one of the file.
fn files_loaded(
    alloc: Global,
    inputs: &Inputs<'_>,
    own: &PackageId,
    loads: &[LoadStmt],
) -> Result<NamedFiles, SourceErr<FaultKind>>
    ensures { Gives itself Bad result (or_fault_as kind_of_load (labels_of (load_of inputs.now own.now) [] loads.now)) }
{
    Ok(named_files(alloc, inputs, own, loads)?)
}

/// Returns the kind of the file of this label: a .bzl file if its name ends so, a BUILD file otherwise.
#[tactic(auto, unfolding(crate::specs::Parsed::kind_of))]
pub fn kind_of(label: &Label) -> FileKind
    ensures { result ≡ kind_of label.now }
{
    if label.name().as_slice().ends_with(b".bzl") {
        FileKind::Bzl
    } else {
        FileKind::Build
    }
}

/// Returns what the file of this label resolves to and its loads, or its first fault: of its text (F1 to F24), then of its
/// first bad load. A label that names no file is F31; no module has such a label.
#[tactic(auto, unfolding(crate::specs::Front::front_of))]
pub fn front_of(
    alloc: Global,
    inputs: &Inputs<'_>,
    label: &Label,
) -> Result<Front, SourceErr<FaultKind>>
    ensures { Gives itself Bad result (front_of inputs.now label.now) }
{
    let Some(file) = label_file(alloc, inputs.workspace(), label)? else {
        return Err(SourceErr::Bad(Fault::at(FaultKind::NoSuchFile, 0)));
    };
    let universe = inputs.universe(kind_of(label));
    let resolved = resolved_file(alloc, universe, file.content.as_slice())?;
    match files_loaded(alloc, inputs, label.package_id(), resolved.loads.as_slice()) {
        Ok(loads) => Ok(Front {
            file: resolved,
            loads,
        }),
        Err(why) => {
            drop(resolved); // PROOF: one call lets the file go
            Err(why)
        }
    }
}
