//! The lines of targets, modules and faults.

ghost use Rattle.std.specs.Prelude.{◌≡◌, ◌++◌, ◌<◌, length, OnOk};
ghost use Rattle.std.specs.List.{All};
ghost use Rattle.bq_run_facts.specs.Lines.{line_at, line_of_module, target_lines, module_lines, fault_objects};

use bq_base_texts::FaultLines;
use bq_facts::{SharedText, direct_deps, file_of, labels_at, push_fault, push_module, push_target};
use bq_label::Packages;
use bq_load_discover::Module;
use bq_load_front::{Front, NamedFiles};
use bq_query_target_graph::TargetGraph;
use std::alloc::{AllocError, Global};

/// Appends the line of the target of this number.
fn push_target_at(
    alloc: Global,
    text: &mut SharedText,
    packages: &Packages,
    graph: &TargetGraph,
    at: usize,
) -> Result<(), AllocError>
    requires { at < length graph.now.targets }
    ensures { OnOk result (text.new ≡ text.old ++ line_at packages.now graph.now at) }
{
    let targets = graph.targets();
    let target = &targets[at];
    let direct = direct_deps(alloc, graph.graph().row(at), at)?;
    let deps = labels_at(alloc, targets, &direct)?;
    let file = file_of(alloc, packages, target)?;
    push_target(alloc, text, target, &file, &deps)
}

/// Appends the lines of the targets of these numbers.
pub(crate) fn push_targets(
    alloc: Global,
    text: &mut SharedText,
    packages: &Packages,
    graph: &TargetGraph,
    numbers: &[usize],
) -> Result<(), AllocError>
    requires { All (λ at. at < length graph.now.targets) numbers.now }
    ensures { OnOk result (text.new ≡ text.old ++ target_lines packages.now graph.now numbers.now) }
{
    for at in numbers {
        push_target_at(alloc, text, packages, graph, *at)?;
    }
    Ok(())
}

/// Appends the line of a module. Of a file with a fault of its own no load is known.
fn push_module_line(alloc: Global, text: &mut SharedText, module: &Module) -> Result<(), AllocError>
    ensures { OnOk result (text.new ≡ text.old ++ line_of_module «module».now) }
{
    match &module.front {
        Ok(Front { file, loads }) => {
            push_module(alloc, text, &module.label, file.loads.as_slice(), loads)
        }
        Err(_) => push_module(alloc, text, &module.label, &[], &NamedFiles::none(alloc)),
    }
}

/// Appends the lines of modules.
pub(crate) fn push_modules(
    alloc: Global,
    text: &mut SharedText,
    modules: &[Module],
) -> Result<(), AllocError>
    ensures { OnOk result (text.new ≡ text.old ++ module_lines modules.now) }
{
    for module in modules {
        push_module_line(alloc, text, module)?;
    }
    Ok(())
}

/// Appends the lines of faults.
pub(crate) fn push_faults(
    alloc: Global,
    text: &mut SharedText,
    faults: &FaultLines,
) -> Result<(), AllocError>
    ensures { OnOk result (text.new ≡ text.old ++ fault_objects faults.now) }
{
    for line in faults.lines() {
        push_fault(alloc, text, line)?;
    }
    Ok(())
}
