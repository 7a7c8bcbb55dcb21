//! What holds of labels that name no target. The function does nothing: its contract is the law.

ghost use Rattle.std.specs.Prelude.{List};
ghost use Rattle.std.specs.List.{Contains};
ghost use Rattle.bq_base_texts.specs.declared.fault_line.FaultLine.{FaultLine};
ghost use Rattle.bq_package_target.specs.Package.{PackageTargets};
ghost use Rattle.bq_query_target_graph.specs.Dangling.{all_dangling};
ghost use Rattle.bq_run_laws.specs.DanglingLabels.Lines.{IsToldAt};

/// The line of a label that names no target (F79) names the BUILD file of the package whose target has it, and the line
/// of the call that declares the target.
pub fn dangling_labels_are_told_where_they_are_written()
    ensures { (ps : List PackageTargets) (x : FaultLine) → Contains (all_dangling ps) x → IsToldAt ps x }
{}
