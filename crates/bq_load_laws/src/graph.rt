//! What holds of loads. The functions do nothing: their contracts are the laws.

ghost use Rattle.std.specs.Prelude.{◌≡◌, ℕ, List, [], Some, Err, slice_get};
ghost use Rattle.bq_base.specs.declared.fault.FaultKind.{FaultKind};
ghost use Rattle.bq_base.specs.declared.fault.Fault.{Fault};
ghost use Rattle.bq_label.specs.declared.workspace.File.{File};
ghost use Rattle.bq_label.specs.declared.packages.BuildFile.{BuildFile};
ghost use Rattle.bq_label.specs.Label.{LabelParts, PackageParts};
ghost use Rattle.bq_load_front.specs.Front.{front_of};
ghost use Rattle.bq_load_front.specs.Inputs.{InputParts};
ghost use Rattle.bq_load_discover.specs.LoadGraph.{GraphParts, IsReadGraph};
ghost use Rattle.bq_load_front.specs.NamedFile.{load_label};
ghost use Rattle.bq_load_laws.specs.Graphs.Orders.{LoadFailsForFirst, loading};

/// A load is refused for the first of the reasons that are listed, and for nothing else: F30, F32, F37, F31.
pub fn loads_are_refused_in_order()
    ensures { (files : List File) (packages : List BuildFile) (own : PackageParts) (line : ℕ) (text : List ℕ) → LoadFailsForFirst (load_label files packages own line text) (loading files packages own text) }
{}

/// In the load graph of a workspace, a module whose file has a fault of its own, or a bad load, loads nothing, not even
/// by its good loads.
pub fn faulty_files_load_nothing()
    ensures { (inputs : InputParts) (g : GraphParts) (m : ℕ) (l : LabelParts) (why : Fault FaultKind) → IsReadGraph inputs g → slice_get g.labels m ≡ Some l → front_of inputs l ≡ Err why → slice_get g.edges m ≡ Some [] }
{}
