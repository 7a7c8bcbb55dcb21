//! What holds of the faults of modules. The functions do nothing: their contracts are the laws.

ghost use Rattle.bq_load_laws.specs.Faults.Lines.{FaultsStandOnLines, OutcomesStandOnLines, FaultLinesStandOnLines, TargetsStandOnLines};
ghost use Rattle.bq_load_laws.specs.Faults.Parts.{OutcomesFailInTheirParts, LoadedModulesFailInTheirParts, FaultsAreOfModules, FaultLinesAreOfModules};

/// Each outcome of a load graph is a module, or a fault of one part of its file: of its tokens, its statements, its names, its loads or
/// its evaluation, each of which has faults of its own type. So it is in a workspace that is loaded.
pub fn outcomes_fail_in_their_parts()
    ensures outcomes { OutcomesFailInTheirParts }
    ensures loaded { LoadedModulesFailInTheirParts }
{}

/// Whatever the part is, the fault is neither of the target graph (F79) nor of the schema (F80); nor is that of any fault line of a workspace
/// that is loaded.
pub fn fault_lines_are_of_modules()
    ensures faults { FaultsAreOfModules }
    ensures lines { FaultLinesAreOfModules }
{}

/// Lines are counted from 1: whatever the part is, the fault names a line of at least 1. So does each module of a load graph that fails,
/// and each fault line of a workspace that is loaded. A target of a workspace is a source file, or in such a line.
pub fn faults_stand_on_lines()
    ensures faults { FaultsStandOnLines }
    ensures outcomes { OutcomesStandOnLines }
    ensures lines { FaultLinesStandOnLines }
    ensures targets { TargetsStandOnLines }
{}
