//! What holds of names and slots in the loading of a workspace. The functions do nothing: their contracts are the laws.

ghost use Rattle.bq_load_by_name.specs.Agreement.{ModulesAreRead, ModulesAgree, OutcomesAgree, WorkspacesAgree};

/// The modules of a load graph are read as what their files are: the same loads and what the file resolves to, or the same
/// fault.
pub fn modules_are_read()
    ensures { ModulesAreRead }
{}

/// A module evaluates by names to what it evaluates to by slots, whatever modules it loads.
pub fn evaluated_modules_agree()
    ensures { ModulesAgree }
{}

/// The outcomes of the modules of a workspace are by names what they are by slots.
pub fn outcomes_agree()
    ensures outcomes { OutcomesAgree }
    ensures workspaces { WorkspacesAgree }
{}
