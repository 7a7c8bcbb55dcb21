//! What the definitions say together. The function does nothing: its contract is the law.

ghost use Rattle.bq_run_report.specs.Laws.{OneReport};

/// A loaded workspace and a checked query have one report: its texts and its ending depend on nothing else.
pub fn one_report()
    ensures { OneReport }
{}
