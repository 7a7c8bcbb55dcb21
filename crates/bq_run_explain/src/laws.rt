//! The numbers that are explained are those that a run can print. The functions do nothing: their contracts are the laws.

ghost use Rattle.bq_run_explain.specs.Laws.{EachFaultIsExplained, EachErrorIsExplained, NothingElseIsExplained};

/// Each fault of a file is explained by its number, under its name.
pub fn each_fault_is_explained()
    ensures { EachFaultIsExplained }
{}

/// Each error that ends a run is explained by its number, under its name: E1 to E7 and, of a query, Q1 to Q8.
pub fn each_error_is_explained()
    ensures { EachErrorIsExplained }
{}

/// What is explained is the number of a fault or an error, under its name.
pub fn nothing_else_is_explained()
    ensures { NothingElseIsExplained }
{}
