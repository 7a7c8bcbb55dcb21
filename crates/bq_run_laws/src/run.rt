//! What holds of runs. The functions do nothing: their contracts are the laws.

ghost use Rattle.std.specs.Prelude.{◌≡◌, ◌≢◌, ◌⊎◌, ◌++◌, [], ℕ, List, Err, true};
ghost use Rattle.bq_label.specs.declared.workspace.File.{File};
ghost use Rattle.bq_load_discover.specs.Schema.{schema_in};
ghost use Rattle.bq_query_lex.specs.declared.query_error.QueryErr.{QueryErr};
ghost use Rattle.bq_query_lex.specs.declared.query_error.QueryErr.TheVariants.{BadRegex};
ghost use Rattle.bq_query_check.specs.Checked.{IsChecked, IsWrong};
ghost use Rattle.bq_query_check.specs.Formula.{Formula};
ghost use Rattle.bq_run_write.specs.Ending.{names_nothing};
ghost use Rattle.bq_run_report.specs.Report.{Inside, fault_text};
ghost use Rattle.bq_run.specs.declared.options.Options.{Options};
ghost use Rattle.bq_run_write.specs.declared.error.RunErr.TheVariants as run;
ghost use Rattle.bq_run_write.specs.Deeds.{Run, IsSilent};
ghost use Rattle.bq_run.specs.Run.{IsRunOver, IsRunOf};
ghost use Rattle.bq_run.specs.Written.{IsBundleWithin};
ghost use Rattle.bq_run_laws.specs.Lines.{FaultLinesStandOnLines, DanglingLinesAreOfStatements};
ghost use Rattle.bq_run_laws.specs.FactsOrder.{TargetsComeFirst};
ghost use Rattle.bq_run_laws.specs.Workspaces.{PathsAreApart, GibibyteAtMost};
ghost use Rattle.bq_run_laws.specs.Order.{EndsWithWrongQuery, WritesFaultsAlone};

/// A bundle that makes no workspace is E4, whatever the query and the schema are, and nothing is written.
pub fn bundles_come_first()
    ensures { (o : Options) (input : List ℕ) (what : Run) → ((files : List File) → ¬ IsBundleWithin o.limits input files) → IsRunOf o input what → (what.end ≡ Err run.Bundle) × (what.faults ≡ []) × (what.answer ≡ []) }
{}

/// A wrong query ends the run with an error of a query, whatever the schema is. Whether a pattern is too big is not
/// said, so this is of Q1, Q2, Q3, Q7 and Q8. A wrong schema (E6) is the error only if the query isn't wrong.
pub fn queries_come_before_the_schema()
    ensures wrong { (o : Options) (files : List File) (what : Run) (why : QueryErr) → IsWrong o.query.items why → why ≢ BadRegex → IsRunOver o files what → EndsWithWrongQuery o what }
    ensures right { (o : Options) (files : List File) (what : Run) (line : ℕ) → IsRunOver o files what → what.end ≡ Err (run.Schema line) → (x : Formula) × IsChecked o.query.items x }
{}

/// A wrong schema is E6 with its first bad line, whatever the modules are, unless the query is wrong.
pub fn the_schema_comes_before_the_modules()
    ensures { (o : Options) (files : List File) (what : Run) (line : ℕ) → schema_in files ≡ Err line → IsRunOver o files what → (what.end ≡ Err (run.Schema line)) ⊎ EndsWithWrongQuery o what }
{}

/// What the modules printed comes before the lines of faults.
pub fn prints_come_first()
    ensures { (i : Inside) → (lines : List ℕ) × (fault_text i ≡ i.prints ++ lines) }
{}

/// If a query names what isn't there (Q5, Q6), the faults of the workspace are written, and no answer; with every other
/// error nothing is.
pub fn errors_write_no_answer()
    ensures unanswered { (o : Options) (files : List File) (what : Run) (why : QueryErr) → IsRunOver o files what → what.end ≡ Err (run.Query why) → names_nothing why ≡ true → WritesFaultsAlone o files what }
    ensures silent { (o : Options) (files : List File) (what : Run) → IsRunOver o files what → IsSilent what.end → (what.faults ≡ []) × (what.answer ≡ []) }
{}

/// No fault line of a run names line 0. That of a label that names no target (F79) names a BUILD file, and the line of one of its
/// top-level statements.
pub fn fault_lines_stand_on_lines()
    ensures lines { FaultLinesStandOnLines }
    ensures dangling { DanglingLinesAreOfStatements }
{}

/// Of the files of a workspace no path is a directory of another or is there twice, and none has a segment that is empty, `.` or `..`.
pub fn paths_are_apart()
    ensures { PathsAreApart }
{}

/// A bundle has at most 2^30 bytes; no text is refused as too long that has no more.
pub fn bundles_have_a_gibibyte_at_most()
    ensures { (text : List ℕ) (files : List File) → GibibyteAtMost text files }
{}

/// What a run that is asked for facts writes, if it writes any, is a line for each object: first one with the version of the program, its limits
/// and how many of each kind follow; then those of targets, then those of modules, then those of faults, by their first keys, `target`, `module`
/// and `fault`. By `values_read_back` and `one_reading` of bq_package_values a reader finds these objects in that order, and no others.
pub fn targets_come_before_modules_and_faults()
    ensures { TargetsComeFirst }
{}
