//! What holds of resolved files. The functions do nothing: their contracts are the laws.

ghost use Rattle.bq_eval_spec.specs.Primitives.{Primitives};
ghost use Rattle.bq_eval_laws.specs.FileSoundness.{EachResolvedFileIsSound};
ghost use Rattle.bq_eval_laws.specs.Stuck.{NeverStuck, ResolvedFilesRunUnstuck};

/// In a file that is parsed and resolved there is nothing that ends an evaluation by itself: nothing that the language
/// leaves out, no `for` over another variable than a name, no name that refers to nothing, and no tree that is too deep.
pub fn each_resolved_file_is_sound()
    ensures { EachResolvedFileIsSound }
{}

/// Files that resolve don't get stuck: whatever the steps, operators, lists and dicts, walks and built-in functions mean, a file
/// that was parsed and resolved never comes to what the rules have for other trees alone.
pub fn resolved_files_do_not_get_stuck<S>()
    ensures { (m : Primitives S) → NeverStuck m → ResolvedFilesRunUnstuck m }
{}
