//! What fronts are, said of the texts, statements and labels of files. The functions do nothing: their contracts are
//! the laws.

ghost use Rattle.bq_load_front.specs.FileLaws.{ResolvedFilesOfTexts, FaultsOfFiles, FilesOfTexts, FrontsOfLabels, LoadsOfFiles, LoadedFiles};
ghost use Rattle.bq_load_front.specs.Agreement.{FrontsAgree, LoadsAgree};

/// A text is that of a file exactly if it reads as tokens, these as the file's statements, and no rule of names and flow is broken;
/// its fault is that of its tokens, else that of its statements, else the first of these rules that it breaks.
pub fn files_of_texts()
    ensures { FilesOfTexts }
{}

/// What the file of a label is, by the grammar and the rules of names, is one thing, and `parsed_of` reads it.
pub fn fronts_of_labels()
    ensures { FrontsOfLabels }
{}

/// A text has a resolved file exactly if it reads as tokens, these as statements, and the names of these stand for
/// something; the file is what they resolve to.
pub fn resolved_files_of_texts()
    ensures { ResolvedFilesOfTexts }
{}

/// A file's fault is that of its tokens; else that of its statements; else that of its names.
pub fn faults_of_files()
    ensures { FaultsOfFiles }
{}

/// If a file has labels of loads, there is one for each load, in their order, and it is that of the file that the load
/// names; if it has the fault of a load, each load before that one names a file, and that one doesn't, for this reason.
pub fn loads_of_files()
    ensures { LoadsOfFiles }
{}

/// Each file that a module loads is named by a load in the module's package.
pub fn loaded_files()
    ensures { LoadedFiles }
{}

/// What the resolver makes of a file is what the file is, said by names: what its statements resolve to and the files that
/// its loads name, or the same fault.
pub fn fronts_agree()
    ensures fronts { FrontsAgree }
    ensures loads { LoadsAgree }
{}
