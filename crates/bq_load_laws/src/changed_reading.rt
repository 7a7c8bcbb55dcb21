//! What holds of files that are read. The functions do nothing: their contracts are the laws.

ghost use Rattle.bq_load_laws.specs.FileReadings.{FilesAreThereByPaths, FrontsAreByText};

/// Whether a label names a file depends on the paths of the files alone.
pub fn files_are_there_by_paths()
    ensures { FilesAreThereByPaths }
{}

/// What the file of a label reads as depends on its own text, on the names of the rules, on the packages, and on which
/// labels of .bzl files name files.
pub fn fronts_are_by_text()
    ensures { FrontsAreByText }
{}
