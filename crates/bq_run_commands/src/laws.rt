//! What the edits that are listed make, how their commands are read, and what a text without commands asks for. The functions do
//! nothing: their contracts are the laws.

ghost use Rattle.bq_run_commands.specs.Laws.{CommandsAreReadBack, EachEditIsNeeded, EachPathHasOneEdit, EditsMakeTheFiles, PlainTextsAskQueries};

/// The edits that are listed of two looks turn the files of the first into the workspace of the second.
pub fn edits_make_the_files()
    ensures { EditsMakeTheFiles }
{}

/// A file that is put is new or has other bytes; one that is removed was there, and is gone.
pub fn each_edit_is_needed()
    ensures { EachEditIsNeeded }
{}

/// No path has two edits, so their order makes no difference.
pub fn each_path_has_one_edit()
    ensures { EachPathHasOneEdit }
{}

/// The commands of edits, one after another, are read back as these edits, whatever comes after them: where each is of a path,
/// its content within the limit, and its line no longer than a query may be.
pub fn commands_are_read_back()
    ensures { CommandsAreReadBack }
{}

/// A text of which no line begins with `=== ` asks for the answers to its queries, in order, and for nothing else: the lines that
/// are not empty and don't begin with `#`.
pub fn plain_texts_ask_queries()
    ensures { PlainTextsAskQueries }
{}
