//! What holds of resolved files. The functions do nothing: their contracts are the laws.

ghost use Rattle.bq_resolve_laws.specs.Depths.Nesting.{NoFileIsTooDeep};

/// A file whose statements are no deeper than those that are parsed has no fault F11 when it is resolved.
pub fn no_file_is_too_deep()
    ensures { NoFileIsTooDeep }
{}
