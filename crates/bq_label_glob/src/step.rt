//! The state of matching, which tries only the last element anew that takes any number of elements.

/// Where matching goes on when what follows the last such element fails: the place after it in the pattern, and the place in
/// the text at which the rest of the pattern was tried last.
#[derive(Clone, Copy)]
pub(crate) struct Retry {
    pub(crate) pattern: usize,
    pub(crate) text: usize,
}

/// What the first elements of the rest of a pattern and of a text say, with the places after them.
#[derive(Clone, Copy)]
pub(crate) enum Step {
    /// The pattern's element takes any number of elements.
    Many(usize),
    /// It takes the text's element.
    One(usize, usize),
    /// Nothing is left of either.
    End,
    /// The rest of the pattern doesn't match the rest of the text.
    Fail,
}
