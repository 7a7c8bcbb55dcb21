//! Which arguments of a call may follow one another.

#[derive(Clone, Copy, Debug, PartialEq, Eq)]
pub enum ArgumentKind {
    Positional,
    Named,
    Star,
    StarStar,
}

/// What arguments may still come.
#[derive(Clone, Copy, Debug, PartialEq, Eq)]
pub enum Allowed {
    All,
    /// No positional ones any more.
    AfterNamed,
    /// Only named ones and `**`.
    AfterStar,
    /// None.
    AfterStarStar,
}
