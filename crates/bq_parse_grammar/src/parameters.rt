//! Which parameters of a function may follow one another.

#[derive(Clone, Copy, Debug, PartialEq, Eq)]
pub enum ParameterKind {
    Plain,
    Default,
    BareStar,
    Star,
    StarStar,
}

/// What parameters may still come.
#[derive(Clone, Copy, Debug, PartialEq, Eq)]
pub enum AllowedParameters {
    All,
    /// No plain ones before a `*`.
    AfterDefault,
    /// A name has to come.
    AfterBareStar,
    /// No further `*`.
    AfterStar,
    /// None.
    AfterStarStar,
}
