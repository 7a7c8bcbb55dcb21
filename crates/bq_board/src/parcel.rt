//! What modules hand to the modules that load them.
ghost use Rattle.std.specs.Prelude.{ℕ};

/// A value that a module hands to the modules that load it, such as its outcome. One is posted for each edge.
pub trait Parcel: Send + Drop {
    /// What decides which values belong to which modules, as a workspace does for outcomes.
    type Base;

    // To which modules a value belongs, by a base.
    ghost belongs: { Self.Base → ℕ → Self → Type 0 };
}
