//! The outcome of a module.

/// The outcome of loading a module: its value, or why it has none.
#[derive(Drop)]
pub enum Outcome<V, F> {
    /// The module's value.
    Loaded(V),
    /// Its own fault.
    Faulty(F),
    /// Loads lead from it to a cycle; this is its first load that is cyclic.
    Cyclic(u32),
    /// It is too deep; this is its first load at which a path of as many edges starts as there may be.
    TooDeep(u32),
    /// This is its first load without a value.
    LoadFailed(u32),
}
