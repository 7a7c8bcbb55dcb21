//! Limits of a run.

ghost use Rattle.std.specs.Prelude.{◌≡◌};
ghost use Rattle.bq_base.specs.Limits.{AreBounded, large_with, standard, standard_with};

/// How large a workspace may be, and how many steps each of its modules may take. Calls that take limits have the
/// condition that files, modules and edges are below 2^31, so that they can be numbered (`AreBounded`).
#[derive(Clone, Copy)]
pub struct Limits {
    /// The most files of a workspace.
    pub files: usize,
    /// The most directories that are read for a workspace in a directory, each once for each way to it.
    pub directories: u32,
    /// The most modules of a load graph.
    pub modules: usize,
    /// The most edges of a load graph. All loads of one file by another are one.
    pub edges: usize,
    /// The most bytes of a bundle.
    pub bundle_bytes: usize,
    /// The most steps that the evaluation of a module takes.
    pub steps: u64,
}

impl Limits {
    /// Returns the limits of a run that is asked for no others.
    pub fn standard() -> Limits
        ensures value { result ≡ standard }
        ensures bounded { AreBounded result }
    {
        Limits::standard_with(1_000_000)
    }

    /// Returns the standard limits, but for the steps.
    pub fn standard_with(steps: u64) -> Limits
        ensures value { result ≡ standard_with steps }
        ensures steps { result.steps ≡ steps }
        ensures bounded { AreBounded result }
    {
        Limits {
            files: 65_536,
            directories: 1_048_576,
            modules: 16_384,
            edges: 262_144,
            bundle_bytes: 1_073_741_824,
            steps,
        }
    }

    /// Returns the limits of large workspaces, but for the steps. Memory soon ends before them.
    pub fn large_with(steps: u64) -> Limits
        ensures value { result ≡ large_with steps }
        ensures steps { result.steps ≡ steps }
        ensures bounded { AreBounded result }
    {
        Limits {
            files: 16_777_216,
            directories: 16_777_216,
            modules: 4_194_304,
            edges: 67_108_864,
            bundle_bytes: 68_719_476_736,
            steps,
        }
    }
}
