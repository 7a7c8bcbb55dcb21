//! The functions that a host carries out (Bazel, Build Encyclopedia, "Functions"): the build functions, and the rules of a schema.

ghost use Rattle.std.specs.Prelude.{◌≡◌, option_copied};
ghost use Rattle.bq_predeclared.specs.HostFunctions.{host_function_name};

/// A function that a host carries out.
#[derive(Clone, Copy, Debug, PartialEq, Eq)]
pub enum HostFunction {
    Glob,
    PackageName,
    Package,
    Licenses,
    ExportsFiles,
    PackageGroup,
    /// A rule of the schema, by its place there.
    Rule(u32),
}

impl HostFunction {
    /// The name of a build function; none for a rule, whose name is the schema's.
    pub fn name(self) -> Option<&'static [u8]>
        ensures { option_copied result ≡ host_function_name self }
    {
        match self {
            HostFunction::Glob => Some(b"glob"),
            HostFunction::PackageName => Some(b"package_name"),
            HostFunction::Package => Some(b"package"),
            HostFunction::Licenses => Some(b"licenses"),
            HostFunction::ExportsFiles => Some(b"exports_files"),
            HostFunction::PackageGroup => Some(b"package_group"),
            HostFunction::Rule(_) => None,
        }
    }
}
