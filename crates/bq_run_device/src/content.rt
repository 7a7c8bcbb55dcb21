//! How much a run reads of a file.

ghost use Rattle.std.specs.Prelude.{◌≡◌, ◌+◌, ◌-◌, ◌^◌, ◌<◌, ◌↔◌, IsTrue};
ghost use Rattle.bq_source_lexer.specs.Reading.{max_file_bytes};

/// The file at the root that has the schema.
const SCHEMA_FILE: &[u8] = b"rules.schema";

/// The names of BUILD files.
const BUILD_FILES: [&[u8]; 2] = [b"BUILD", b"BUILD.bazel"];

/// How many bytes of a BUILD or .bzl file a run looks at: one more than it may have, which shows that it is too long (F8).
const SOURCE_BYTES: usize = 1_048_577;

/// Returns how many bytes a run looks at, at most, of the file at this path of a workspace. Of most files the paths alone
/// count, for `glob` and for labels: a load names a .bzl file, and the only other files that are read are BUILD files and
/// the schema, which may have any length.
pub fn bytes_looked_at(path: &[u8]) -> usize
    ensures source { 0 < result → result < 2 ^ 64 - 1 → result ≡ max_file_bytes + 1 }
{
    if path == SCHEMA_FILE {
        return usize::MAX;
    }
    let name = path.rsplit(|byte| *byte == b'/').next().unwrap_or(path);
    if BUILD_FILES.contains(&name) || name.ends_with(b".bzl") {
        return SOURCE_BYTES;
    }
    0
}
