//! The errors of runs, E1 to E7: docs/FORMATS.md, "Error lines".

ghost use Rattle.std.specs.Prelude.{◌≡◌, option_map};
ghost use Rattle.bq_run_explain.specs.Numbers.{runs, entry_of, first_entry};

use crate::explanation::{ErrorEntry, Explanation, first_numbered};

const RUNS: [ErrorEntry; 6] = [
    ErrorEntry {
        number: "E1",
        name: "Memory",
        text: r#"The system refused memory. Nothing has been written, and the exit status is 4.

    $ (echo '=== a'; yes) | (ulimit -v 100000; bq //...)
    bq: E1 Memory

Give the process more memory, or the workspace in parts (docs/SCALE.md). With
`--dir` only BUILD and .bzl files are read; in a bundle all other files may be
empty.
"#,
    },
    ErrorEntry {
        number: "E2",
        name: "Read",
        text: r#"Reading failed: of standard input, or with `--dir` of the directory, of one in
it, or of a file whose bytes are read. A name in it that is not UTF-8 is one
reason.
The exit status is 5.

    $ bq --dir /none //...
    bq: E2 Read

Check that the directory exists and may be read. A line in `.bazelignore` at its
root leaves a directory out.
"#,
    },
    ErrorEntry {
        number: "E3",
        name: "Write",
        text: r#"Writing the answer or the faults failed: the disk is full, or the reader of a
pipe has ended. The exit status is 5.

    === BUILD
    filegroup(name = "x")

    $ bq //... > /dev/full
    bq: E3 Write

What was written is a beginning of the text. Make room, and run it again.
"#,
    },
    ErrorEntry {
        number: "E4",
        name: "Bundle",
        text: r#"Standard input is not a bundle. A bundle has for each file a line `=== PATH`, and
then the file's bytes (docs/FORMATS.md). Bytes before the first such line are
refused, and so are a path that is not valid, comes twice or is a directory of
another, more than 65,536 files, and more than 1,073,741,824 bytes. With `--dir`
it says that the directory has more files than that, or more bytes in those that
are read, or more than 1,048,576 directories, each counted once for each path of
links to it. A `.bazelignore` has at most 1,048,576 bytes. With `--large`
the limits are 16,777,216 files and directories, and 68,719,476,736 bytes.

    $ echo 'filegroup(name = "x")' | bq //...
    bq: E4 Bundle

`bzlq bundle TREE` writes the bundle of a directory. If there are too many files,
add `--large`, or leave directories that don't matter out by `.bazelignore`.
"#,
    },
    ErrorEntry {
        number: "E6",
        name: "Schema",
        text: r#"A line of `rules.schema` is wrong; the line follows. Nothing has been loaded.

    === rules.schema
    attr srcs label_list

    $ bq //...
    bq: E6 Schema 1

`bq --explain F80` says what a line may be. Here the attribute comes before any
rule.
"#,
    },
    ErrorEntry {
        number: "E7",
        name: "TooManyModules",
        text: r#"The workspace has more than 16,384 BUILD files and loaded .bzl files, or more
than 262,144 loads of one by another; with `--large`, more than 4,194,304 files
or 67,108,864 loads.

    $ for n in $(seq 16385); do echo "=== $n/BUILD"; done | bq //...
    bq: E7 TooManyModules

Add `--large`, or ask about a part of the workspace: leave directories out by
`.bazelignore`, or run one bundle for each part (docs/SCALE.md).
"#,
    },
];

/// Looks up E1 to E7, but for those of queries.
pub fn in_runs(number: &[u8]) -> Option<Explanation>
    ensures { option_map entry_of result ≡ first_entry number.now runs }
{
    first_numbered(&RUNS, number)
}
