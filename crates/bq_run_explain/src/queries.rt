//! The errors of queries, Q1 to Q8: docs/QUERY.md, "Wrong queries".

ghost use Rattle.std.specs.Prelude.{◌≡◌, option_map};
ghost use Rattle.bq_run_explain.specs.Numbers.{queries, entry_of, first_entry};

use crate::explanation::{ErrorEntry, Explanation, first_numbered};

const QUERIES: [ErrorEntry; 8] = [
    ErrorEntry {
        number: "Q1",
        name: "Syntax",
        text: r#"The text is not a query: a bracket or an operand is missing, or more than 64
parentheses and lets are open at one place.

    $ bq 'deps(//...' < /dev/null
    bq: Q1 Syntax

Compare it with the grammar in docs/QUERY.md. The shell needs quotes around a
query with parentheses; a word with other signs than `* / @ . - _ : $ ~ [ ]`
needs quotes of its own inside it.
"#,
    },
    ErrorEntry {
        number: "Q2",
        name: "UnknownFunction",
        text: r#"There is no function of this name.

    $ bq 'depends(//...)' < /dev/null
    bq: Q2 UnknownFunction depends

The functions are deps, rdeps, allpaths, kind, filter, attr and labels.
"#,
    },
    ErrorEntry {
        number: "Q3",
        name: "LeftOut",
        text: r#"A function of Bazel's query language, or a form of words, that bq leaves out:
somepath, some, allrdeps, tests, buildfiles, loadfiles, siblings, visible,
executables and same_pkg_direct_rdeps; words that begin with neither `//` nor
`@`, and those that begin with `@@`.

    $ bq 'deps(:x)' < /dev/null
    bq: Q3 LeftOut :x

Write labels in full, such as `//package:x`. `allpaths` serves for somepath, and
`rdeps(//..., x)` for allrdeps; `kind("_test rule", x)` finds tests.
"#,
    },
    ErrorEntry {
        number: "Q4",
        name: "BadRegex",
        text: r#"The pattern of a `kind`, `filter` or `attr` is not a regular expression.

    $ bq 'filter("(", //...)' < /dev/null
    bq: Q4 BadRegex

Put a backslash before a sign that means itself: `\(`. Look-around and back
references are left out.
"#,
    },
    ErrorEntry {
        number: "Q5",
        name: "NoSuchTarget",
        text: r#"The query names a target that its package does not have.

    === BUILD
    filegroup(name = "x")

    $ bq //:y
    bq: Q5 NoSuchTarget //:y

List the package by `//:*`. If the package has a fault, which is printed before
this line, it has no targets: correct that first. A source file is a target if a
target of its package names it.
"#,
    },
    ErrorEntry {
        number: "Q6",
        name: "NoSuchPackage",
        text: r#"The query names a package that is not there.

    === a/BUILD

    $ bq //b:all
    bq: Q6 NoSuchPackage //b:all

A package is a directory with a file BUILD or BUILD.bazel. With `--dir` paths
count from DIR, and directories that `.bazelignore` names are left out. A
package of repository `r` lies below `external/r/`.
"#,
    },
    ErrorEntry {
        number: "Q7",
        name: "UnboundVariable",
        text: r#"A variable `$v` that no `let` around it binds.

    $ bq 'deps($v)' < /dev/null
    bq: Q7 UnboundVariable v

Bind it: `let v = //... in deps($v)`. In double quotes the shell replaces `$v`
itself: use single ones.
"#,
    },
    ErrorEntry {
        number: "Q8",
        name: "Arguments",
        text: r#"A function has too few or too many arguments, or one of another kind: a number
is 1 to 9 digits, a pattern or the name of an attribute is one word. Or a word
begins with `//` or `@` and is not a target pattern.

    $ bq 'deps(//..., x)' < /dev/null
    bq: Q8 Arguments

docs/QUERY.md, "Functions", has the arguments of each.
"#,
    },
];

/// Looks up Q1 to Q8.
pub fn in_queries(number: &[u8]) -> Option<Explanation>
    ensures { option_map entry_of result ≡ first_entry number.now queries }
{
    first_numbered(&QUERIES, number)
}
