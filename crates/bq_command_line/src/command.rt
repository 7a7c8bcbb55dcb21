//! The command line as clap takes it: its options, and what `--help` and `--version` print.

use bq_run::MAX_JOBS;
use clap::builder::ValueParser;
use clap::{Arg, ArgAction, Command};
use std::alloc::{AllocError, Global};

/// How the program is called. `--queries` takes the place of a query; one is needed unless `--queries` or `--facts` is there.
const USAGE: &str =
    "bq [OPTIONS] <QUERY>\n       bq [OPTIONS] --queries <FILE>\n       bq [OPTIONS] --facts [QUERY]";

/// What `--help` prints after the options.
const NOTES: &str =
    r#"Without --dir and --bundle the workspace is read from standard input, as a bundle: for each file a line
`=== PATH`, and then the file's bytes. The answer goes to standard output, a target a line, sorted.
What files print, and the faults of files, go to standard error.

With --dir, .git, directories in .bazelignore and links bazel-* at the root are left out.

With --queries the workspace is loaded once for all the queries of a file, one a line. For each query
standard output gets a line `=== STATUS LINES QUERY`, at once, and then that many lines: the answer, or
the error. Between queries `=== put COUNT PATH`, with COUNT bytes and a newline after it, and
`=== remove PATH` edit files; `=== reload` loads the workspace with these edits, and with --dir as the
directory is then, and is answered by its faults; `=== facts [QUERY]` is answered as --facts is.

With --facts standard output gets JSON, an object a line: one that says how many follow; each target of
the query, or each target if there is none, with its kind, file, line, attributes, the labels that it
names and direct dependencies; each BUILD and .bzl file with its loads; and each fault.

Examples:
  bq --dir . 'deps(//some/package:target)'
  bq --dir . 'kind("_test rule", rdeps(//..., //some/package:file.c))'
  printf '=== a/BUILD\nfilegroup(name = "x", srcs = ["s.txt"])\n' | bq 'deps(//a:x)'
  bq --dir . --queries queries.txt
  bq --dir . --facts 'kind("_test rule", //...)'
  bq --explain F47

Exit status:
  0  the query was answered, and no file has a fault
  2  the arguments, the bundle, the query or the schema was refused, or there are too many modules
  3  the query was answered, and standard error lists faults
  4  out of memory
  5  reading the input or writing the output failed"#;

/// The version of the program. The man page and the packages take it from this line (`dev/release`).
pub const VERSION: &str = "1.9.4";

pub const MAX_STEPS: u64 = 1_000_000_000;

/// How an argument is written.
#[derive(Clone, Copy)]
enum Shape {
    /// By its name, and with a value.
    Option,
    /// By its name alone.
    Flag,
    /// As a value without a name.
    Value,
}

#[derive(Clone, Copy)]
struct CommandArgument {
    /// What it is read back by, and its name.
    id: &'static str,
    shape: Shape,
    /// What stands for its value in help.
    value: &'static str,
    help: &'static str,
    takes: ValueParser<'static>,
    /// The value of an argument that is left out, if it has one then.
    default: &'static [&'static str],
    /// What can't be used beside it.
    excludes: &'static [&'static str],
    excludes_all: bool,
    /// If it isn't empty, the argument is needed unless one of these is used.
    needed_unless: &'static [&'static str],
}

/// An option that takes any text and may be left out.
const OPTION: CommandArgument = CommandArgument {
    id: "",
    shape: Shape::Option,
    value: "FILE",
    help: "",
    takes: ValueParser::String,
    default: &[],
    excludes: &[],
    excludes_all: false,
    needed_unless: &[],
};

/// The arguments, in the order of help.
const ARGUMENTS: &[CommandArgument] = &[
    CommandArgument {
        id: "jobs",
        value: "N",
        help: "Number of workers that load modules, 1 to 256",
        takes: ValueParser::Signed(1, MAX_JOBS as i64),
        default: &["4"],
        ..OPTION
    },
    CommandArgument {
        id: "output",
        value: "FORM",
        help: "Output format of each target",
        takes: ValueParser::Names(&["label", "label_kind"]),
        default: &["label"],
        ..OPTION
    },
    CommandArgument {
        id: "max-steps",
        value: "N",
        help: "Step limit for evaluating one module, 1 to 1000000000",
        takes: ValueParser::Unsigned(1, MAX_STEPS),
        default: &["1000000"],
        ..OPTION
    },
    CommandArgument {
        id: "large",
        shape: Shape::Flag,
        value: "",
        help: "Allow more than 65536 files and 16384 modules",
        takes: ValueParser::Bool,
        ..OPTION
    },
    CommandArgument {
        id: "dir",
        value: "DIR",
        help: "Directory that holds the workspace",
        ..OPTION
    },
    CommandArgument {
        id: "bundle",
        help: "File that holds the workspace, as a bundle",
        excludes: &["dir"],
        ..OPTION
    },
    CommandArgument {
        id: "queries",
        help: "Answer the queries of a file, one a line; - is standard input",
        excludes: &["query"],
        ..OPTION
    },
    CommandArgument {
        id: "facts",
        shape: Shape::Flag,
        value: "",
        help: "Print JSON instead of labels: a line for each target, file and fault",
        takes: ValueParser::Bool,
        excludes: &["queries", "output"],
        ..OPTION
    },
    CommandArgument {
        id: "explain",
        value: "NUMBER",
        help: "Explain a fault or error, such as F47, Q5 or E4, and exit",
        excludes_all: true,
        ..OPTION
    },
    CommandArgument {
        id: "query",
        shape: Shape::Value,
        value: "QUERY",
        help: "The query, such as //package:name or deps(//...)",
        needed_unless: &["queries", "facts"],
        ..OPTION
    },
];

/// Declares an argument, but for those that it names.
fn declared<'a>(alloc: Global, argument: &CommandArgument) -> Arg<'a> {
    let arg = Arg::new(alloc, argument.id)
        .help(argument.help)
        .value_parser(argument.takes)
        .exclusive(argument.excludes_all);
    match argument.shape {
        Shape::Flag => arg.long(argument.id).action(ArgAction::SetTrue),
        Shape::Option => arg
            .long(argument.id)
            .value_name(argument.value)
            .default_values(argument.default),
        Shape::Value => arg.value_name(argument.value),
    }
}

// PROOF: each call that hands on an argument or the command, of many parts, costs seconds: so there is one of each, in a loop over a table
fn arguments<'a>(alloc: Global) -> Result<Vec<Arg<'a>>, AllocError> {
    let mut arguments = Vec::new(alloc);
    for argument in ARGUMENTS {
        let declared = declared(alloc, argument)
            .conflicts_with_all(argument.excludes)?
            .required_unless_present_any(argument.needed_unless)?;
        arguments.push(declared)?;
    }
    Ok(arguments)
}

/// Makes the command, but for its arguments.
fn named<'a>(alloc: Global) -> Command<'a> {
    Command::new(alloc, "bq")
        .version(VERSION)
        .about("Answers a query over the targets of a workspace of BUILD files")
        .override_usage(USAGE)
        .after_help(NOTES)
}

/// Makes the command, before it has seen any words.
pub fn command<'a>(alloc: Global) -> Result<Command<'a>, AllocError> {
    let arguments = arguments(alloc)?;
    named(alloc).args(arguments)
}
