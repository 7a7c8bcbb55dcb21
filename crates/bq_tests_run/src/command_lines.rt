//! What command lines ask for. The texts that refuse others are in the rows in `tests/rows`.

use bq_base::Limits;
use bq_command_line::{Asked, Wanted, Words, WorkspacePlace, words_of};
use bq_run::OutputForm;
use bq_run_explain::{Explanation, NumberMeaning};
use std::alloc::{AllocError, Global};

/// What words ask for: a query with a word for where it comes from, where the workspace is, the form of the answer, and the most workers
/// and steps.
type Ask = (
    &'static str,
    &'static str,
    &'static str,
    OutputForm,
    u32,
    u64,
);

/// The words after the program's name.
fn words_after(alloc: Global, words: &[&str]) -> Result<Vec<String>, AllocError> {
    let mut all = Vec::new(alloc);
    for word in words {
        all.push(String::from_str(alloc, word)?)?;
    }
    Ok(all)
}

fn asks(words: &Words, how: &str, query: &str) -> bool {
    match words.wanted {
        Wanted::Answer => how == "answer" && words.options.query.as_slice() == query.as_bytes(),
        Wanted::Answers(file) => how == "answers" && file == query,
        Wanted::Facts(Some(of)) => how == "facts of" && of == query,
        Wanted::Facts(None) => how == "all facts" && query.is_empty(),
    }
}

fn place_of<'a>(words: &Words<'a>) -> &'a str {
    match words.place {
        WorkspacePlace::Input => "standard input",
        WorkspacePlace::Bundle(file) => file,
        WorkspacePlace::Directory(directory) => directory,
    }
}

fn is_form(found: OutputForm, wanted: OutputForm) -> bool {
    match found {
        OutputForm::Label => matches!(wanted, OutputForm::Label),
        OutputForm::LabelKind => matches!(wanted, OutputForm::LabelKind),
    }
}

fn are_taken(words: &Words, taken: &Ask) -> bool {
    let (how, query, place, form, jobs, steps) = *taken;
    let options = &words.options;
    asks(words, how, query)
        && place_of(words) == place
        && is_form(options.output, form)
        && options.jobs == jobs
        && options.limits.steps == steps
}

fn are_same(found: &Limits, wanted: &Limits) -> bool {
    found.files == wanted.files
        && found.directories == wanted.directories
        && found.modules == wanted.modules
        && found.edges == wanted.edges
        && found.bundle_bytes == wanted.bundle_bytes
        && found.steps == wanted.steps
}

fn name_of(explanation: &Explanation) -> &'static str {
    match explanation.subject {
        NumberMeaning::Fault(kind) => kind.name(),
        NumberMeaning::Error(_, name) => name,
    }
}

/// Whether words ask for this, or for the explanation of this name.
fn ask_for(alloc: Global, words: &[&str], taken: &Ask) -> Result<bool, AllocError> {
    let words = words_after(alloc, words)?;
    let asked = words_of(alloc, &words);
    let found = match &asked {
        Ok(Asked::Answer(words)) => are_taken(words, taken),
        Ok(Asked::Explanation(explanation)) => {
            taken.0 == "explain" && name_of(explanation) == taken.1
        }
        Err(_) => false,
    };
    drop(asked);
    drop(words);
    Ok(found)
}

/// Whether words ask for a run with these limits.
fn have_limits(alloc: Global, words: &[&str], limits: &Limits) -> Result<bool, AllocError> {
    let words = words_after(alloc, words)?;
    let asked = words_of(alloc, &words);
    let found = match &asked {
        Ok(Asked::Answer(words)) => are_same(&words.options.limits, limits),
        Ok(Asked::Explanation(_)) | Err(_) => false,
    };
    drop(asked);
    drop(words);
    Ok(found)
}

#[test]
fn limits_are_read(rt: HostRuntime) -> Result<(), AllocError> {
    for (words, limits) in LIMITS {
        assert!(rt;
            have_limits(rt.alloc(), words, limits)?,
            "{} files",
            limits.files
        );
    }
    Ok(())
}

#[test]
fn are_read(rt: HostRuntime) -> Result<(), AllocError> {
    for (words, taken) in TAKEN {
        assert!(rt; ask_for(rt.alloc(), words, taken)?, "{}", taken.1);
    }
    Ok(())
}

const FORM: OutputForm = OutputForm::Label;

const STEPS: u64 = 1_000_000;

const STANDARD: Limits = Limits {
    files: 65_536,
    directories: 1_048_576,
    modules: 16_384,
    edges: 262_144,
    bundle_bytes: 1_073_741_824,
    steps: STEPS,
};

const LARGE: Limits = Limits {
    files: 16_777_216,
    directories: 16_777_216,
    modules: 4_194_304,
    edges: 67_108_864,
    bundle_bytes: 68_719_476_736,
    steps: STEPS,
};

/// Words, and the limits of the run that they ask for.
const LIMITS: &[(&[&str], Limits)] = &[
    (&["bq", "//a:x"], STANDARD),
    (&["bq", "--", "--large"], STANDARD),
    (&["bq", "--facts"], STANDARD),
    (&["bq", "--large", "//a:x"], LARGE),
    (&["bq", "//a:x", "--dir", ".", "--large"], LARGE),
    (&["bq", "--bundle", "b.txt", "--large", "//a:x"], LARGE),
    (&["bq", "--large", "--queries", "q.txt"], LARGE),
    (&["bq", "--facts", "--large"], LARGE),
    (
        &["bq", "--large", "--max-steps", "7", "//a:x"],
        Limits { steps: 7, ..LARGE },
    ),
];

/// Words, and what they ask for.
const TAKEN: &[(&[&str], Ask)] = &[
    (
        &["bq", "//a:x"],
        ("answer", "//a:x", "standard input", FORM, 4, STEPS),
    ),
    (
        &["bq", "//a:x", "--jobs", "7"],
        ("answer", "//a:x", "standard input", FORM, 7, STEPS),
    ),
    (
        &[
            "bq",
            "--jobs",
            "1",
            "--max-steps",
            "1",
            "--output",
            "label",
            "--dir",
            ".",
            "//a:x",
        ],
        ("answer", "//a:x", ".", FORM, 1, 1),
    ),
    (
        &[
            "bq",
            "--jobs=256",
            "--max-steps=1000000000",
            "--output=label_kind",
            "--dir=/a/b",
            "//a:x",
        ],
        (
            "answer",
            "//a:x",
            "/a/b",
            OutputForm::LabelKind,
            256,
            1000000000,
        ),
    ),
    (
        &["bq", "--", "--jobs"],
        ("answer", "--jobs", "standard input", FORM, 4, STEPS),
    ),
    (
        &["bq", "-"],
        ("answer", "-", "standard input", FORM, 4, STEPS),
    ),
    (
        &["bq", "--bundle", "b.txt", "//a:x"],
        ("answer", "//a:x", "b.txt", FORM, 4, STEPS),
    ),
    (
        &["bq", "--queries", "q.txt"],
        ("answers", "q.txt", "standard input", FORM, 4, STEPS),
    ),
    (
        &["bq", "--queries", "-", "--dir", ".", "--jobs", "2"],
        ("answers", "-", ".", FORM, 2, STEPS),
    ),
    (
        &["bq", "--queries", "-", "--bundle", "b.txt"],
        ("answers", "-", "b.txt", FORM, 4, STEPS),
    ),
    (
        &["bq", "--facts"],
        ("all facts", "", "standard input", FORM, 4, STEPS),
    ),
    (
        &["bq", "--facts", "//a:x", "--dir", ".", "--jobs", "1"],
        ("facts of", "//a:x", ".", FORM, 1, STEPS),
    ),
    (
        &["bq", "--explain", "F47"],
        ("explain", "Frozen", "", FORM, 0, 0),
    ),
    (
        &["bq", "--explain", "Q5"],
        ("explain", "NoSuchTarget", "", FORM, 0, 0),
    ),
];
