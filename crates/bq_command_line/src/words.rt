//! What the words of a command line ask for.

ghost use Rattle.std.specs.Prelude.{◌≡◌, IfOk};
ghost use Rattle.bq_base.specs.Limits.{AreBounded};
ghost use Rattle.bq_run.specs.Run.{IsInRange};
ghost use Rattle.bq_command_line.specs.Words.{AreLimitsFor, AreStandardOrLarge};
ghost use Rattle.bq_command_line.specs.declared.words.Words.{Words};
ghost use Rattle.bq_command_line.specs.declared.words.Asked.TheVariants.{Answer};

use crate::command::{MAX_STEPS, command};
use bq_base::Limits;
use bq_run::{MAX_JOBS, Options, OutputForm};
use bq_run_explain::{Explanation, explain};
use clap::error::ErrorKind;
use clap::{ArgMatches, Error};
use std::alloc::{AllocError, Global};

const DEFAULT_JOBS: u32 = 4;

/// Why words are refused that name no place but standard input, and take the queries from there too.
const INPUT_TWICE: &str =
    "'--queries -' reads the queries from standard input: '--dir <DIR>' or '--bundle <FILE>' has to say where the workspace is";

/// Where a workspace is.
#[derive(Clone, Copy)]
pub enum WorkspacePlace<'a> {
    /// On standard input, as a bundle.
    Input,
    /// In a file, as a bundle.
    Bundle(&'a str),
    Directory(&'a str),
}

impl WorkspacePlace<'_> {
    /// Returns whether the workspace is read from standard input.
    pub fn is_input(self) -> bool {
        matches!(self, WorkspacePlace::Input)
    }
}

/// What is asked of a workspace.
#[derive(Clone, Copy)]
pub enum Wanted<'a> {
    /// The answer to the query of the options.
    Answer,
    /// The answers to the queries of a file, `-` for standard input; the options have no query.
    Answers(&'a str),
    /// The facts behind the answer to a query, or all of them.
    Facts(Option<&'a str>),
}

impl Wanted<'_> {
    /// Returns whether queries are read from standard input.
    pub fn is_input(self) -> bool {
        match self {
            Wanted::Answers(file) => file == "-",
            Wanted::Answer | Wanted::Facts(_) => false,
        }
    }
}

/// What is asked of a workspace, and where it is.
#[derive(Drop)]
pub struct Words<'a> {
    pub options: Options,
    pub place: WorkspacePlace<'a>,
    pub wanted: Wanted<'a>,
}

/// What the words ask for.
#[derive(Drop)]
pub enum Asked<'a> {
    Answer(Words<'a>),
    Explanation(Explanation),
}

fn place_of<'a>(matches: &ArgMatches<'a>) -> WorkspacePlace<'a> {
    if let Some(directory) = matches.get_str("dir") {
        return WorkspacePlace::Directory(directory);
    }
    match matches.get_str("bundle") {
        Some(file) => WorkspacePlace::Bundle(file),
        None => WorkspacePlace::Input,
    }
}

fn wanted_of<'a>(matches: &ArgMatches<'a>) -> Wanted<'a> {
    if matches.get_flag("facts") {
        return Wanted::Facts(matches.get_str("query"));
    }
    match matches.get_str("queries") {
        Some(file) => Wanted::Answers(file),
        None => Wanted::Answer,
    }
}

/// Returns how large the workspace may be: the large limits with `--large`, else the standard ones.
fn limits_of(matches: &ArgMatches, steps: u64) -> Limits
    ensures value { AreLimitsFor matches.now result }
    ensures steps { result.steps ≡ steps }
    ensures bounded { AreBounded result }
{
    if matches.get_flag("large") {
        Limits::large_with(steps)
    } else {
        Limits::standard_with(steps)
    }
}

fn options_of(alloc: Global, matches: &ArgMatches) -> Result<Options, AllocError>
    ensures in_range { IfOk result IsInRange }
    ensures limits { IfOk result (λ o. AreLimitsFor matches.now o.limits) }
{
    let jobs = matches.get_one::<u32>("jobs").unwrap_or(DEFAULT_JOBS);
    let standard = Limits::standard();
    let max_steps = matches
        .get_one::<u64>("max-steps")
        .unwrap_or(standard.steps);
    let output = match matches.get_str("output") {
        Some("label_kind") => OutputForm::LabelKind,
        _ => OutputForm::Label,
    };
    let query = matches.get_str("query").unwrap_or("");
    Ok(Options {
        query: query.as_bytes().to_vec(alloc)?,
        jobs: jobs.clamp(1, MAX_JOBS),
        output,
        limits: limits_of(matches, max_steps.clamp(1, MAX_STEPS)),
    })
}

/// Refuses words as clap refuses others.
fn refusal(alloc: Global, kind: ErrorKind, message: &str) -> Result<Error, AllocError> {
    command(alloc)?.error(kind, message)
}

fn query_of<'a>(alloc: Global, matches: &ArgMatches<'a>) -> Result<Words<'a>, Error>
    ensures in_range { IfOk result (λ w. IsInRange w.options) }
    ensures limits { IfOk result (λ w. AreLimitsFor matches.now w.options.limits) }
{
    let place = place_of(matches);
    let wanted = wanted_of(matches);
    if place.is_input() && wanted.is_input() {
        return Err(refusal(alloc, ErrorKind::MissingRequiredArgument, INPUT_TWICE)?);
    }
    Ok(Words {
        options: options_of(alloc, matches)?,
        place,
        wanted,
    })
}

/// Returns the explanation of the number, if there is one.
fn explanation_of(alloc: Global, number: &str) -> Result<Explanation, Error> {
    match explain(number.as_bytes()) {
        Some(explanation) => Ok(explanation),
        None => {
            let message = format!(in alloc;
                "invalid value '{number}' for '--explain <NUMBER>': no fault or error has this number"
            )?;
            Err(refusal(alloc, ErrorKind::ValueValidation, message.as_str())?)
        }
    }
}

/// Returns what the words ask for that clap has read.
fn asked_of<'a>(alloc: Global, matches: &ArgMatches<'a>) -> Result<Asked<'a>, Error>
    ensures in_range { IfOk result (λ a. (w : Words) → a ≡ Answer w → IsInRange w.options) }
    ensures limits { IfOk result (λ a. (w : Words) → a ≡ Answer w → AreLimitsFor matches.now w.options.limits) }
{
    match matches.get_str("explain") {
        Some(number) => Ok(Asked::Explanation(explanation_of(alloc, number)?)),
        None => Ok(Asked::Answer(query_of(alloc, matches)?)),
    }
}

/// Reads the words. The error has clap's text, for standard error or, with `--help` and `--version`, for standard output.
pub fn words_of<'a>(alloc: Global, words: &'a [String]) -> Result<Asked<'a>, Error>
    ensures in_range { IfOk result (λ a. (w : Words) → a ≡ Answer w → IsInRange w.options) }
    ensures limits { IfOk result (λ a. (w : Words) → a ≡ Answer w → AreStandardOrLarge w.options.limits) }
{
    // PROOF: what clap has read has many parts, so it is let go of in one place, whatever is made of it
    let matches = command(alloc)?.try_get_matches_from(words)?;
    asked_of(alloc, &matches)
}
