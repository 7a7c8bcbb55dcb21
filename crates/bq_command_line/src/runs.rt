//! Runs over bundles and directories, of one query and of many, and for facts.

ghost use Rattle.std.specs.Prelude.{◌-◌, ◌^◌, ◌<◌};
ghost use Rattle.bq_base.specs.Limits.{AreBounded};
ghost use Rattle.bq_run.specs.Run.{IsInRange};

use crate::command::VERSION;
use crate::messages::announce_input;
use crate::words::{Wanted, Words, WorkspacePlace};
use bq_base::Limits;
use bq_label::Workspace;
use bq_run::{
    ByteSource, Metered, Options, RunErr, Status, WorkspaceRun, end_run, read_bundle_within, run,
    run_files,
};
use bq_run_commands::FollowedText;
use bq_run_device::{DirectoryErr, read_directory};
use bq_run_facts::run_facts;
use bq_run_session::{SessionOptions, SessionRun, SessionStatus, run_queries, session_code};
use std::alloc::Global;
use std::fs::File;
use std::io;
use std::io::{BufReader, Read};
use std::random::RandomSource;
use std::sync::Wait;
use std::thread::Threads;

/// Opens a file to read it.
fn open(rt: &HostRuntime, path: &str) -> Result<File, RunErr> {
    match File::open(rt, path) {
        Ok(file) => Ok(file),
        Err(error) => match error.kind() {
            io::ErrorKind::OutOfMemory => Err(RunErr::Memory),
            _ => Err(RunErr::Read),
        },
    }
}

/// Reads the workspace of a directory.
fn read_files(rt: &HostRuntime, directory: &str, limits: Limits) -> Result<Workspace, RunErr>
    requires { AreBounded limits }
{
    match read_directory(rt, directory, limits) {
        Ok(workspace) => Ok(workspace),
        Err(DirectoryErr::Memory) => Err(RunErr::Memory),
        Err(DirectoryErr::Read) => Err(RunErr::Read),
        Err(DirectoryErr::TooManyFiles) => Err(RunErr::Bundle),
        Err(DirectoryErr::TooManyBytes) => Err(RunErr::Bundle),
        Err(DirectoryErr::TooManyDirectories) => Err(RunErr::Bundle),
    }
}

/// Runs over the bundle that a reader has, with threads of this handle.
fn run_on_bundle<T: Threads + Wait + RandomSource + Sync, R: ByteSource>(
    rt: &HostRuntime,
    threads: &T,
    alloc: Global,
    reader: &mut R,
    options: &Options,
) -> Result<Status, RunErr>
    requires in_range { IsInRange options.now }
    requires reader { R.failed reader.old < 2 ^ 64 - 1 }
{
    let mut writer = Metered::new(rt.stdout());
    let mut faults = Metered::new(rt.stderr());
    run(threads, alloc, reader, &mut writer, &mut faults, options)
}

/// Runs over the files of a directory, with threads of this handle.
pub fn run_on_directory<T: Threads + Wait + RandomSource + Sync>(
    rt: &HostRuntime,
    threads: &T,
    alloc: Global,
    directory: &str,
    options: &Options,
) -> Result<Status, RunErr>
    requires { IsInRange options.now }
{
    let workspace = read_files(rt, directory, options.limits)?;
    let mut writer = Metered::new(rt.stdout());
    let mut faults = Metered::new(rt.stderr());
    run_files(
        threads,
        alloc,
        &workspace,
        &mut writer,
        &mut faults,
        options,
    )
}

/// Runs with the one query of the words.
fn run_one<T: Threads + Wait + RandomSource + Sync>(
    rt: &HostRuntime,
    threads: &T,
    alloc: Global,
    words: &Words,
) -> Result<Status, RunErr>
    requires { IsInRange words.now.options }
{
    match words.place {
        WorkspacePlace::Input => {
            let mut reader = Metered::new(rt.stdin());
            run_on_bundle(rt, threads, alloc, &mut reader, &words.options)
        }
        WorkspacePlace::Bundle(path) => {
            let mut reader = Metered::new(open(rt, path)?);
            run_on_bundle(rt, threads, alloc, &mut reader, &words.options)
        }
        WorkspacePlace::Directory(path) => run_on_directory(
            rt,
            threads,
            alloc,
            path,
            &words.options,
        ),
    }
}

/// Reads the workspace at a place.
fn read_workspace(
    rt: &HostRuntime,
    alloc: Global,
    place: WorkspacePlace,
    limits: Limits,
) -> Result<Workspace, RunErr>
    requires { AreBounded limits }
{
    match place {
        WorkspacePlace::Input => read_bundle_within(alloc, limits, &mut Metered::new(rt.stdin())),
        WorkspacePlace::Bundle(path) => {
            let file = open(rt, path)?;
            read_bundle_within(alloc, limits, &mut Metered::new(file))
        }
        WorkspacePlace::Directory(path) => read_files(rt, path, limits),
    }
}

/// Answers the queries that a reader has over a workspace, with threads of this handle.
fn answer_over<T: Threads + Wait + RandomSource + Sync, Q: ByteSource>(
    rt: &HostRuntime,
    threads: &T,
    alloc: Global,
    workspace: Workspace,
    queries: &mut Q,
    words: &Words,
) -> Result<SessionStatus, RunErr>
    requires in_range { IsInRange words.now.options }
    requires queries { Q.failed queries.old < 2 ^ 64 - 1 }
{
    let mut writer = Metered::new(rt.stdout());
    let mut faults = Metered::new(rt.stderr());
    let by = SessionOptions {
        version: VERSION.as_bytes(),
        options: &words.options,
    };
    let over = SessionRun { workspace, by };
    run_queries(threads, alloc, over, queries, &mut writer, &mut faults)
}

/// Returns other owners of the files of a workspace.
fn share_files(alloc: Global, limits: Limits, workspace: &Workspace) -> Result<Workspace, RunErr>
    requires { AreBounded limits }
{
    let mut files = Vec::with_capacity(alloc, workspace.files().len())?;
    for file in workspace.files() {
        files.push(file.share()?)?;
    }
    match Workspace::within(limits, files) {
        Ok(shared) => Ok(shared),
        Err(_) => Err(RunErr::Bundle),
    }
}

/// Answers the queries of a text. Over a directory the text is followed: a reload looks at the directory again.
fn answer_text<T: Threads + Wait + RandomSource + Sync, R: Read + Drop>(
    rt: &HostRuntime,
    threads: &T,
    alloc: Global,
    text: R,
    words: &Words,
) -> Result<SessionStatus, RunErr>
    requires { IsInRange words.now.options }
{
    let Ok(text) = BufReader::new(alloc, text) else {
        return Err(RunErr::Memory);
    };
    let limits = words.options.limits;
    let workspace = read_workspace(rt, alloc, words.place, limits)?;
    if let WorkspacePlace::Directory(path) = words.place {
        let seen = share_files(alloc, limits, &workspace)?;
        let followed = FollowedText::new(rt, path, limits, seen, text);
        let mut queries = Metered::new(followed);
        return answer_over(rt, threads, alloc, workspace, &mut queries, words);
    }
    let mut queries = Metered::new(text);
    answer_over(rt, threads, alloc, workspace, &mut queries, words)
}

/// Runs with the queries of a file, or of standard input.
fn run_many<T: Threads + Wait + RandomSource + Sync>(
    rt: &HostRuntime,
    threads: &T,
    alloc: Global,
    file: &str,
    words: &Words,
) -> Result<SessionStatus, RunErr>
    requires { IsInRange words.now.options }
{
    if file == "-" {
        return answer_text(rt, threads, alloc, rt.stdin(), words);
    }
    answer_text(rt, threads, alloc, open(rt, file)?, words)
}

/// Runs for the facts behind the answer to a query, or for all.
fn run_for_facts<T: Threads + Wait + RandomSource + Sync>(
    rt: &HostRuntime,
    threads: &T,
    alloc: Global,
    query: Option<&str>,
    words: &Words,
) -> Result<Status, RunErr>
    requires { IsInRange words.now.options }
{
    let workspace = read_workspace(rt, alloc, words.place, words.options.limits)?;
    let mut writer = Metered::new(rt.stdout());
    let mut faults = Metered::new(rt.stderr());
    let query = match query {
        Some(query) => Some(query.as_bytes()),
        None => None,
    };
    let over = WorkspaceRun {
        workspace: &workspace,
        options: &words.options,
    };
    run_facts(
        threads,
        alloc,
        VERSION.as_bytes(),
        &over,
        query,
        &mut writer,
        &mut faults,
    )
}

/// Writes the error line, if there is one, and returns the exit status.
fn end(rt: &HostRuntime, ended: &Result<Status, RunErr>) -> u8 {
    end_run(&mut Metered::new(rt.stderr()), ended)
}

/// Runs as the words say, and returns the exit status.
pub fn answer<T: Threads + Wait + RandomSource + Sync>(
    rt: &HostRuntime,
    threads: &T,
    alloc: Global,
    words: &Words,
) -> u8
    requires { IsInRange words.now.options }
{
    if words.place.is_input() {
        announce_input(rt);
    }
    match words.wanted {
        Wanted::Answer => end(rt, &run_one(rt, threads, alloc, words)),
        Wanted::Facts(query) => end(rt, &run_for_facts(rt, threads, alloc, query, words)),
        Wanted::Answers(file) => match run_many(rt, threads, alloc, file, words) {
            Ok(status) => session_code(status),
            Err(error) => end(rt, &Err(error)),
        },
    }
}
