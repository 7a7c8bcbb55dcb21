//! Whole workspaces by several workers: which modules are in evaluation at once, and that they give what one thread gives.
//!
//! A test says which property a workspace has. What owns a workspace and its schema is one function for all of them, since the prover
//! follows each way out of a function with all that it owns.

mod by_workers;
mod counts;
mod holding;
mod large;
mod meeting;
mod pool;
mod workplace;

use crate::workspace::file;
use bq_board::MAX_SEATS;
use bq_label::{File, Workspace};
use bq_load_discover::LoadErr;
use bq_package_schema::Schema;
use std::alloc::{AllocError, Global};
use std::sync::Wait;
use std::thread::Threads;

/// The most steps of a module.
pub const LIMIT: u64 = 1_000_000;

/// What is loaded.
#[derive(Clone, Copy)]
pub struct Tree<'a> {
    pub alloc: Global,
    pub workspace: &'a Workspace,
    pub schema: &'a Schema,
}

/// What is said of a workspace. A function that starts threads is no method of a trait, so this stands for subjects.
#[derive(Clone, Copy)]
pub enum Property {
    /// Any number of workers gives what one thread gives.
    LoadsAlike,
    /// Two workers evaluate two files at once.
    TwoMeet,
    /// 64 workers print what is wanted.
    ManyPrint,
    /// Nobody waits for a file that it doesn't load: two workers, and two threads in one pool.
    WorkersMeet,
    ThreadsMeet,
    /// One seat of a pool returns all modules: of one seat, of two, and of the most.
    OneOfOne,
    OneOfTwo,
    OneOfMost,
    /// A pool lets go of what nobody fetched when it is closed, and not before.
    LetsGo,
}

fn holds<R: Threads + Wait + Sync>(
    rt: &R,
    tree: Tree<'_>,
    property: Property,
) -> Result<bool, LoadErr> {
    match property {
        Property::LoadsAlike => by_workers::is_loaded_alike(rt, tree),
        Property::TwoMeet => by_workers::two_meet(rt, tree),
        Property::ManyPrint => by_workers::many_print(rt, tree),
        Property::WorkersMeet => pool::workers_meet(rt, tree),
        Property::ThreadsMeet => pool::threads_meet(rt, tree),
        Property::OneOfOne => pool::one_returns_all(rt, tree, 1),
        Property::OneOfTwo => pool::one_returns_all(rt, tree, 2),
        Property::OneOfMost => pool::one_returns_all(rt, tree, MAX_SEATS),
        Property::LetsGo => pool::lets_go(rt, tree),
    }
}

/// Whether this holds of the workspace of these files.
pub fn files_have<R: Threads + Wait + Sync>(
    rt: &R,
    alloc: Global,
    files: Vec<File>,
    property: Property,
) -> Result<bool, LoadErr> {
    let workspace = Workspace::new(files);
    let schema = Schema::standard(alloc);
    let (Ok(workspace), Ok(schema)) = (&workspace, &schema) else {
        return Ok(false);
    };
    let tree = Tree {
        alloc,
        workspace,
        schema,
    };
    holds(rt, tree, property)
}

/// The same of a workspace that is written as one text.
pub fn text_has<R: Threads + Wait + Sync>(
    rt: &R,
    alloc: Global,
    text: &str,
    property: Property,
) -> Result<bool, LoadErr> {
    files_have(rt, alloc, files_of(alloc, text.as_bytes())?, property)
}

/// The path in the first line of a text, and the lines after it.
fn parts(text: &[u8]) -> (&[u8], &[u8]) {
    let (path, rest) = match text.iter().position(|byte| *byte == b'\n') {
        Some(at) => text.split_at(at),
        None => (text, b"".as_slice()),
    };
    match rest {
        [b'\n', content @ ..] => (path, content),
        _ => (path, rest),
    }
}

/// The files of a workspace that is written as one text: for each `~`, its path and a newline, and then its lines.
fn files_of(alloc: Global, text: &[u8]) -> Result<Vec<File>, AllocError> {
    let mut files = Vec::new(alloc);
    for part in text.split(|byte| *byte == b'~').skip(1) {
        let (path, content) = parts(part);
        files.push(file(alloc, path, content)?)?;
    }
    Ok(files)
}
