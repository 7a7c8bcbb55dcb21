//! The text of a session, a query or a command a line, comes in; what it asks for goes out, item after item: queries, files that
//! are put and removed, reloads, facts. Two workspaces give the commands that turn the first into the second; with these a
//! directory that changes and a text give the text of a session that follows the directory.
//!
//! [`next_item`] promises the next item of what a reader gives (`specs/Items.antt`, `specs/Commands.antt`), and [`edited_files`]
//! the files after edits (`specs/Edits.antt`). What is told of two workspaces is a command for each file that is gone, is new or
//! has other bytes, and no other ([`push_changes`]). No contract says what a disk holds, nor what a text from outside does.
//!
//! In reading order:
//!
//! - `lines`: the lines of a text;
//! - `commands`: what a line asks for;
//! - `edits`: the files of a workspace as they are edited;
//! - `items`: what is asked, a line each, with the bytes of a file that is put;
//! - `changes`: what became of the files of a directory, in commands;
//! - `followed`: a text with these commands;
//! - `laws`: what the edits of two workspaces make, and how their commands are read.
#![tactic(auto)]

mod changes;
mod commands;
mod edits;
mod followed;
mod items;
mod laws;
mod lines;

pub use changes::push_changes;
pub use commands::{Command, command_of};
pub use edits::{Edit, edited_files};
pub use followed::FollowedText;
pub use items::{Item, Request, next_item};
pub use laws::{
    commands_are_read_back, each_edit_is_needed, each_path_has_one_edit, edits_make_the_files,
    plain_texts_ask_queries,
};
pub use lines::MAX_QUERY_BYTES;
