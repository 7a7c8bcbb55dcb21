//! The program `bq`: words, and a bundle on standard input or a directory come in; the answer goes to standard output,
//! and the faults and the error line to standard error. All of it is `bq_command_line::run_program`, and its promises are
//! that crate's.
#![tactic(auto)]

use bq_command_line::run_program;
use std::process::ExitCode;

fn main(rt: HostRuntime) -> ExitCode {
    ExitCode::from(run_program(&rt, &rt))
}
