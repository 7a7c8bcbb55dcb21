//! The program, from its words to its exit status.

use crate::descriptors::fill_standard_descriptors;
use crate::messages::{refuse_arguments, report_no_memory, show, show_explanation};
use crate::runs::answer;
use crate::words::{Asked, words_of};
use std::env;
use std::random::RandomSource;
use std::sync::Wait;
use std::thread::Threads;

/// Runs as the words of the command line say, with threads of this handle. Ends with the error line, if there is one, and
/// returns the exit status.
pub fn run_program<T: Threads + Wait + RandomSource + Sync>(rt: &HostRuntime, threads: &T) -> u8 {
    fill_standard_descriptors(rt);
    let alloc = rt.alloc();
    let arguments = match env::args(rt) {
        Ok(arguments) => arguments,
        Err(error) => return refuse_arguments(rt, &error),
    };
    let Ok(words) = arguments.collect::<Vec<String>>(alloc) else {
        return report_no_memory(rt);
    };
    match words_of(alloc, &words) {
        Ok(Asked::Answer(words)) => answer(rt, threads, alloc, &words),
        Ok(Asked::Explanation(explanation)) => show_explanation(rt, &explanation),
        Err(error) => show(rt, &error),
    }
}
