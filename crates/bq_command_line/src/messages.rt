//! What is printed where there is no run.

use bq_run::{ANSWERED, DEVICE_FAILED, NO_MEMORY, REFUSED, RunErr};
use bq_run_explain::{Explanation, NumberMeaning};
use clap::Error;
use clap::error::ErrorKind;
use std::io;
use std::io::IsTerminal;

/// Writes the error line for out of memory, which takes no memory itself.
pub fn report_no_memory(rt: &impl Eprint) -> u8 {
    let _ = eprintln!(rt; "bq: {}", RunErr::Memory);
    NO_MEMORY
}

/// Writes why the arguments could not be read: they are not UTF-8, or there is no memory for them.
pub fn refuse_arguments(rt: &impl Eprint, error: &io::Error) -> u8 {
    if error.kind() == io::ErrorKind::OutOfMemory {
        return report_no_memory(rt);
    }
    let _ = eprintln!(rt; "error: an argument is not valid UTF-8");
    REFUSED
}

/// Says what a run waits for that reads its bundle from a terminal, where nothing else would tell.
pub fn announce_input(rt: &HostRuntime) {
    if rt.stdin().is_terminal() {
        let _ = eprintln!(rt;
            "bq: reading the bundle from the terminal; --dir DIR reads a directory"
        );
    }
}

/// Prints help or the version on standard output, or why words are refused on standard error.
pub fn show<R: Print + Eprint>(rt: &R, error: &Error) -> u8 {
    if error.kind() == ErrorKind::OutOfMemory {
        return report_no_memory(rt);
    }
    let printed = error.print(rt);
    match error.kind() {
        ErrorKind::DisplayHelp | ErrorKind::DisplayVersion if printed.is_err() => DEVICE_FAILED,
        ErrorKind::DisplayHelp | ErrorKind::DisplayVersion => ANSWERED,
        _ => REFUSED,
    }
}

/// Prints the explanation of a number.
pub fn show_explanation(rt: &impl Print, explanation: &Explanation) -> u8 {
    let text = explanation.text;
    let printed = match explanation.subject {
        NumberMeaning::Fault(kind) => {
            let number = kind.number();
            let name = kind.name();
            print!(rt; "F{number} {name}\n\n{text}")
        }
        NumberMeaning::Error(number, name) => print!(rt; "{number} {name}\n\n{text}"),
    };
    match printed {
        Ok(()) => ANSWERED,
        Err(_) => DEVICE_FAILED,
    }
}
