//! The explanation of a number, and its look-up in a table of errors.

ghost use Rattle.std.specs.Prelude.{◌≡◌, map, option_map};
ghost use Rattle.bq_run_explain.specs.Numbers.{entry_of, error_entry, first_entry};

use bq_base::FaultKind;

/// What a number stands for.
#[derive(Clone, Copy)]
pub enum NumberMeaning {
    /// A fault of a file.
    Fault(FaultKind),
    /// An error of a query or of a run: its number, as `Q5`, and its name.
    Error(&'static str, &'static str),
}

/// What `bq --explain` prints for a number.
#[derive(Clone, Copy)]
pub struct Explanation {
    pub subject: NumberMeaning,
    /// In Markdown: what it means, the smallest example that has it, what to do. The example is indented by four spaces: the lines of
    /// a bundle, if it has one, a blank line, `$ ` and a command, and what that writes.
    pub text: &'static str,
}

/// An error, and what is printed for it.
#[derive(Clone, Copy)]
pub(crate) struct ErrorEntry {
    /// As `Q5`.
    pub number: &'static str,
    /// As `NoSuchTarget`.
    pub name: &'static str,
    pub text: &'static str,
}

/// Returns the first entry of the table with this number.
#[tactic(auto, unfolding(crate::specs::Numbers::first_entry))]
pub(crate) fn first_numbered(mut table: &[ErrorEntry], number: &[u8]) -> Option<Explanation>
    ensures { option_map entry_of result ≡ first_entry number.now (map error_entry table.entry.now) }
{
    while let [entry, rest @ ..] = table {
        if number == entry.number.as_bytes() {
            return Some(Explanation {
                subject: NumberMeaning::Error(entry.number, entry.name),
                text: entry.text,
            });
        }
        table = rest;
    }
    None
}
