//! The rows of tables of methods: names, and which arguments methods take.

ghost use Rattle.std.specs.Prelude.{◌≡◌, ◌≤◌, map, length};
ghost use Rattle.bq_builtin_methods.specs.Method.{fits};
ghost use Rattle.bq_builtin_methods.specs.Row.{row_from};

use bq_base::EvalFault;
use bq_builtin_machine::Args;

/// Which arguments a method takes.
#[derive(Clone, Copy)]
pub(crate) enum Parameters {
    /// So many positional ones at least, and so many at most.
    Positional(usize, usize),
    /// Any: the method binds them itself.
    Any,
}

/// Returns the place of the row of a name, and which arguments its method takes.
#[tactic(auto, unfolding(crate::specs::Row::row_from))]
pub(crate) fn row_in(mut table: &[(&[u8], Parameters)], name: &[u8]) -> Option<(usize, Parameters)>
    requires { length table.now ≤ 4294967295 }
    ensures { result ≡ row_from 0 name.now (map (λ row. (row.0.now, row.1)) table.entry.now) }
{
    let mut place = 0;
    while let [row, others @ ..] = table {
        if name == row.0 {
            return Some((place, row.1));
        }
        place += 1;
        table = others;
    }
    None
}

/// Checks that there are between `fewest` and `most` arguments, and that none is passed by name (F52).
#[tactic(auto, unfolding(crate::specs::Method::fits))]
fn are_positional(fewest: usize, most: usize, args: &Args) -> Result<(), EvalFault>
    ensures { result ≡ fits (Parameters.Positional fewest most) args.now }
{
    let len = args.positional.len();
    if args.named.is_empty() && fewest <= len && len <= most {
        return Ok(());
    }
    Err(EvalFault::Args)
}

/// Checks that a method takes these arguments (F52).
#[tactic(auto, unfolding(crate::specs::Method::fits))]
pub(crate) fn fits(parameters: Parameters, args: &Args) -> Result<(), EvalFault>
    ensures { result ≡ fits parameters args.now }
{
    match parameters {
        Parameters::Positional(fewest, most) => are_positional(fewest, most, args),
        Parameters::Any => Ok(()),
    }
}
