//! The text of the facts.

ghost use Rattle.std.specs.Prelude.{◌≡◌, ◌<◌, length, IfOk};
ghost use Rattle.std.specs.List.{All};
ghost use Rattle.std.specs.Option.{option_copied};
ghost use Rattle.bq_run_report.specs.Report.{reply_view};
ghost use Rattle.bq_run_facts.specs.Facts.{Tells, facts_text, further_view};

use crate::lines::push_targets;
use crate::selection::meant;
use bq_base_texts::Rope;
use bq_facts::{Counts, Origin, SharedText, push_header};
use bq_label::Packages;
use bq_query_check::CheckedQuery;
use bq_query_target_graph::TargetGraph;
use bq_run_report::{Reply, Status, refusal_of};
use std::alloc::{AllocError, Global};

/// The lines after those of targets, and how many there are.
#[derive(Drop)]
pub(crate) struct Further {
    pub text: Rope,
    /// How many of them are of modules.
    pub modules: usize,
    /// How many are of faults.
    pub faults: usize,
}

/// Returns the first line, the lines of the targets of these numbers, and then these lines.
fn facts_text(
    alloc: Global,
    origin: &Origin,
    packages: &Packages,
    graph: &TargetGraph,
    numbers: &[usize],
    further: &Further,
) -> Result<Rope, AllocError>
    requires { All (λ at. at < length graph.now.targets) numbers.now }
    ensures { IfOk result (λ text. text ≡ facts_text origin.now packages.now graph.now numbers.now (further_view further.now)) }
{
    let mut text = SharedText::new(alloc);
    let counts = Counts {
        targets: numbers.len(),
        modules: further.modules,
        faults: further.faults,
    };
    push_header(alloc, &mut text, origin, counts)?;
    push_targets(alloc, &mut text, packages, graph, numbers)?;
    text.push_rope(alloc, &further.text)?;
    text.into_rope(alloc)
}

/// Returns the facts of the targets that are meant, which end with these lines; with them the run ends with `status`.
pub(crate) fn facts_over(
    alloc: Global,
    origin: &Origin,
    packages: &Packages,
    graph: &TargetGraph,
    asked: Option<&CheckedQuery>,
    further: &Further,
    status: Status,
) -> Result<Reply, AllocError>
    ensures { IfOk result (λ r. Tells origin.now packages.now graph.now (option_copied asked.entry) (further_view further.now) status (reply_view r)) }
{
    match meant(alloc, graph, asked) {
        Ok(numbers) => Ok(Reply {
            text: facts_text(alloc, origin, packages, graph, &numbers, further)?,
            end: Ok(status),
        }),
        Err(why) => Ok(Reply {
            text: Rope::new(alloc),
            end: Err(refusal_of(why)?),
        }),
    }
}
