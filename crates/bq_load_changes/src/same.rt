//! Which modules are what they were.

ghost use Rattle.std.specs.Prelude.{◌≡◌, ◌<◌, length, IfOk, IfSome};
ghost use Rattle.std.specs.Option.{option_copied};
ghost use Rattle.bq_base.specs.Limits.{number_bound};
ghost use Rattle.bq_label.specs.Packages.{label_file};
ghost use Rattle.bq_label_set.specs.Labels.{same_label};
ghost use Rattle.bq_load_front.specs.Parsed.{kind_of};
ghost use Rattle.bq_load_changes.specs.Graph.{IsGraphOf};
ghost use Rattle.bq_load_changes.specs.Same.{HaveStayed, HasStayed, HasSameFrame, is_untouched, same_content};

use crate::paths::{is_touched, touched};
use bq_label::{BuildFile, File, Label, Workspace, label_file};
use bq_load_discover::LoadGraph;
use bq_load_front::kind_of;
use bq_parse_grammar::FileKind;
use std::alloc::{AllocError, Global};

/// The file at the root that has the schema.
const SCHEMA_FILE: &[u8] = b"rules.schema";

/// Returns whether there are two files of one content, or none.
fn have_same_content(file: Option<&File>, other: Option<&File>) -> bool
    ensures { result ≡ same_content (option_copied file.entry) (option_copied other.entry) }
{
    match file {
        None => other.is_none(),
        Some(file) => match other {
            None => false,
            Some(other) => file.content == other.content,
        },
    }
}

/// Returns whether two labels are one.
#[tactic(auto, unfolding(bq_label_set::specs::Labels::same_label))]
pub fn is_same_label(label: &Label, other: &Label) -> bool
    ensures { result ≡ same_label label.now other.now }
{
    label.name() == other.name()
        && (label.package() == other.package() && label.repo() == other.repo())
}

/// The files of a workspace before a change, and after it.
#[derive(Clone, Copy)]
pub struct Change<'a> {
    pub before: &'a Workspace,
    pub after: &'a Workspace,
}

impl<'a> Change<'a> {
    /// Returns the packages of which a file came or went, by the load graph as it was. `None` if they are many, a module's path came or went, or
    /// the schema is another.
    #[tactic(auto, using(crate::proofs::Frames::same_frame))]
    pub fn touched(
        &self,
        alloc: Global,
        graph: &LoadGraph,
    ) -> Result<Option<Vec<BuildFile>>, AllocError>
        requires { IsGraphOf self.now.before.now graph.now }
        ensures { IfOk result (λ r. IfSome r (λ all. HasSameFrame self.now.before.now self.now.after.now all.items)) }
    {
        let schema = self.before.file(SCHEMA_FILE);
        if !have_same_content(schema, self.after.file(SCHEMA_FILE)) {
            return Ok(None);
        }
        let (files, others) = (self.before.files(), self.after.files());
        match touched(alloc, graph.packages(), files, others)? {
            None => Ok(None),
            Some(found) => Ok(Some(found)), // PROOF: these are the packages
        }
    }

    /// Returns whether the file of a label has the text that it had.
    fn has_same_text(&self, alloc: Global, label: &Label) -> Result<bool, AllocError>
        ensures { IfOk result (λ same. same ≡ same_content (label_file self.now.before.now label.now) (label_file self.now.after.now label.now)) }
    {
        let file = label_file(alloc, self.before, label)?;
        let other = label_file(alloc, self.after, label)?;
        Ok(have_same_content(file, other))
    }

    /// Returns the number that a module had, if it has it still, its file is what it was, and no file of its package came or went.
    #[tactic(auto, using(crate::proofs::Stayed::has_stayed))]
    fn number_before(
        &self,
        alloc: Global,
        touched: &[BuildFile],
        labels: &[Label],
        m: usize,
        label: &Label,
    ) -> Result<Option<u32>, AllocError>
        requires { m < number_bound }
        ensures { IfOk result (λ n. IfSome n (HasStayed self.now.before.now self.now.after.now touched.now labels.now label.now m)) }
    {
        let Some(other) = labels.get(m) else {
            return Ok(None);
        };
        if !is_same_label(other, label) {
            return Ok(None);
        }
        if !is_untouched(touched, label) {
            return Ok(None);
        }
        if !self.has_same_text(alloc, label)? {
            return Ok(None);
        }
        Ok(Some(m as u32))
    }

    /// Returns for each module of these labels the number that it had, if it has it still, its file is what it was, and no file of its package
    /// came or went.
    #[tactic(auto, using(crate::proofs::Stayed::none_stayed, crate::proofs::Stayed::more_stayed))]
    pub fn numbers_before(
        &self,
        alloc: Global,
        touched: &[BuildFile],
        had: &[Label],
        labels: &[Label],
    ) -> Result<Vec<Option<u32>>, AllocError>
        requires { length labels.now < number_bound }
        ensures { IfOk result (λ was. HaveStayed self.now.before.now self.now.after.now touched.now had.now labels.now was.items) }
    {
        let mut was = Vec::with_capacity(alloc, labels.len())?;
        for (m, label) in labels.iter().enumerate() {
            was.push(self.number_before(alloc, touched, had, m, label)?)?;
        }
        Ok(was)
    }
}

/// Returns whether the file of a label is a .bzl file, or a BUILD file of a package that is none of these.
fn is_untouched(touched: &[BuildFile], label: &Label) -> bool
    ensures { result ≡ is_untouched touched.now label.now (kind_of label.now) }
{
    match kind_of(label) {
        FileKind::Bzl => true,
        FileKind::Build => !is_touched(touched, label.package_id()),
    }
}
