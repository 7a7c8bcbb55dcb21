//! The files that the loads of a file name.

ghost use Rattle.std.specs.Prelude.{◌≡◌, [], Some, slice_get, option_and_then, IfOk, OnOk};
ghost use Rattle.std.specs.List.{IsDistinct};
ghost use Rattle.std.specs.Option.{option_copied};
ghost use Rattle.bq_label_set.specs.Labels.{same_label, with_label, with_labels};
ghost use Rattle.bq_load_front.specs.NamedFiles.{place_named};

use bq_label::Label;
use bq_label_set::LabelSet;
use std::alloc::{AllocError, Global};
use std::marker::Model;

/// The files that the loads of a file name. Contracts see a label for each load, in the order in which they are written.
#[derive(Drop)]
pub struct NamedFiles {
    /// Each file once, in the order in which they are first named.
    files: Vec<Label>,
    /// For each load the place of its file among these.
    places: Vec<usize>,
}

impl Model for NamedFiles {
    ghost use Rattle.std.specs.Prelude.{List};
    ghost use Rattle.bq_label.specs.Label.{LabelParts};
    ghost use Rattle.bq_load_front.specs.NamedFiles.{labels_at, AreNamed};

    ghost Value = { List LabelParts };

    ghost view = { λ n. labels_at n.files.items n.places.items };

    ghost invariant = { λ n. AreNamed n.files.items n.places.items };
}

/// Returns the place of a label among the files, of which it becomes the last if it is new.
fn add_file(
    numbers: &mut LabelSet,
    files: &mut Vec<Label>,
    label: &Label,
) -> Result<usize, AllocError>
    requires same { files.old.items ≡ numbers.old }
    requires distinct { IsDistinct same_label numbers.old }
    ensures same { OnOk result (files.new.items ≡ numbers.new) }
    ensures added { OnOk result (numbers.new ≡ with_label numbers.old label.now) }
    ensures place { IfOk result (λ place. slice_get files.new.items place ≡ Some label.now) }
{
    if numbers.add(label)? {
        let place = files.len();
        files.push(label.share()?)?;
        return Ok(place);
    }
    match numbers.number(label)? {
        Some(place) => Ok(place),
        None => unreachable!(),
    }
}

/// Returns the file at a place.
fn file_at(files: &[Label], place: Option<usize>) -> Option<&Label>
    ensures { option_copied result ≡ option_and_then (slice_get files.now) place }
{
    match place {
        None => None,
        Some(place) => files.get(place),
    }
}

impl NamedFiles {
    /// Makes those of no load.
    pub fn none(alloc: Global) -> NamedFiles
        ensures { result ≡ [] }
    {
        NamedFiles {
            files: Vec::new(alloc),
            places: Vec::new(alloc),
        }
    }

    /// Makes those of these labels, one for each load.
    pub fn of(alloc: Global, labels: &[Label]) -> Result<NamedFiles, AllocError>
        ensures { IfOk result (λ named. named ≡ labels.now) }
    {
        let mut numbers = LabelSet::new(alloc);
        let mut files = Vec::new(alloc);
        let mut places = Vec::with_capacity(alloc, labels.len())?;
        for label in labels {
            places.push(add_file(&mut numbers, &mut files, label)?)?;
        }
        Ok(NamedFiles { files, places })
    }

    /// Returns each file once, in the order in which they are first named.
    pub fn files(&self) -> &[Label]
        ensures { result.now ≡ with_labels [] self.now }
    {
        self.files.as_slice()
    }

    /// Returns the label of the file that a load names.
    pub fn label(&self, load: usize) -> Option<&Label>
        ensures { option_copied result ≡ slice_get self.now load }
    {
        file_at(&self.files, self.places.get(load).copied())
    }

    /// Returns the place of the file that a load names among the files.
    pub fn place(&self, load: usize) -> Option<usize>
        ensures { result ≡ place_named self.now load }
    {
        self.places.get(load).copied()
    }
}
