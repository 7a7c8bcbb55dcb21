//! Which number a label has: the place, among targets in order, of the one that has the label.

ghost use Rattle.std.specs.Prelude.{◌≡◌, Some, position};
ghost use Rattle.std.specs.Bool.{OnTrue};
ghost use Rattle.std.specs.List.Sorted.{IsStrictlySortedBy};
ghost use Rattle.bq_label_set.specs.Labels.{same_label};
ghost use Rattle.bq_query_target_graph.specs.Order.{target_cmp, target_labels};

use bq_label::Label;
use bq_package_target::{Target, is_of};
use sqlite_items::at;
use std::cell::Cell;
use std::marker::Model;

/// The labels of targets in order, each with its target's number. Contracts see the list of them.
///
/// Most labels are found by few looks: lists of sources are mostly sorted, so the one after the label that was found last comes first;
/// then the label of another package that was found last, since neighbours often name the same one; and then the targets of the package
/// that is entered. Only a label that is at no such place is looked for among all.
#[derive(Drop)]
pub struct Numbers<'a> {
    targets: &'a [Target],
    /// The targets of the package that is entered, and the number of the first of them.
    own: &'a [Target],
    first: usize,
    /// The number after that of the label that was found last.
    next: Cell<usize>,
    /// The number of the label of another package that was found last.
    far: Cell<usize>,
}

impl<'a> Model for Numbers<'a> {
    ghost use Rattle.std.specs.Prelude.{List};
    ghost use Rattle.std.specs.List.Sorted.{IsStrictlySortedBy};
    ghost use Rattle.bq_label.specs.Label.{LabelParts};
    ghost use Rattle.bq_query_target_graph.specs.Order.{target_cmp, target_labels};

    ghost Value = { List LabelParts };

    ghost view = { λ n. target_labels n.targets.now };

    ghost invariant = { λ n. IsStrictlySortedBy target_cmp n.targets.now };
}

/// Returns whether the target of this number has the label. The names are compared first, since they differ most often.
#[tactic(auto, unfolding(bq_label_set::specs::Labels::same_label))]
fn has_at(targets: &[Target], number: usize, label: &Label) -> bool
    requires { IsStrictlySortedBy target_cmp targets.now }
    ensures { OnTrue result (position (same_label label.now) (target_labels targets.now) ≡ Some number) }
{
    match at(targets, number) {
        Some(target) => {
            let other = &target.label;
            label.name() == other.name()
                && label.package() == other.package()
                && label.repo() == other.repo()
        }
        None => false,
    }
}

impl<'a> Numbers<'a> {
    /// Makes the numbers of the labels of these targets.
    pub fn of(targets: &'a [Target]) -> Numbers<'a>
        requires { IsStrictlySortedBy target_cmp targets.now }
        ensures { result ≡ target_labels targets.now }
    {
        Numbers {
            targets,
            own: &targets[..0],
            first: 0,
            next: Cell::new(0),
            far: Cell::new(0),
        }
    }

    /// Enters the package of the target of this number, unless it is entered already.
    pub fn enter(&mut self, number: usize)
        ensures { self.new ≡ self.old }
    {
        let targets = self.targets;
        if number >= targets.len() || number < self.first.saturating_add(self.own.len()) {
            return;
        }
        let own = targets[number].label.package_id();
        let rest = &targets[number..];
        let count = rest.partition_point(|target| is_of(own, &target.label));
        self.own = &rest[..count];
        self.first = number;
    }

    /// Returns the number of a label. Lists of labels are mostly sorted, so it is looked for first after the one that was found last.
    pub fn number(&self, label: &Label) -> Option<usize>
        ensures { result ≡ position (same_label label.now) self.now }
    {
        let found = self.number_near(self.next.get(), label);
        if let Some(number) = found {
            self.next.set(number.saturating_add(1));
        }
        found
    }

    /// Returns the number of a label, which is looked for first at the number `next`.
    fn number_near(&self, next: usize, label: &Label) -> Option<usize>
        ensures { result ≡ position (same_label label.now) self.now }
    {
        if has_at(self.targets, next, label) {
            return Some(next);
        }
        let far = self.far.get();
        if has_at(self.targets, far, label) {
            return Some(far);
        }
        let inside = match self
            .own
            .binary_search_by(|target| target.label.name().cmp(label.name()))
        {
            Ok(at) => self.first.saturating_add(at),
            Err(_) => self.first,
        };
        if has_at(self.targets, inside, label) {
            return Some(inside);
        }
        match self
            .targets
            .binary_search_by(|target| target.label.cmp(label))
        {
            Ok(place) => {
                let _other = self.targets[place].label.name(); // PROOF: both labels are valid
                let _name = label.name();
                self.far.set(place);
                Some(place)
            }
            Err(_) => None,
        }
    }
}
