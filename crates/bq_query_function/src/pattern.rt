//! The targets that a pattern names: `//p:n`, `//p:all`, `//p:*`, `//p/...`, `//p/...:*`. All of a package, or of the
//! packages beneath it, are together in the order of labels, since their labels begin alike.

ghost use Rattle.std.specs.Prelude.{◌≡◌, ◌++◌, ◌∷◌, [], ◌&&◌, ◌<◌, ◌≤◌, length, IfOk, OnOk};
ghost use Rattle.bq_label.specs.Label.{IsPackage};
ghost use Rattle.std.specs.List.Sorted.{IsStrictlySortedBy};
ghost use Rattle.bq_label.specs.Packages.{id_cmp};
ghost use Rattle.bq_query_lex.specs.QueryError.{Meets};
ghost use Rattle.bq_query_function.specs.Missing.{missing};
ghost use Rattle.bq_query_function.specs.Order.{texts_of, AreInOrder, IsPlaceOf};
ghost use Rattle.bq_query_function.specs.Words.{Adds, Range, has_label, names};
ghost use Rattle.bq_query_function.specs.Beginnings.{AddsValid, AreValid, is_wanted, begins, own, beneath, pattern_at};

use crate::missing::{needs_package, target_named};
use crate::order::{place_of, target_of};
use crate::text::package_text;
use bq_label::{Label, PackageId};
use bq_package_target::{Target, TargetKind};
use bq_query_lex::{QueryErr, TargetPattern};
use std::alloc::{AllocError, Global};

/// Returns whether the target is a rule, or `rules` doesn't ask for one.
fn is_wanted(rules: bool, target: &Target) -> bool
    ensures { result ≡ is_wanted rules target.now }
{
    match target.kind {
        TargetKind::Rule(_, _) => true,
        _ => !rules,
    }
}

/// Returns how the labels of the packages beneath it begin, without the last slash.
fn beneath_text(alloc: Global, id: &PackageId) -> Result<Vec<u8>, AllocError>
    ensures { IfOk result (λ text. (text.items, 47) ≡ beneath id.now) }
{
    if !id.package().is_empty() {
        return package_text(alloc, id);
    }
    let mut text = Vec::new(alloc);
    if !id.repo().is_empty() {
        text.push(b'@')?;
        text.extend_from_slice(id.repo().as_slice())?;
    }
    text.push(b'/')?;
    Ok(text)
}

/// Adds the targets from one place to another; with `rules` only the rules among them.
fn add_range(targets: &[Target], from: usize, to: usize, rules: bool, marks: &mut Vec<bool>)
    requires order { from ≤ to }
    requires to { to ≤ length targets.now }
    requires long { length marks.old.items ≡ length targets.now }
    ensures long { length marks.new.items ≡ length marks.old.items }
    ensures range { Range (is_wanted rules) targets.now from to marks.old.items marks.new.items }
    ensures valid { AreValid (is_wanted rules) targets.now from to }
{
    for at in from..to {
        let target = &targets[at];
        if !is_wanted(rules, target) {
            continue;
        }
        let _ = target.label.repo(); // reads the label, whose type says that it is valid
        marks[at] = true;
    }
}

/// Returns how many targets there are before these bytes and the last one.
fn place_before(
    alloc: Global,
    targets: &[Target],
    start: &[u8],
    last: u8,
) -> Result<usize, AllocError>
    requires { AreInOrder targets.now }
    ensures { IfOk result (IsPlaceOf (texts_of targets.now) (start.now ++ last ∷ [])) }
{
    let mut text = start.to_vec(alloc)?;
    text.push(last)?;
    Ok(place_of(targets, &text))
}

/// Adds the targets whose labels begin with these bytes and the last one; with `rules` only the rules among them.
fn add_beginning(
    alloc: Global,
    targets: &[Target],
    start: &[u8],
    last: u8,
    rules: bool,
    marks: &mut Vec<bool>,
) -> Result<(), AllocError>
    requires order { AreInOrder targets.now }
    requires long { length marks.old.items ≡ length targets.now }
    requires last { last < 255 }
    ensures { OnOk result (AddsValid (λ t. begins (start.now, last) t && is_wanted rules t) targets.now marks.old.items marks.new.items) }
{
    let from = place_before(alloc, targets, start, last)?;
    let to = place_before(alloc, targets, start, last + 1)?;
    add_range(targets, from, to, rules, marks);
    Ok(())
}

/// Adds the targets of a package itself; with `rules` only its rules.
fn add_own(
    alloc: Global,
    targets: &[Target],
    id: &PackageId,
    rules: bool,
    marks: &mut Vec<bool>,
) -> Result<(), AllocError>
    requires order { AreInOrder targets.now }
    requires long { length marks.old.items ≡ length targets.now }
    ensures set { OnOk result (AddsValid (λ t. begins (own id.now) t && is_wanted rules t) targets.now marks.old.items marks.new.items) }
    ensures valid { IsPackage id.now }
{
    let text = package_text(alloc, id)?;
    add_beginning(alloc, targets, &text, b':', rules, marks)
}

/// Adds the targets of the packages beneath a package; with `rules` only their rules.
fn add_beneath(
    alloc: Global,
    targets: &[Target],
    id: &PackageId,
    rules: bool,
    marks: &mut Vec<bool>,
) -> Result<(), AllocError>
    requires order { AreInOrder targets.now }
    requires long { length marks.old.items ≡ length targets.now }
    ensures { OnOk result (AddsValid (λ t. begins (beneath id.now) t && is_wanted rules t) targets.now marks.old.items marks.new.items) }
{
    let text = beneath_text(alloc, id)?;
    add_beginning(alloc, targets, &text, b'/', rules, marks)
}

/// Adds the targets of a package, and with `deep` those of the packages beneath it; with `rules` only the rules.
pub fn add_package(
    alloc: Global,
    targets: &[Target],
    id: &PackageId,
    deep: bool,
    rules: bool,
    marks: &mut Vec<bool>,
) -> Result<(), AllocError>
    requires order { AreInOrder targets.now }
    requires long { length marks.old.items ≡ length targets.now }
    ensures { OnOk result (Adds (names (pattern_at deep rules id.now)) targets.now marks.old.items marks.new.items) }
{
    add_own(alloc, targets, id, rules, marks)?;
    if !deep {
        return Ok(());
    }
    add_beneath(alloc, targets, id, rules, marks)
}

/// Adds the target with this label.
pub fn add_label(targets: &[Target], label: &Label, marks: &mut Vec<bool>)
    requires order { AreInOrder targets.now }
    requires long { length marks.old.items ≡ length targets.now }
    ensures { Adds (has_label label.now) targets.now marks.old.items marks.new.items }
{
    match target_of(targets, label) {
        Some(at) => marks[at] = true,
        None => {}
    }
}

/// Adds the targets that the pattern names. Fails with Q5 or Q6 if what it names isn't there; a pattern that ends with
/// `/...` is never wrong.
pub fn add_pattern(
    alloc: Global,
    packages: &[PackageId],
    targets: &[Target],
    pattern: &TargetPattern,
    marks: &mut Vec<bool>,
) -> Result<(), QueryErr>
    requires packages { IsStrictlySortedBy id_cmp packages.now }
    requires order { AreInOrder targets.now }
    requires long { length marks.old.items ≡ length targets.now }
    ensures fault { Meets (missing packages.now targets.now pattern.now) result }
    ensures set { OnOk result (Adds (names pattern.now) targets.now marks.old.items marks.new.items) }
{
    match pattern {
        TargetPattern::Target(label) => {
            let at = target_named(alloc, packages, targets, label)?;
            marks[at] = true;
            Ok(())
        }
        TargetPattern::Rules(id) => {
            needs_package(alloc, packages, b":all", id)?;
            Ok(add_package(alloc, targets, id, false, true, marks)?)
        }
        TargetPattern::All(id) => {
            needs_package(alloc, packages, b":*", id)?;
            Ok(add_package(alloc, targets, id, false, false, marks)?)
        }
        TargetPattern::RulesBeneath(id) => Ok(add_package(alloc, targets, id, true, true, marks)?),
        TargetPattern::AllBeneath(id) => Ok(add_package(alloc, targets, id, true, false, marks)?),
    }
}
