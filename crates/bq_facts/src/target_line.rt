//! The lines of targets.

ghost use Rattle.std.specs.Prelude.{◌≡◌, ◌++◌, ◌∷◌, IfOk, OnOk};
ghost use Rattle.std.specs.List.{join_by};
ghost use Rattle.std.specs.Option.{option_copied};
ghost use Rattle.bq_package_values.specs.JsonParts.{comma, member_text};
ghost use Rattle.bq_facts.specs.Members.{further_members};
ghost use Rattle.bq_facts.specs.TargetLine.{build_path, file_of, named, names_member, declared_members, declared_by, target_line};

use crate::attributes::push_attributes;
use crate::json_text::next_key;
use crate::lists::push_labels;
use crate::members::{next_number, next_string, open_with_label};
use crate::names::named_labels;
use crate::shared_text::SharedText;
use bq_label::{BuildFile, Label, Packages, label_path};
use bq_package_target::{Target, TargetKind};
use bq_query_function::write_kind;
use std::alloc::{AllocError, Global};

/// Returns the path of a package's BUILD file.
fn build_path(build_file: Option<&BuildFile>) -> &[u8]
    ensures { result.now ≡ build_path (option_copied build_file.entry) }
{
    match build_file {
        None => &[],
        Some(build_file) => build_file.path.as_slice(),
    }
}

/// Returns the path of a target's file: a source file's own, and else that of its package's BUILD file.
pub fn file_of(alloc: Global, packages: &Packages, target: &Target) -> Result<Vec<u8>, AllocError>
    ensures { IfOk result (λ path. path.items ≡ file_of packages.now target.now) }
{
    if target.kind.is_source() {
        label_path(alloc, &target.label)
    } else {
        build_path(packages.named(target.label.package_id())).to_vec(alloc)
    }
}

/// Begins the object of a target with the members that every target has.
fn push_named(
    alloc: Global,
    text: &mut SharedText,
    target: &Target,
    file: &[u8],
) -> Result<(), AllocError>
    ensures { OnOk result (text.new ≡ text.old ++ (123 ∷ join_by member_text comma (named target.now file.now))) }
{
    let mut kind = Vec::new(alloc);
    write_kind(&target.kind, &mut kind)?;
    open_with_label(alloc, text, b"target", &target.label)?;
    next_string(alloc, text, b"kind", &kind)?;
    next_string(alloc, text, b"file", file)
}

/// Appends the labels that a target names.
fn push_names(alloc: Global, text: &mut SharedText, target: &Target) -> Result<(), AllocError>
    ensures { OnOk result (text.new ≡ text.old ++ (comma ++ member_text (names_member target.now))) }
{
    let names = named_labels(alloc, target)?;
    next_key(text, b"names")?;
    push_labels(alloc, text, &names)
}

/// Appends the line, the attributes, the names and the dependencies of a target.
fn push_declared(
    alloc: Global,
    text: &mut SharedText,
    target: &Target,
    deps: &[Label],
) -> Result<(), AllocError>
    ensures { OnOk result (text.new ≡ text.old ++ further_members (declared_members target.now deps.now)) }
{
    next_number(text, b"line", target.line as u64)?;
    next_key(text, b"attributes")?;
    push_attributes(alloc, text, target.attributes.as_slice())?;
    push_names(alloc, text, target)?;
    next_key(text, b"deps")?;
    push_labels(alloc, text, deps)
}

/// Appends what a target has that a call declares.
fn push_rest(
    alloc: Global,
    text: &mut SharedText,
    target: &Target,
    deps: &[Label],
) -> Result<(), AllocError>
    ensures { OnOk result (text.new ≡ text.old ++ further_members (declared_by target.now.kind target.now deps.now)) }
{
    match &target.kind {
        TargetKind::Source => Ok(()),
        TargetKind::Rule(_, _) => push_declared(alloc, text, target, deps),
        TargetKind::Generated(_) => push_declared(alloc, text, target, deps),
        TargetKind::Group => push_declared(alloc, text, target, deps),
    }
}

/// Appends the line of a target: an object with its label, its kind, the path of its file, and, unless it is a source file, the line of
/// the statement that declares it, its attributes, the labels that it names and those of what it depends on.
pub fn push_target(
    alloc: Global,
    text: &mut SharedText,
    target: &Target,
    file: &[u8],
    deps: &[Label],
) -> Result<(), AllocError>
    ensures { OnOk result (text.new ≡ text.old ++ target_line target.now file.now deps.now) }
{
    push_named(alloc, text, target, file)?;
    push_rest(alloc, text, target, deps)?;
    text.push(b'}')?;
    text.end_line(alloc)?;
    Ok(())
}
