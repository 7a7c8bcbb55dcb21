//! The texts of packages and targets: of a package, a target's kind, its label, and an attribute of it.

ghost use Rattle.std.specs.Prelude.{◌≡◌, ◌++◌, ◌∷◌, codes, Some, None, IfOk, OnOk, bytes_eq, if◌then◌else◌};
ghost use Rattle.std.specs.List.{find};
ghost use Rattle.std.specs.Option.{option_copied, is_some};
ghost use Rattle.bq_label.specs.Label.{IsPackage};
ghost use Rattle.bq_query_function.specs.Words.{package_text};
ghost use Rattle.bq_query_function.specs.Texts as spec;
ghost use Rattle.bq_query_function.specs.Texts.{kind_text, given, subject_text, attribute_text, text_by};

use bq_label::{PackageId, write_label};
use bq_package_target::{GivenAttribute, Target, TargetKind, attribute_type};
use bq_value_datum::{RuleClass, default_text};
use std::alloc::{AllocError, Global};

/// What of a target a pattern is looked for in.
#[derive(Clone, Copy)]
pub enum Subject<'a> {
    Kind,
    Label,
    /// The attribute of this name.
    Attribute(&'a [u8]),
}

/// Writes `NAME rule`, `source file`, `generated file` or `package group`.
#[tactic(auto, unfolding(crate::specs::Texts::kind_text))]
pub fn write_kind(kind: &TargetKind, text: &mut Vec<u8>) -> Result<(), AllocError>
    ensures { OnOk result (text.new.items ≡ text.old.items ++ kind_text kind.now) }
{
    match kind {
        TargetKind::Rule(name, _) => {
            text.extend_from_slice(name.as_slice())?;
            text.extend_from_slice(b" rule")
        }
        TargetKind::Source => text.extend_from_slice(b"source file"),
        TargetKind::Generated(_) => text.extend_from_slice(b"generated file"),
        TargetKind::Group => text.extend_from_slice(b"package group"),
    }
}

/// Returns `//package`, or `@repository//package`.
pub fn package_text(alloc: Global, id: &PackageId) -> Result<Vec<u8>, AllocError>
    ensures text { IfOk result (λ text. text.items ≡ package_text id.now) }
    ensures valid { IsPackage id.now }
{
    let mut text = Vec::new(alloc);
    if !id.repo().is_empty() {
        text.push(b'@')?;
        text.extend_from_slice(id.repo().as_slice())?;
    }
    text.extend_from_slice(b"//")?;
    text.extend_from_slice(id.package().as_slice())?;
    Ok(text)
}

/// Returns an attribute of the target, with what the call gives it or the default that the rule gives it.
pub fn given<'a>(name: &[u8], target: &'a Target) -> Option<&'a GivenAttribute>
    ensures { option_copied result ≡ given name.now target.now }
{
    let mut rest = target.attributes.as_slice();
    while let [first, more @ ..] = rest {
        if first.name.as_slice() == name {
            return Some(first);
        }
        rest = more;
    }
    None
}

/// Writes an attribute of a rule. Returns whether there is one.
fn write_attribute(
    class: &RuleClass,
    name: &[u8],
    target: &Target,
    text: &mut Vec<u8>,
) -> Result<bool, AllocError>
    ensures { IfOk result (λ has. (if has then Some text.new.items else None) ≡ spec.onto text.old.items (text_by (given name.now target.now) class.now name.now)) }
{
    match given(name, target) {
        Some(attribute) => {
            attribute.value.write(text)?;
            Ok(true)
        }
        None => match default_text(attribute_type(class, name)) {
            Some(default) => {
                text.extend_from_slice(default)?;
                Ok(true)
            }
            None => Ok(false),
        },
    }
}

/// Writes the text of a target that a pattern is looked for in. Returns whether there is one.
#[tactic(auto, unfolding(crate::specs::Texts::attribute_text))]
pub fn write_subject(
    subject: Subject<'_>,
    target: &Target,
    text: &mut Vec<u8>,
) -> Result<bool, AllocError>
    ensures { IfOk result (λ has. (if has then Some text.new.items else None) ≡ spec.onto text.old.items (subject_text subject.entry target.now)) }
{
    match subject {
        Subject::Kind => {
            write_kind(&target.kind, text)?;
            Ok(true)
        }
        Subject::Label => {
            write_label(&target.label, text)?;
            Ok(true)
        }
        Subject::Attribute(name) => match &target.kind {
            TargetKind::Rule(_, class) => write_attribute(class, name, target, text),
            _ => Ok(false),
        },
    }
}
