//! How labels and packages are read.

ghost use Rattle.std.specs.Prelude.{◌≡◌, IfOk, option_and_then};
ghost use Rattle.bq_base.specs.Fault.{fault_at};
ghost use Rattle.bq_base.specs.Gives.{Gives};
ghost use Rattle.bq_base.specs.declared.fault.EvalFault.TheVariants.{BadLabel};
ghost use Rattle.bq_base.specs.declared.fault.SourceErr.TheVariants.{Bad};
ghost use Rattle.bq_label.specs.Label.{package_at, label_at, label_in};
ghost use Rattle.bq_label.specs.Reading.{or_bad_label, label_of, valid_label, absolute_label, external_label, package_if_valid, package_of_text};

use crate::label::Label;
use crate::package_id::PackageId;
use crate::path::is_path;
use crate::split::{last_segment, split_once};
use bq_base::{Bytes, EvalFault, Fault, SourceErr};
use std::alloc::{AllocError, Global};

fn bad_label() -> SourceErr<EvalFault>
    ensures { result ≡ Bad (fault_at BadLabel 0) }
{
    SourceErr::Bad(Fault::at(EvalFault::BadLabel, 0))
}

/// Reads a name in a package.
#[tactic(auto, unfolding(crate::specs::Reading::valid_label, crate::specs::Reading::is_label))]
fn read_name(alloc: Global, package: PackageId, name: &[u8]) -> Result<Label, SourceErr<EvalFault>>
    ensures { Gives (λ label. label) Bad result (or_bad_label (valid_label (label_in «package» name.now))) }
{
    if !is_path(name) {
        return Err(bad_label());
    }
    let name = Bytes::from_slice(alloc, name)?;
    Ok(Label::new(package, name))
}

#[tactic(auto, unfolding(crate::specs::Reading::valid_label, crate::specs::Reading::is_label))]
fn read_parts(
    alloc: Global,
    repo: Bytes,
    package: &[u8],
    name: &[u8],
) -> Result<Label, SourceErr<EvalFault>>
    ensures { Gives (λ label. label) Bad result (or_bad_label (valid_label (label_at repo «package».now name.now))) }
{
    let package = Bytes::from_slice(alloc, package)?;
    match PackageId::new(alloc, repo, package)? {
        Some(package) => read_name(alloc, package, name),
        None => Err(bad_label()),
    }
}

/// Reads what follows `//`.
#[tactic(auto, unfolding(crate::specs::Reading::absolute_label))]
fn read_absolute(alloc: Global, repo: Bytes, text: &[u8]) -> Result<Label, SourceErr<EvalFault>>
    ensures { Gives (λ label. label) Bad result (or_bad_label (valid_label (absolute_label repo text.now))) }
{
    match split_once(text, b':') {
        Some((package, name)) => read_parts(alloc, repo, package, name),
        None => read_parts(alloc, repo, text, last_segment(text)),
    }
}

/// Reads what follows `@`.
#[tactic(auto, unfolding(crate::specs::Reading::external_label, crate::specs::Reading::label_of))]
fn read_external(alloc: Global, text: &[u8]) -> Result<Label, SourceErr<EvalFault>>
    ensures { Gives (λ label. label) Bad result (or_bad_label (option_and_then valid_label (external_label text.now))) }
{
    match split_once(text, b'/') {
        None => read_parts(alloc, Bytes::from_slice(alloc, text)?, &[], text),
        Some((repo, [b'/', rest @ ..])) => read_absolute(
            alloc,
            Bytes::from_slice(alloc, repo)?,
            rest,
        ),
        Some(_) => Err(bad_label()),
    }
}

/// Reads a text as a label in a file of the package. A text that isn't one is fault F78, at line 0.
///
/// The forms are those of Bazel's page "Labels": `//package:name`, `//a/b` for `//a/b:b`, `:name`, `name`, and
/// `@repository` in front of `//` or for `@repository//:repository`.
#[tactic(auto, unfolding(crate::specs::Reading::parts_of, crate::specs::Reading::label_of))]
pub fn read_label(
    alloc: Global,
    text: &[u8],
    package: &PackageId,
) -> Result<Label, SourceErr<EvalFault>>
    ensures { Gives (λ label. label) Bad result (or_bad_label (label_of «package».now text.now)) }
{
    match text {
        [b'@', rest @ ..] => read_external(alloc, rest),
        [b'/', b'/', rest @ ..] => read_absolute(alloc, package.repo().share()?, rest),
        [b':', name @ ..] => read_name(alloc, package.share()?, name),
        name => read_name(alloc, package.share()?, name),
    }
}

/// Reads a name in a package, and shares it.
#[tactic(auto, unfolding(crate::specs::Reading::valid_label, crate::specs::Reading::is_label))]
fn share_name(package: &PackageId, name: &Bytes) -> Result<Label, SourceErr<EvalFault>>
    ensures { Gives (λ label. label) Bad result (or_bad_label (valid_label (label_in «package».now name.now))) }
{
    if !is_path(name.as_slice()) {
        return Err(bad_label());
    }
    let name = name.share()?;
    Ok(Label::new(package.share()?, name))
}

/// Reads a text as [`read_label`] does. A text that is a name alone is shared and not copied.
#[tactic(auto, unfolding(crate::specs::Reading::parts_of, crate::specs::Reading::label_of))]
pub fn read_shared_label(
    alloc: Global,
    text: &Bytes,
    package: &PackageId,
) -> Result<Label, SourceErr<EvalFault>>
    ensures { Gives (λ label. label) Bad result (or_bad_label (label_of «package».now text.now)) }
{
    match text.as_slice() {
        [b'@', ..] => read_label(alloc, text.as_slice(), package),
        [b'/', b'/', ..] => read_label(alloc, text.as_slice(), package),
        [b':', ..] => read_label(alloc, text.as_slice(), package),
        _ => share_name(package, text),
    }
}

/// Makes the package of copies of its two names, if they are valid.
#[tactic(auto, unfolding(crate::specs::Reading::package_if_valid))]
fn package_at(alloc: Global, repo: &[u8], package: &[u8]) -> Result<Option<PackageId>, AllocError>
    ensures { IfOk result (λ found. found ≡ package_if_valid (package_at repo.now «package».now)) }
{
    let repo = Bytes::from_slice(alloc, repo)?;
    let package = Bytes::from_slice(alloc, package)?;
    PackageId::new(alloc, repo, package)
}

/// Reads the package that a text names: `//package`, or `@repository//package`. Returns `None` if it names none.
#[tactic(auto, unfolding(crate::specs::Reading::package_parts, crate::specs::Reading::package_of_text))]
pub fn read_package(alloc: Global, text: &[u8]) -> Result<Option<PackageId>, AllocError>
    ensures { IfOk result (λ found. found ≡ package_of_text text.now) }
{
    match text {
        [b'@', rest @ ..] => match split_once(rest, b'/') {
            Some((repo, [b'/', package @ ..])) => package_at(alloc, repo, package),
            Some(_) => Ok(None),
            None => Ok(None),
        },
        [b'/', b'/', package @ ..] => package_at(alloc, &[], package),
        _ => Ok(None),
    }
}
