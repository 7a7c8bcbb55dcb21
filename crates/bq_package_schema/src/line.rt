//! What one line of a schema says.

ghost use Rattle.std.specs.Prelude.{◌≡◌, ◌==◌, map, codes, bytes_eq, if◌then◌else◌, IfOk};
ghost use Rattle.std.specs.List.{list_all, slice_split};
ghost use Rattle.bq_source.specs.Lexis.{is_blank};
ghost use Rattle.bq_package_schema.specs.Line.{is_skipped, words, rule_line, attribute_line, words_line, line_of};
ghost use Rattle.bq_package_schema.specs.declared.line.Line.TheVariants as line;

use bq_base::Bytes;
use bq_parse_grammar::is_identifier;
use bq_predeclared::{predeclared_named, type_named};
use bq_value_datum::{Attribute, common_attribute};
use std::alloc::{AllocError, Global};

/// What a line says.
#[derive(Drop)]
pub enum Line {
    /// It is blank or a comment.
    Skipped,
    /// `rule NAME`
    Rule(Bytes),
    /// `attr NAME TYPE`, and perhaps `mandatory`
    Attribute(Bytes, Attribute),
    /// It is anything else.
    Other,
}

fn is_blank(byte: u8) -> bool
    ensures { result ≡ is_blank byte }
{
    byte == b' ' || byte == b'\t'
}

/// Returns whether the line consists of blanks alone.
fn are_blanks(line: &[u8]) -> bool
    ensures { result ≡ list_all is_blank line.now }
{
    line.iter().all(|byte| is_blank(*byte))
}

/// Returns whether the line is blank or a comment.
#[tactic(auto, unfolding(crate::specs::Line::is_skipped))]
fn is_skipped(line: &[u8]) -> bool
    ensures { result ≡ is_skipped line.now }
{
    match line {
        [] => true,
        [b'#', ..] => true,
        _ => are_blanks(line),
    }
}

/// Returns the words of a line, which single spaces separate.
fn words(alloc: Global, line: &[u8]) -> Result<Vec<&[u8]>, AllocError>
    ensures { IfOk result (λ v. map (λ w. w.now) v.items ≡ words line.now) }
{
    line.split(|byte| *byte == b' ').collect(alloc)
}

/// Reads `rule NAME`.
#[tactic(auto, unfolding(crate::specs::Line::rule_line, crate::specs::Line::names_rule, crate::specs::Line::is_predeclared))]
fn rule_line(alloc: Global, name: &[u8]) -> Result<Line, AllocError>
    ensures { IfOk result (λ line. line ≡ rule_line name.now) }
{
    // Files have the names of a kind, and `native`, without a schema.
    if !is_identifier(name) || predeclared_named(name).is_some() || name == b"native".as_slice() {
        return Ok(Line::Other);
    }
    let name = Bytes::from_slice(alloc, name)?;
    Ok(Line::Rule(name))
}

/// Reads `attr NAME TYPE` from its words.
#[tactic(auto, unfolding(crate::specs::Line::attribute_line, crate::specs::Line::names_attribute))]
fn attribute_line(
    alloc: Global,
    key: &[u8],
    name: &[u8],
    kind: &[u8],
    is_mandatory: bool,
) -> Result<Line, AllocError>
    ensures { IfOk result (λ said. said ≡ (if bytes_eq key.now (codes "attr") then attribute_line name.now kind.now is_mandatory else line.Other)) }
{
    if key != b"attr".as_slice() {
        return Ok(Line::Other);
    }
    if !is_identifier(name) || common_attribute(name).is_some() {
        return Ok(Line::Other);
    }
    let Some(kind) = type_named(kind) else {
        return Ok(Line::Other);
    };
    let name = Bytes::from_slice(alloc, name)?;
    let attribute = Attribute {
        kind,
        is_mandatory,
        default: None,
    };
    Ok(Line::Attribute(name, attribute))
}

/// Reads a line of these words.
#[tactic(auto, unfolding(crate::specs::Line::words_line))]
fn words_line(alloc: Global, words: &[&[u8]]) -> Result<Line, AllocError>
    ensures { IfOk result (λ line. line ≡ words_line (map (λ w. w.now) words.now)) }
{
    match words {
        [key, name] if *key == b"rule".as_slice() => rule_line(alloc, name),
        [key, name, kind] => attribute_line(alloc, key, name, kind, false),
        [key, name, kind, mark] if *mark == b"mandatory".as_slice() => {
            attribute_line(alloc, key, name, kind, true)
        }
        _ => Ok(Line::Other),
    }
}

/// Reads a line.
#[tactic(auto, unfolding(crate::specs::Line::line_of))]
pub fn line_of(alloc: Global, line: &[u8]) -> Result<Line, AllocError>
    ensures { IfOk result (λ l. l ≡ line_of line.now) }
{
    if is_skipped(line) {
        return Ok(Line::Skipped);
    }
    let words = words(alloc, line)?;
    words_line(alloc, &words)
}
