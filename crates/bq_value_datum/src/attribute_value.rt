//! The values of attributes (Bazel, "attr"; Bazel query reference, `attr`, `labels`): which labels they hold, how they are written, and when
//! two are the same. A type has its lines here.

ghost use Rattle.std.specs.Prelude.{◌≡◌, ◌++◌, IfOk, OnOk};
ghost use Rattle.std.specs.Option.{option_copied};
ghost use Rattle.bq_value_datum.specs.AttributeValue.{labels_of, outputs_of, all_labels_of, names_outputs, is_blank, value_text, default_text, same_value};
ghost use Rattle.bq_value_datum.specs.declared.attribute_value.AttributeValue.TheVariants as v;

use crate::attribute_same::{are_same_labels, are_same_texts, is_same_label};
use crate::list_text::{write_int, write_labels, write_strings};
use crate::shared_list::SharedList;
use bq_label::{Bytes, Label, write_label};
use bq_predeclared::AttributeType;
use std::alloc::AllocError;
use std::slice::from_ref;

/// What an attribute is given, or has by default.
#[derive(Drop)]
pub enum AttributeValue {
    String(Bytes),
    Int(i64),
    Bool(bool),
    StringList(SharedList<Bytes>),
    Label(Label),
    LabelList(SharedList<Label>),
    /// A file that the rule makes.
    Output(Label),
    OutputList(SharedList<Label>),
}

impl AttributeValue {
    /// Shares the value. Only texts of up to 22 bytes are copied, and no list.
    pub fn share(&self) -> Result<AttributeValue, AllocError>
        ensures { IfOk result (λ v. v ≡ self.now) }
    {
        Ok(match self {
            AttributeValue::String(text) => AttributeValue::String(text.share()?),
            AttributeValue::Int(n) => AttributeValue::Int(*n),
            AttributeValue::Bool(b) => AttributeValue::Bool(*b),
            AttributeValue::StringList(all) => AttributeValue::StringList(all.share()?),
            AttributeValue::Label(label) => AttributeValue::Label(label.share()?),
            AttributeValue::LabelList(all) => AttributeValue::LabelList(all.share()?),
            AttributeValue::Output(label) => AttributeValue::Output(label.share()?),
            AttributeValue::OutputList(all) => AttributeValue::OutputList(all.share()?),
        })
    }

    /// Returns the labels of other targets in the value: those of types label and label_list alone.
    pub fn labels(&self) -> &[Label]
        ensures { result.now ≡ labels_of self.now }
    {
        match self {
            AttributeValue::String(_) => &[],
            AttributeValue::Int(_) => &[],
            AttributeValue::Bool(_) => &[],
            AttributeValue::StringList(_) => &[],
            AttributeValue::Label(label) => from_ref(label),
            AttributeValue::LabelList(labels) => labels.as_slice(),
            AttributeValue::Output(_) => &[],
            AttributeValue::OutputList(_) => &[],
        }
    }

    /// Returns the files that the value names as outputs.
    pub fn outputs(&self) -> &[Label]
        ensures { result.now ≡ outputs_of self.now }
    {
        match self {
            AttributeValue::String(_) => &[],
            AttributeValue::Int(_) => &[],
            AttributeValue::Bool(_) => &[],
            AttributeValue::StringList(_) => &[],
            AttributeValue::Label(_) => &[],
            AttributeValue::LabelList(_) => &[],
            AttributeValue::Output(label) => from_ref(label),
            AttributeValue::OutputList(labels) => labels.as_slice(),
        }
    }

    /// Returns all labels in the value, of targets and of outputs.
    pub fn all_labels(&self) -> &[Label]
        ensures { result.now ≡ all_labels_of self.now }
    {
        match self {
            AttributeValue::String(_) => &[],
            AttributeValue::Int(_) => &[],
            AttributeValue::Bool(_) => &[],
            AttributeValue::StringList(_) => &[],
            AttributeValue::Label(label) => from_ref(label),
            AttributeValue::LabelList(labels) => labels.as_slice(),
            AttributeValue::Output(label) => from_ref(label),
            AttributeValue::OutputList(labels) => labels.as_slice(),
        }
    }

    /// Returns whether the value names outputs, which have no defaults.
    pub fn names_outputs(&self) -> bool
        ensures { result ≡ names_outputs self.now }
    {
        match self {
            AttributeValue::Output(_) => true,
            AttributeValue::OutputList(_) => true,
            _ => false,
        }
    }

    /// Returns the strings of a list.
    pub fn strings(&self) -> &[Bytes] {
        match self {
            AttributeValue::StringList(strings) => strings.as_slice(),
            _ => &[],
        }
    }

    /// Returns whether this is the value that an attribute of the type has without a default.
    pub fn is_blank(&self) -> bool
        ensures { result ≡ is_blank self.now }
    {
        match self {
            AttributeValue::String(text) => text.as_slice().is_empty(),
            AttributeValue::Int(n) => *n == 0,
            AttributeValue::Bool(b) => !*b,
            AttributeValue::StringList(texts) => texts.as_slice().is_empty(),
            AttributeValue::LabelList(labels) => labels.as_slice().is_empty(),
            _ => false,
        }
    }

    /// Writes strings as they are, integers in decimal, 1 for true and 0 for false, labels in full.
    #[tactic(auto, unfolding(crate::specs::AttributeValue::value_text))]
    pub fn write(&self, text: &mut Vec<u8>) -> Result<(), AllocError>
        ensures { OnOk result (text.new.items ≡ text.old.items ++ value_text self.now) }
    {
        match self {
            AttributeValue::String(string) => text.extend_from_slice(string.as_slice()),
            AttributeValue::Int(n) => write_int(*n, text),
            AttributeValue::Bool(true) => text.extend_from_slice(b"1"),
            AttributeValue::Bool(false) => text.extend_from_slice(b"0"),
            AttributeValue::StringList(strings) => write_strings(strings.as_slice(), text),
            AttributeValue::Label(label) => write_label(label, text),
            AttributeValue::LabelList(labels) => write_labels(labels.as_slice(), text),
            AttributeValue::Output(label) => write_label(label, text),
            AttributeValue::OutputList(labels) => write_labels(labels.as_slice(), text),
        }
    }

    /// Returns whether both are of one type, and equal in each part.
    pub fn is_same(&self, other: &AttributeValue) -> bool
        ensures { result ≡ same_value self.now other.now }
    {
        match self {
            AttributeValue::String(x) => is_string(x, other),
            AttributeValue::Int(x) => is_int(*x, other),
            AttributeValue::Bool(x) => is_bool(*x, other),
            AttributeValue::StringList(xs) => is_string_list(xs.as_slice(), other),
            AttributeValue::Label(x) => is_label(x, other),
            AttributeValue::LabelList(xs) => is_label_list(xs.as_slice(), other),
            AttributeValue::Output(x) => is_output(x, other),
            AttributeValue::OutputList(xs) => is_output_list(xs.as_slice(), other),
        }
    }
}

/// Returns the text of an attribute that isn't given and has no default of its own.
#[tactic(auto, unfolding(crate::specs::AttributeValue::default_text))]
pub fn default_text(kind: Option<AttributeType>) -> Option<&'static [u8]>
    ensures { option_copied result ≡ default_text kind }
{
    match kind {
        None => None,
        Some(AttributeType::String) => Some(b""),
        Some(AttributeType::Int) => Some(b"0"),
        Some(AttributeType::Bool) => Some(b"0"),
        Some(AttributeType::StringList) => Some(b"[]"),
        Some(AttributeType::Label) => None,
        Some(AttributeType::LabelList) => Some(b"[]"),
        Some(AttributeType::Output) => None,
        Some(AttributeType::OutputList) => Some(b"[]"),
    }
}

fn is_string(x: &Bytes, b: &AttributeValue) -> bool
    ensures { result ≡ same_value (v.String x.now) b.now }
{
    match b {
        AttributeValue::String(y) => x == y,
        _ => false,
    }
}

fn is_int(x: i64, b: &AttributeValue) -> bool
    ensures { result ≡ same_value (v.Int x) b.now }
{
    match b {
        AttributeValue::Int(y) => x == *y,
        _ => false,
    }
}

fn is_bool(x: bool, b: &AttributeValue) -> bool
    ensures { result ≡ same_value (v.Bool x) b.now }
{
    match b {
        AttributeValue::Bool(y) => x == *y,
        _ => false,
    }
}

fn is_string_list(xs: &[Bytes], b: &AttributeValue) -> bool
    ensures { result ≡ same_value (v.StringList xs.now) b.now }
{
    match b {
        AttributeValue::StringList(ys) => are_same_texts(xs, ys.as_slice()),
        _ => false,
    }
}

fn is_label(x: &Label, b: &AttributeValue) -> bool
    ensures { result ≡ same_value (v.Label x.now) b.now }
{
    match b {
        AttributeValue::Label(y) => is_same_label(x, y),
        _ => false,
    }
}

fn is_label_list(xs: &[Label], b: &AttributeValue) -> bool
    ensures { result ≡ same_value (v.LabelList xs.now) b.now }
{
    match b {
        AttributeValue::LabelList(ys) => are_same_labels(xs, ys.as_slice()),
        _ => false,
    }
}

fn is_output(x: &Label, b: &AttributeValue) -> bool
    ensures { result ≡ same_value (v.Output x.now) b.now }
{
    match b {
        AttributeValue::Output(y) => is_same_label(x, y),
        _ => false,
    }
}

fn is_output_list(xs: &[Label], b: &AttributeValue) -> bool
    ensures { result ≡ same_value (v.OutputList xs.now) b.now }
{
    match b {
        AttributeValue::OutputList(ys) => are_same_labels(xs, ys.as_slice()),
        _ => false,
    }
}
