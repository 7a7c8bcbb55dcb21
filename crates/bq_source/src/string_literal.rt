//! String literals, by the Starlark specification, "Lexical elements": "String literals".
//!
//! A literal is an opening, a body and the closing quotes. The body is read item by item: a byte that stands for itself, a
//! newline, or a backslash and what comes after it. The first closing quotes where an item could begin end the literal.

ghost use Rattle.std.specs.Prelude.{◌≡◌, ◌<◌, ◌≤◌, ◌+◌, ℕ, length, IfOk, IfSome, IsSome, Some, None, if◌then◌else◌, is_none, unwrap_or, ◌++◌, drop, take, OnOk, option_map, List, []};
ghost use Rattle.std.specs.Option.{option_or};
ghost use Rattle.std.specs.List.{prefix_len};
ghost use Rattle.bq_source.specs.StringLiteral as spec;
ghost use Rattle.bq_source.specs.StringLiteral.{BodyItem, values, FoundLiteral, SameCut, ValuedLiteral, IsLiteral, IsOpenLiteral, literal_of, AllStand, quoted};
ghost use Rattle.bq_source.specs.declared.string_literal.Quoting.{Quoting};
ghost use Rattle.bq_source.specs.declared.string_literal.StringLiteral.{StringLiteral};

use bq_base::Bytes;
use std::alloc::{AllocError, Global};

/// How a string literal is quoted.
#[derive(Clone, Copy)]
pub struct Quoting {
    /// With the prefix `r`: a backslash stands for itself.
    pub raw: bool,
    pub quote: u8,
    /// In three quotes on each side: it may hold newlines.
    pub triple: bool,
}

impl Quoting {
    fn quotes_len(self) -> usize
        ensures { result ≡ spec.quotes_len self }
    {
        if self.triple { 3 } else { 1 }
    }

    fn opening_len(self) -> usize
        ensures { result ≡ spec.opening_len self }
    {
        let prefix_len = if self.raw { 1 } else { 0 };
        prefix_len + self.quotes_len()
    }
}

/// A string literal that begins a text.
#[derive(Clone, Copy, Debug, PartialEq, Eq)]
pub struct StringLiteral {
    /// How many bytes it takes, its prefix and its quotes among them.
    pub len: usize,
    /// How many bytes of it are before its first escape that means nothing.
    pub bad_escape: Option<usize>,
}

/// What an item of a literal's body stands for.
#[derive(Clone, Copy)]
enum ItemValue {
    Byte(u8),
    /// A backslash and this byte, in a raw literal.
    BackslashAnd(u8),
    /// A newline after a backslash stands for nothing.
    Empty,
    /// An escape that there is not.
    BadEscape,
}

/// What is at one place of a literal's body.
#[derive(Clone, Copy)]
enum BodyPart {
    Closing,
    /// The end of the text, or a newline that the literal may not hold.
    Unclosed,
    /// An item, with the number of bytes that it takes after its first one.
    Item(usize, ItemValue),
}

/// Returns whether two of this byte come next.
pub fn begins_pair(b: u8, text: &[u8]) -> bool
    ensures { result ≡ spec.begins_pair b text.now }
{
    match text {
        [first, second, ..] => *first == b && *second == b,
        _ => false,
    }
}

/// Returns how the string literal that begins here is quoted, if one does.
#[tactic(auto, unfolding(crate::specs::StringLiteral::opening))]
fn opening(text: &[u8]) -> Option<Quoting>
    ensures quoting { result ≡ spec.opening text.now }
    ensures within { IfSome result (λ q. spec.opening_len q ≤ length text.now) }
{
    let (raw, quotes) = match text {
        [b'r', after @ ..] => (true, after),
        _ => (false, text),
    };
    match quotes {
        [quote, after @ ..] if *quote == b'"' || *quote == b'\'' => Some(Quoting {
            raw,
            quote: *quote,
            triple: begins_pair(*quote, after),
        }),
        _ => None,
    }
}

/// Returns whether a string literal begins here: a quote, or `r` before one.
pub fn begins_string(text: &[u8]) -> bool
    ensures { result ≡ spec.begins_string text.now }
{
    opening(text).is_some()
}

/// Returns whether the closing quotes come next.
fn closes(quoting: Quoting, text: &[u8]) -> bool
    ensures { result ≡ spec.closes quoting text.now }
{
    match text {
        [first, after @ ..] => *first == quoting.quote
            && (!quoting.triple || begins_pair(quoting.quote, after)),
        [] => false,
    }
}

/// Returns how many bytes the newline takes that comes next, 0 where none does.
fn newline_len(text: &[u8]) -> usize
    ensures len { result ≡ spec.newline_len text.now }
    ensures within { result ≤ length text.now }
{
    match text {
        [b'\n', ..] => 1,
        [b'\r', b'\n', ..] => 2,
        _ => 0,
    }
}

/// Returns what a backslash and this byte stand for.
fn escape(c: u8) -> ItemValue
    ensures { result ≡ spec.escape c }
{
    match c {
        b'n' => ItemValue::Byte(b'\n'),
        b'r' => ItemValue::Byte(b'\r'),
        b't' => ItemValue::Byte(b'\t'),
        b'\\' | b'\'' | b'"' => ItemValue::Byte(c),
        _ => ItemValue::BadEscape,
    }
}

/// Returns the item that a backslash begins, by what comes after it.
fn after_backslash(raw: bool, after: &[u8]) -> BodyPart
    ensures part { result ≡ spec.after_backslash raw after.now }
    ensures within { spec.IsWithin result (length after.now + 1) 1 }
{
    let newline = newline_len(after);
    if newline > 0 {
        let value = if raw {
            ItemValue::BackslashAnd(b'\n')
        } else {
            ItemValue::Empty
        };
        return BodyPart::Item(newline, value);
    }
    match after {
        [c, ..] if raw => BodyPart::Item(1, ItemValue::BackslashAnd(*c)),
        [c, ..] => BodyPart::Item(1, escape(*c)),
        [] => BodyPart::Unclosed,
    }
}

/// Returns what a byte other than a backslash and the closing quotes is, given the length of the newline that begins with it, or 0.
fn plain(quoting: Quoting, b: u8, newline: usize) -> BodyPart
    ensures { result ≡ spec.plain_by quoting b newline }
{
    if newline == 0 {
        BodyPart::Item(0, ItemValue::Byte(b))
    } else if quoting.triple {
        BodyPart::Item(newline - 1, ItemValue::Byte(b'\n'))
    } else {
        BodyPart::Unclosed
    }
}

/// Returns what is at a place of a body, by the text from there.
#[tactic(auto, unfolding(crate::specs::StringLiteral::body_part))]
fn body_part(quoting: Quoting, text: &[u8]) -> BodyPart
    ensures part { result ≡ spec.body_part quoting text.now }
    ensures within { spec.IsWithin result (length text.now) (spec.quotes_len quoting) }
{
    match text {
        [] => BodyPart::Unclosed,
        [b'\\', after @ ..] => after_backslash(quoting.raw, after),
        [first, ..] => {
            if closes(quoting, text) {
                BodyPart::Closing
            } else {
                plain(quoting, *first, newline_len(text))
            }
        }
    }
}

/// Returns the first bad escape of those before this item and this item.
fn first_bad(earlier: Option<usize>, at: usize, value: ItemValue) -> Option<usize>
    ensures { result ≡ option_or earlier (if is_none (spec.item_value value) then Some at else None) }
{
    match (earlier, value) {
        (None, ItemValue::BadEscape) => Some(at),
        _ => earlier,
    }
}

/// Returns the text from a place on.
pub fn rest_of(text: &[u8], at: usize) -> &[u8]
    requires { at ≤ length text.now }
    ensures { result.now ≡ drop at text.now }
{
    &text[at..]
}

/// Returns the place of the first byte from here on that need not stand for itself, or the end.
pub fn past_plain(quote: u8, text: &[u8], at: usize) -> usize
    requires { at ≤ length text.now }
    ensures run { result ≡ at + prefix_len (spec.is_plain quote) (drop at text.now) }
    ensures within { result ≤ length text.now }
{
    let mut end = at;
    while end < text.len() {
        let b = text[end];
        // Most bytes are above all of these but the backslash.
        let is_plain = if b > quote && b > b'\r' {
            b != b'\\'
        } else {
            b != quote && b != b'\\' && b != b'\n' && b != b'\r'
        };
        if !is_plain {
            return end;
        }
        end += 1;
    }
    end
}

/// Returns the string literal that begins here, or `None` where it does not end.
pub fn scan_string(text: &[u8]) -> Option<StringLiteral>
    ensures literal { result ≡ spec.scan_string text.now }
    ensures within { IfSome result (λ l. l.len ≤ length text.now) }
    ensures escape_within { IfSome result (λ l. IfSome l.bad_escape (λ at. at < l.len)) }
{
    let quoting = opening(text)?;
    let mut at = quoting.opening_len();
    let mut bad_escape = None;
    'items: loop {
        let here = past_plain(quoting.quote, text, at);
        match body_part(quoting, rest_of(text, here)) {
            BodyPart::Closing => {
                let len = here + quoting.quotes_len();
                return Some(StringLiteral { len, bad_escape });
            }
            BodyPart::Unclosed => return None,
            BodyPart::Item(more, value) => {
                bad_escape = first_bad(bad_escape, here, value);
                at = here + (1 + more);
            }
        }
    }
}

/// Appends what an item stands for.
fn push_item(value: &mut Vec<u8>, item: ItemValue) -> Result<(), AllocError>
    ensures { OnOk result (value.new.items ≡ value.old.items ++ unwrap_or (spec.item_value item) []) }
{
    match item {
        ItemValue::Byte(b) => value.push(b)?,
        ItemValue::BackslashAnd(b) => value.extend_from_slice(&[b'\\', b])?,
        ItemValue::Empty => {}
        ItemValue::BadEscape => {}
    }
    Ok(())
}

/// Returns what the items of a body stand for, which the closing quotes follow.
fn unescaped(alloc: Global, quoting: Quoting, body: &[u8]) -> Result<Vec<u8>, AllocError>
    requires { IsSome (spec.items quoting 0 body.now) }
    ensures { IfOk result (λ value. option_map spec.values (spec.items quoting 0 body.now) ≡ Some value.items) }
{
    let mut value = Vec::with_capacity(alloc, body.len())?;
    let mut at = 0;
    'items: while let BodyPart::Item(more, item) = body_part(quoting, rest_of(body, at)) {
        push_item(&mut value, item)?;
        at += 1 + more;
    }
    Ok(value)
}

/// Returns the value of a string literal, from its whole spelling. Where each byte stands for itself nothing is built beside it.
pub fn string_value(alloc: Global, literal: &[u8]) -> Result<Bytes, AllocError>
    requires { IsSome (spec.string_value literal.now) }
    ensures { IfOk result (λ value. spec.string_value literal.now ≡ Some value) }
{
    let quoting = opening(literal).unwrap();
    let body = rest_of(literal, quoting.opening_len());
    // Each byte stands for itself: no backslash means anything, and no newline is CR LF.
    if !body.contains(&b'\r') && (quoting.raw || !body.contains(&b'\\')) {
        return Bytes::from_slice(alloc, &body[..body.len() - quoting.quotes_len()]);
    }
    Bytes::from_vec(alloc, unescaped(alloc, quoting, body)?)
}

// What string literals are, in words of the text alone. These functions do nothing: their contracts are the laws.

/// A literal is found exactly where the text begins with one: an opening, items, and the first closing quotes that come where an
/// item could begin.
pub fn literals_are_cut_into_items()
    ensures found { (text : List ℕ) (l : StringLiteral) → spec.scan_string text ≡ Some l → FoundLiteral text l }
    ensures complete { (q : Quoting) (text : List ℕ) (is : List BodyItem) (rest : List ℕ) → IsLiteral q text is rest → spec.scan_string text ≡ Some (literal_of q is) }
{}

/// A text is cut into a literal's items in one way.
pub fn literals_are_cut_in_one_way()
    ensures { (text : List ℕ) (q p : Quoting) (is js : List BodyItem) (rest tail : List ℕ) → IsLiteral q text is rest → IsLiteral p text js tail → SameCut q p is js rest tail }
{}

/// A literal that begins has no end exactly where, after some of its items, the text ends or has a newline that the literal may
/// not hold.
pub fn open_literals_have_no_end()
    ensures found { (text : List ℕ) → IsSome (spec.opening text) → spec.scan_string text ≡ None → IsOpenLiteral text }
    ensures complete { (text : List ℕ) → IsOpenLiteral text → spec.scan_string text ≡ None }
{}

/// The value of a literal is what its items stand for, in a row. A spelling has a value exactly where it is one literal and each
/// item of it stands for something.
pub fn values_are_those_of_the_items()
    ensures found { (literal value : List ℕ) → spec.string_value literal ≡ Some value → ValuedLiteral literal value }
    ensures complete { (q : Quoting) (literal : List ℕ) (is : List BodyItem) → IsLiteral q literal is [] → AllStand is → spec.string_value literal ≡ Some (values is) }
{}

/// Each literal that is found and has no bad escape has a value.
pub fn each_literal_has_a_value()
    ensures { (text : List ℕ) (l : StringLiteral) → spec.scan_string text ≡ Some l → l.bad_escape ≡ None → IsSome (spec.string_value (take l.len text)) }
{}

/// What `repr` writes of a string is one literal, whose value is the string.
pub fn quoted_strings_read_back()
    ensures literal { (bytes : List ℕ) → spec.scan_string (quoted bytes) ≡ Some (record { len = length (quoted bytes); bad_escape = None }) }
    ensures value { (bytes : List ℕ) → spec.string_value (quoted bytes) ≡ Some bytes }
{}
