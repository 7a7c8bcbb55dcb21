//! The places of a dict, of which some are empty.

ghost use Rattle.std.specs.Prelude.{◌≡◌, ◌+◌, ◌<◌, ◌^◌, length, IfSome, None, Bool, true, false, is_some, ◌≤◌, OnOk};
ghost use Rattle.std.specs.Map.{lookup};
ghost use Rattle.std.specs.List.{insert};
ghost use Rattle.bq_value_datum.specs.Datum.{Datum};
ghost use Rattle.bq_value_datum.specs.Same.{same};
ghost use Rattle.bq_value_dict.specs.Places.{live, empty_from, is_empty, Rises, passed, with_index};

use bq_value_datum::{Key, Seed, Value};
use indexmap::IndexMap;
use std::alloc::AllocError;

/// Returns whether the key is at a place that is empty.
fn is_empty_place(entries: &IndexMap<Key, Option<Value>, Seed>, key: &Key) -> bool
    ensures { result ≡ is_empty (lookup (same key.now) entries.now.entries) }
{
    match entries.get(key) {
        None => false,
        Some(value) => value.is_none(),
    }
}

/// Returns the index of the place of the pair at `index`, where the places with the indices `empty` are empty.
pub(crate) fn place_of(empty: &[usize], index: usize) -> usize
    requires rises { Rises 0 empty.now }
    requires fits { index + length empty.now < 2 ^ 64 }
    ensures { result ≡ passed index empty.now }
{
    let mut low = 0;
    let mut high = empty.len();
    while low < high {
        let middle = low + (high - low) / 2;
        if empty[middle] <= index + middle {
            low = middle + 1;
            continue;
        }
        high = middle;
    }
    index + low
}

/// Notes that the place at `index` has become empty. Takes all empty places out where they are many, or can't be noted.
pub(crate) fn leave_empty(
    entries: &mut IndexMap<Key, Option<Value>, Seed>,
    empty: &mut Vec<usize>,
    index: usize,
)
    requires { empty_from 0 entries.old.entries ≡ with_index index empty.old.items }
    ensures pairs { live entries.new.entries ≡ live entries.old.entries }
    ensures places { empty.new.items ≡ empty_from 0 entries.new.entries }
{
    let count = empty.len();
    if count / 64 > entries.len() / (count / 2 + 1) {
        close_up(entries, empty);
        return;
    }
    let at = index_among(empty, index);
    if empty.insert(at, index).is_err() {
        close_up(entries, empty);
    }
}

/// Returns where the index goes among others in order.
fn index_among(empty: &[usize], index: usize) -> usize
    ensures within { result ≤ length empty.now }
    ensures order { insert empty.now result index ≡ with_index index empty.now }
{
    let mut at = 0;
    while at < empty.len() {
        if empty[at] > index {
            return at;
        }
        at += 1;
    }
    at
}

/// Gives the place of `key` to a key that the dict doesn't have, if it is empty.
pub(crate) fn free_key(
    entries: &mut IndexMap<Key, Option<Value>, Seed>,
    empty: &mut Vec<usize>,
    next: &mut i64,
    key: &Key,
) -> Result<(), AllocError>
    requires { empty.old.items ≡ empty_from 0 entries.old.entries }
    ensures pairs { live entries.new.entries ≡ live entries.old.entries }
    ensures kept { empty.new.items ≡ empty_from 0 entries.new.entries }
    ensures free { OnOk result (is_empty (lookup (same key.now) entries.new.entries) ≡ false) }
{
    if !is_empty_place(entries, key) {
        return Ok(());
    }
    let Some(other) = absent_key(entries, next) else {
        close_up(entries, empty);
        return Ok(());
    };
    entries.insert(other, None)?;
    let _empty = entries.swap_remove(key);
    Ok(())
}

/// Returns an integer that is no key here. One that was tried is tried again only after all others.
fn absent_key(entries: &IndexMap<Key, Option<Value>, Seed>, next: &mut i64) -> Option<Key>
    ensures { IfSome result (λ key. lookup (same key) entries.now.entries ≡ None) }
{
    for _ in 0..entries.len() + 1 {
        let key = Key::new(Value::int(*next));
        *next = next.wrapping_add(1);
        if entries.get(&key).is_none() {
            return Some(key);
        }
    }
    None
}

/// Takes the empty places out.
fn close_up(entries: &mut IndexMap<Key, Option<Value>, Seed>, empty: &mut Vec<usize>)
    ensures pairs { live entries.new.entries ≡ live entries.old.entries }
    ensures places { empty.new.items ≡ empty_from 0 entries.new.entries }
    ensures free { (key : Datum) → is_empty (lookup (same key) entries.new.entries) ≡ false }
{
    entries.retain(
        |_key: &Key, value: &mut Option<Value>| -> bool
            ensures { (result ≡ is_some value.old) × (value.new ≡ value.old) }
        { value.is_some() },
    );
    empty.clear();
}
