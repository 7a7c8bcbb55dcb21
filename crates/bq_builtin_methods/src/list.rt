//! The methods of lists (Starlark, "Built-in methods"), and the changes that they make.

ghost use Rattle.std.specs.Prelude.{◌≡◌, ◌++◌, OnOk};
ghost use Rattle.bq_base.specs.Gives.{Gives};
ghost use Rattle.bq_value.specs.declared.error.EvalErr.TheVariants.{Bad};
ghost use Rattle.bq_builtin_machine.specs.Action.{Does};
ghost use Rattle.bq_builtin_machine.specs.Cells.{changing};
ghost use Rattle.bq_builtin_methods.specs.List.{on_items, appended, extended, inserted, popped, cleared, dropped, edited, list_changed, append, clear, extend, insert_at, pop, list_in, find, place_value, index, remove_value};

use crate::arguments::{
    elements_in, index_or_last, integer, no_argument, one_argument, one_to_three,
    optional_argument, optional_integer, two_arguments,
};
use crate::search::found_between;
use bq_base::EvalFault;
use bq_builtin_machine::{Elements, Machine};
use bq_builtin_strings::{MAX_LEN, clamp, index as index_in, joined_len};
use bq_value::{Body, Cell, Content, EvalErr, Value};
use std::alloc::{AllocError, Global};

/// `append(v)`: adds an element at the end.
#[tactic(auto, unfolding(crate::specs::List::append))]
pub fn append(machine: &mut Machine, list: Cell, args: &[Value]) -> Result<Value, EvalErr>
    ensures { Does (λ v. v) result machine.new (list_changed append list.module list.number args.now machine.old) }
{
    let value = one_argument(args)?.share()?;
    change_list(machine, list, ListEdit::Append(value))
}

/// `clear()`: removes all elements.
#[tactic(auto, unfolding(crate::specs::List::clear))]
pub fn clear(machine: &mut Machine, list: Cell, args: &[Value]) -> Result<Value, EvalErr>
    ensures { Does (λ v. v) result machine.new (list_changed clear list.module list.number args.now machine.old) }
{
    no_argument(args)?;
    change_list(machine, list, ListEdit::Clear)
}

/// `extend(x)`: adds the elements of `x` at the end.
#[tactic(auto, unfolding(crate::specs::List::extend))]
pub fn extend(
    alloc: Global,
    machine: &mut Machine,
    list: Cell,
    args: &[Value],
) -> Result<Value, EvalErr>
    ensures { Does (λ v. v) result machine.new (list_changed extend list.module list.number args.now machine.old) }
{
    let elements = elements_in(alloc, machine, one_argument(args)?)?;
    change_list(machine, list, ListEdit::Extend(elements))
}

/// `insert(i, v)`: adds an element before the one of index `i`; past an end, at that end.
#[tactic(auto, unfolding(crate::specs::List::insert_at))]
pub fn insert(machine: &mut Machine, list: Cell, args: &[Value]) -> Result<Value, EvalErr>
    ensures { Does (λ v. v) result machine.new (list_changed insert_at list.module list.number args.now machine.old) }
{
    let (place, value) = two_arguments(args)?;
    let place = integer(place)?;
    let value = value.share()?;
    change_list(machine, list, ListEdit::Insert(place, value))
}

/// `pop(i)`: removes the element of index `i`, or without an index the last one, and returns it.
#[tactic(auto, unfolding(crate::specs::List::pop))]
pub fn pop(machine: &mut Machine, list: Cell, args: &[Value]) -> Result<Value, EvalErr>
    ensures { Does (λ v. v) result machine.new (list_changed pop list.module list.number args.now machine.old) }
{
    let place = index_or_last(optional_argument(args)?)?;
    change_list(machine, list, ListEdit::Pop(place))
}

/// Returns the values of a list.
#[tactic(auto, unfolding(crate::specs::List::list_in))]
fn list_in(machine: &Machine, list: Cell) -> Result<&[Value], EvalErr>
    ensures { Does (λ xs. xs.now) result machine.now (list_in list.module list.number machine.now) }
{
    let content = machine.content(list)?;
    match content.body() {
        Body::List(values) => Ok(values),
        Body::Dict(_) => Err(EvalErr::Bad(EvalFault::WrongType)),
        Body::Rule(_) => Err(EvalErr::Bad(EvalFault::WrongType)),
    }
}

/// Returns the place of the first element between two indices that is equal to `value`, if there is one.
#[tactic(auto, unfolding(crate::specs::List::find))]
fn find(
    machine: &mut Machine,
    list: Cell,
    value: &Value,
    start: Option<i64>,
    end: Option<i64>,
) -> Result<Option<usize>, EvalErr>
    ensures { Does (λ at. at) result machine.new (find list.module list.number value.now start end machine.old) }
{
    let values = list_in(machine, list)?;
    let (at, left) = found_between(machine.store(), machine.steps(), values, value, start, end)?;
    machine.set_steps(left);
    Ok(at)
}

/// Returns the place that was found, as an integer.
#[tactic(auto, using(std::proofs::lemmas::Bool::Decides::nat_tests), unfolding(crate::specs::List::place_value))]
fn place_value(at: Option<usize>) -> Result<Value, EvalErr>
    ensures { Gives (λ v. v) Bad result (place_value at) }
{
    match at {
        None => Err(EvalErr::Bad(EvalFault::BadValue)),
        Some(at) => {
            if at > MAX_LEN {
                return Err(EvalErr::Bad(EvalFault::TooLong));
            }
            Ok(Value::int(at as i64))
        }
    }
}

/// `index(v, start, end)`: returns the place of the first element that is equal to `v`.
#[tactic(auto, unfolding(crate::specs::List::index))]
pub fn index(machine: &mut Machine, list: Cell, args: &[Value]) -> Result<Value, EvalErr>
    ensures { Does (λ v. v) result machine.new (index list.module list.number args.now machine.old) }
{
    let (value, start, end) = one_to_three(args)?;
    let start = optional_integer(start)?;
    let end = optional_integer(end)?;
    let at = find(machine, list, value, start, end)?;
    place_value(at)
}

/// `remove(v)`: removes the first element that is equal to `v`.
#[tactic(auto, unfolding(crate::specs::List::remove_value))]
pub fn remove(machine: &mut Machine, list: Cell, args: &[Value]) -> Result<Value, EvalErr>
    ensures { Does (λ v. v) result machine.new (remove_value list.module list.number args.now machine.old) }
{
    let value = one_argument(args)?;
    list_in(machine, list)?;
    machine.may_change(list)?;
    match find(machine, list, value, None, None)? {
        Some(at) => change_list(machine, list, ListEdit::Drop(at)),
        None => Err(EvalErr::Bad(EvalFault::BadValue)),
    }
}

/// A change of a list.
#[derive(Drop)]
pub(crate) enum ListEdit {
    Append(Value),
    Extend(Elements),
    Insert(i64, Value),
    Pop(i64),
    Clear,
    /// Removes the element of this place.
    Drop(usize),
}

/// Changes a list that may be changed.
#[tactic(auto, unfolding(bq_builtin_machine::specs::Cells::changing))]
fn change_list(machine: &mut Machine, list: Cell, edit: ListEdit) -> Result<Value, EvalErr>
    ensures { Does (λ v. v) result machine.new (changing list.module list.number (on_items (edited edit)) machine.old) }
{
    let content = machine.change(list)?;
    edit_content(content, edit)
}

#[tactic(auto, unfolding(crate::specs::List::on_items))]
fn edit_content(content: &mut Content, edit: ListEdit) -> Result<Value, EvalErr>
    ensures { Gives (λ v. (v, content.new)) Bad result (on_items (edited edit) content.old) }
{
    match content.change()? {
        Body::List(values) => edit_values(values, edit),
        Body::Dict(_) => Err(EvalErr::Bad(EvalFault::WrongType)),
        Body::Rule(_) => Err(EvalErr::Bad(EvalFault::WrongType)),
    }
}

fn edit_values(values: &mut Vec<Value>, edit: ListEdit) -> Result<Value, EvalErr>
    ensures { Gives (λ v. (v, values.new.items)) Bad result (edited edit values.old.items) }
{
    match edit {
        ListEdit::Append(value) => appended(values, value),
        ListEdit::Extend(elements) => extended(values, elements),
        ListEdit::Insert(place, value) => inserted(values, place, value),
        ListEdit::Pop(place) => popped(values, place),
        ListEdit::Clear => cleared(values),
        ListEdit::Drop(at) => dropped(values, at),
    }
}

#[tactic(auto, unfolding(crate::specs::List::appended))]
fn appended(values: &mut Vec<Value>, value: Value) -> Result<Value, EvalErr>
    ensures { Gives (λ v. (v, values.new.items)) Bad result (appended value values.old.items) }
{
    joined_len(values.len(), 1)?;
    values.push(value)?;
    Ok(Value::none())
}

#[tactic(auto, unfolding(crate::specs::List::extended))]
fn extended(values: &mut Vec<Value>, elements: Elements) -> Result<Value, EvalErr>
    ensures { Gives (λ v. (v, values.new.items)) Bad result (extended elements values.old.items) }
{
    joined_len(values.len(), elements.len())?;
    push_all(values, elements)?;
    Ok(Value::none())
}

fn push_all(values: &mut Vec<Value>, mut elements: Elements) -> Result<(), AllocError>
    ensures { OnOk result (values.new.items ≡ values.old.items ++ elements) }
{
    while let Some(element) = elements.next() {
        values.push(element)?;
    }
    Ok(())
}

#[tactic(auto, unfolding(crate::specs::List::inserted))]
fn inserted(values: &mut Vec<Value>, place: i64, value: Value) -> Result<Value, EvalErr>
    ensures { Gives (λ v. (v, values.new.items)) Bad result (inserted place value values.old.items) }
{
    joined_len(values.len(), 1)?;
    let at = clamp(values.len(), place);
    values.insert(at, value)?;
    Ok(Value::none())
}

#[tactic(auto, using(std::proofs::lemmas::Option::slice_get_read), unfolding(crate::specs::List::popped))]
fn popped(values: &mut Vec<Value>, place: i64) -> Result<Value, EvalErr>
    ensures { Gives (λ v. (v, values.new.items)) Bad result (popped place values.old.items) }
{
    let at = index_in(values.len(), place)?;
    Ok(values.remove(at))
}

#[tactic(auto, unfolding(crate::specs::List::cleared))]
fn cleared(values: &mut Vec<Value>) -> Result<Value, EvalErr>
    ensures { Gives (λ v. (v, values.new.items)) Bad result (cleared values.old.items) }
{
    values.clear();
    Ok(Value::none())
}

#[tactic(auto, using(std::proofs::lemmas::Option::slice_get_read, std::proofs::lemmas::Option::slice_get_past), unfolding(crate::specs::List::dropped))]
fn dropped(values: &mut Vec<Value>, at: usize) -> Result<Value, EvalErr>
    ensures { Gives (λ v. (v, values.new.items)) Bad result (dropped at values.old.items) }
{
    if at >= values.len() {
        return Err(EvalErr::Bad(EvalFault::Index));
    }
    let _taken = values.remove(at);
    Ok(Value::none())
}
