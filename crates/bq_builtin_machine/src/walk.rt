//! Walks over iterables, of `for` statements and of comprehensions (Starlark, "Iteration protocol").

ghost use Rattle.std.specs.Prelude.{◌≡◌, IfOk, drop, Some};
ghost use Rattle.bq_base.specs.Gives.{Gives};
ghost use Rattle.bq_value.specs.declared.error.EvalErr.TheVariants.{Bad};
ghost use Rattle.bq_value.specs.Datum.{cell};
ghost use Rattle.bq_value.specs.Pairs.{keys};
ghost use Rattle.bq_builtin_machine.specs.Action.{Does};
ghost use Rattle.bq_builtin_machine.specs.Iteration.{content_elements, elements, begin_walk, end_walk, IsNext};
ghost use Rattle.bq_builtin_machine.specs.WalkOf.{shared_left};

use crate::iteration::content_elements;
use crate::machine::Machine;
use crate::range_walk::RangeWalk;
use bq_base::EvalFault;
use bq_value::{Body, Cell, Content, Dict, EvalErr, Node, Value};
use std::alloc::{AllocError, Global};
use std::marker::Model;
use std::sync::Arc;

/// The elements that a walk has still to go through. If they are many, it has a share of what it goes over, so that
/// beginning it takes no time. Contracts see their list.
#[derive(Drop)]
pub struct ElementWalk {
    over: Over,
}

#[derive(Drop)]
enum Over {
    /// A few elements, in reverse: the last one comes next.
    Few(Vec<Value>),
    Range(RangeWalk),
    Shared(SharedElements),
}

#[derive(Drop)]
enum SharedElements {
    /// These values, from this place on.
    Values(Arc<Vec<Value>>, usize),
    /// A list, or the keys of a dict, from this place on.
    Content(Arc<Body>, usize),
}

impl Model for ElementWalk {
    ghost use Rattle.std.specs.Prelude.{List};
    ghost use Rattle.std.specs.Coded.{coded_list};
    ghost use Rattle.bq_value.specs.Datum.{Datum};
    ghost use Rattle.bq_value.specs.Codes.{coded_datum};

    ghost Value = { List Datum };

    ghost coded = { coded_list coded_datum };

    ghost use Rattle.bq_builtin_machine.specs.WalkOf.{walk_left};

    ghost view = { λ w. walk_left w.over };
}

/// Takes the value at this place, and moves the place on.
pub fn next_value(values: &[Value], at: &mut usize) -> Result<Option<Value>, AllocError>
    ensures { IfOk result (λ next. IsNext next (drop at.old values.now) (drop at.new values.now)) }
{
    if *at >= values.len() {
        return Ok(None);
    }
    let value = values[*at].share()?;
    *at += 1;
    Ok(Some(value))
}

/// Takes the key at this place, and moves the place on.
pub fn next_key(dict: &Dict, at: &mut usize) -> Result<Option<Value>, AllocError>
    ensures { IfOk result (λ next. IsNext next (drop at.old (keys dict.now)) (drop at.new (keys dict.now))) }
{
    if *at >= dict.len() {
        return Ok(None);
    }
    let (key, _) = dict.pair(*at);
    let value = key.value().share()?;
    *at += 1;
    Ok(Some(value))
}

/// Begins a walk over a few elements.
#[tactic(auto, using(crate::proofs::Reversed::reversed_twice))]
fn over_few(mut values: Vec<Value>) -> ElementWalk
    ensures { result ≡ values.items }
{
    values.reverse();
    ElementWalk {
        over: Over::Few(values),
    }
}

/// Begins a walk over what a cell holds. It has a share of it, or copies if it isn't one that walks share.
fn over_content(alloc: Global, content: &Content) -> Result<ElementWalk, EvalErr>
    ensures { Gives (λ xs. xs) Bad result (content_elements (Some content.now)) }
{
    if let Body::Rule(_) = content.body() {
        return Err(EvalErr::Bad(EvalFault::WrongType));
    }
    match content.shared()? {
        Some(body) => Ok(ElementWalk {
            over: Over::Shared(SharedElements::Content(body, 0)),
        }),
        None => Ok(over_few(content_elements(alloc, content)?)),
    }
}

impl SharedElements {
    /// Takes the next one.
    #[inline(never)]
    fn next(&mut self) -> Result<Option<Value>, AllocError>
        ensures { IfOk result (λ next. IsNext next (shared_left self.old) (shared_left self.new)) }
    {
        match self {
            SharedElements::Values(values, at) => next_value(values, at),
            SharedElements::Content(body, at) => match &**body {
                Body::List(values) => next_value(values, at),
                Body::Dict(dict) => next_key(dict, at),
                Body::Rule(_) => Ok(None),
            },
        }
    }
}

impl ElementWalk {
    /// Takes the next one. Fails where 2^63 owners of it are alive.
    #[inline(always)]
    #[tactic(auto, using(crate::proofs::Reversed::popped))]
    pub fn next(&mut self) -> Result<Option<Value>, AllocError>
        ensures { IfOk result (λ next. IsNext next self.old self.new) }
    {
        match &mut self.over {
            Over::Few(values) => Ok(values.pop()),
            Over::Range(integers) => match integers.next() {
                Some(n) => Ok(Some(Value::int(n))),
                None => Ok(None),
            },
            Over::Shared(shared) => shared.next(),
        }
    }
}

impl Machine {
    /// Begins a walk over a list or dict of many elements.
    #[inline(never)]
    #[tactic(auto, unfolding(crate::specs::Iteration::elements))]
    fn walk_many(&mut self, alloc: Global, at: Cell) -> Result<ElementWalk, EvalErr>
        ensures { Does (λ xs. xs) result self.new (elements (cell at.module at.number) self.old) }
    {
        self.store.share(alloc, at)?;
        match self.store.content(at) {
            Some(content) => over_content(alloc, content),
            None => Err(EvalErr::Bad(EvalFault::WrongType)),
        }
    }

    /// Begins a walk over a list or dict. Of a few elements it has copies.
    #[tactic(auto, unfolding(crate::specs::Iteration::elements))]
    fn walk_cell(&mut self, alloc: Global, at: Cell) -> Result<ElementWalk, EvalErr>
        ensures { Does (λ xs. xs) result self.new (elements (cell at.module at.number) self.old) }
    {
        match self.store.content(at) {
            None => return Err(EvalErr::Bad(EvalFault::WrongType)),
            Some(content) => {
                if content.is_small() {
                    return Ok(over_few(content_elements(alloc, content)?));
                }
            }
        }
        self.walk_many(alloc, at)
    }

    /// Returns the elements that an iterable has now, to be walked while nothing changes it.
    #[tactic(auto, using(bq_value_datum::specs::Datum::list_of_data_of), unfolding(crate::specs::Iteration::elements))]
    fn walk(&mut self, alloc: Global, value: &Value) -> Result<ElementWalk, EvalErr>
        ensures { Does (λ xs. xs) result self.new (elements value.now self.old) }
    {
        match &value.node {
            Node::Tuple(items) => Ok(ElementWalk {
                over: Over::Shared(SharedElements::Values(items.clone()?, 0)),
            }),
            Node::Range(range) => Ok(ElementWalk {
                over: Over::Range(RangeWalk::over(*range)),
            }),
            Node::Cell(cell) => self.walk_cell(alloc, *cell),
            _ => Err(EvalErr::Bad(EvalFault::WrongType)),
        }
    }

    /// Begins a walk over an iterable. Until it ends, nothing can change the list or dict.
    #[tactic(auto, unfolding(crate::specs::Iteration::begin_walk))]
    pub fn begin_walk(&mut self, alloc: Global, value: &Value) -> Result<ElementWalk, EvalErr>
        ensures { Does (λ xs. xs) result self.new (begin_walk value.now self.old) }
    {
        let walk = self.walk(alloc, value)?;
        if let Node::Cell(cell) = &value.node {
            self.walks.push(*cell)?;
        }
        Ok(walk)
    }

    /// Ends the walk that began last, which was over `value`.
    #[tactic(auto, unfolding(crate::specs::Iteration::end_walk))]
    pub fn end_walk(&mut self, value: &Value)
        ensures { self.new ≡ end_walk value.now self.old }
    {
        if let Node::Cell(_) = &value.node {
            let _newest = self.walks.pop();
        }
    }
}
