//! What a cell holds.

ghost use Rattle.std.specs.Prelude.{◌≡◌, ◌≤◌, ◌↔◌, IsTrue, Some, IfOk, OnErr, IfSome};
ghost use Rattle.std.specs.Borrow.{sem};
ghost use Rattle.bq_value_content.specs.Contents.{items, pairs, rule, walk_length, KeysDiffer};
ghost use Rattle.bq_value_content.specs.ContentOf.{contents_of, held_of};
ghost use Rattle.bq_value_content.specs.Sharing.{LendsPut, LendsOwn, LendsBody};

use bq_value_datum::{RuleClass, Value};
use bq_value_dict::Dict;
use std::alloc::{AllocError, Global};
use std::marker::Model;
use std::mem;
use std::sync::Arc;

/// Walks share a list or dict with more elements than this; of a smaller one they take copies.
const FEW: usize = 16;

/// A list, a dict or a rule. Contracts see its `Contents`.
///
/// Who walks over it has a share of it. Nobody changes what others have a share of: a change takes it back first, which
/// copies nothing once the walks have ended.
#[derive(Drop)]
pub struct Content {
    held: Held,
}

#[derive(Drop)]
pub enum Body {
    List(Vec<Value>),
    Dict(Dict),
    /// A rule that a `.bzl` file declares. Nothing changes it.
    Rule(RuleClass),
}

#[derive(Drop)]
enum Held {
    Own(Body),
    Shared(Arc<Body>, Global),
}

impl Model for Content {
    ghost use Rattle.bq_value_content.specs.Contents.{Contents, coded_contents};

    ghost Value = { Contents };

    ghost coded = { coded_contents };

    ghost use Rattle.bq_value_content.specs.ContentOf.{held_of};

    ghost view = { λ c. held_of c.held };
}

/// Shares these values.
pub fn copies(alloc: Global, values: &[Value]) -> Result<Vec<Value>, AllocError>
    ensures { IfOk result (λ xs. xs.items ≡ values.now) }
{
    let mut shares = Vec::with_capacity(alloc, values.len())?;
    for value in values {
        shares.push(value.share()?)?;
    }
    Ok(shares)
}

impl Body {
    /// Returns a list, a dict or a rule of the same values.
    fn copy(&self, alloc: Global) -> Result<Body, AllocError>
        ensures { IfOk result (λ b. contents_of b ≡ contents_of self.now) }
    {
        match self {
            Body::List(values) => Ok(Body::List(copies(alloc, values)?)),
            Body::Dict(dict) => Ok(Body::Dict(dict.copy()?)),
            Body::Rule(class) => Ok(Body::Rule(class.share()?)),
        }
    }

    /// Returns how many elements a walk over it has: what decides whether it is worth a share.
    fn len(&self) -> usize
        ensures { result ≡ walk_length (contents_of self.now) }
    {
        match self {
            Body::List(values) => values.len(),
            Body::Dict(dict) => dict.len(),
            Body::Rule(_) => 0,
        }
    }
}

/// Takes what is shared: itself if nobody else has a share, or else a copy.
fn taken(alloc: Global, shared: &mut Arc<Body>) -> Result<Body, AllocError>
    ensures body { IfOk result (λ b. contents_of b ≡ contents_of shared.old.value) }
    ensures err { OnErr result (shared.new ≡ shared.old) }
{
    match Arc::get_mut(shared) {
        Some(body) => Ok(mem::replace(body, Body::List(Vec::new(alloc)))),
        None => shared.copy(alloc),
    }
}

impl Held {
    /// Holds this from now on, and returns it.
    fn put(&mut self, body: Body) -> &mut Body
        ensures* lends { sem 𝓛 (LendsPut self.entry result) }
        ensures now { result.now ≡ body }
    {
        *self = Held::Own(body);
        match self {
            Held::Own(body) => body,
            Held::Shared(_, _) => unreachable!(),
        }
    }

    /// Takes back what is shared, and returns it to be changed.
    #[inline(never)]
    fn take_back(&mut self) -> Result<&mut Body, AllocError>
        ensures* lends { sem 𝓛 (LendsOwn self.entry result) }
        ensures now { IfOk result (λ b. contents_of b.now ≡ held_of self.old) }
    {
        match self {
            Held::Own(body) => Ok(body),
            Held::Shared(shared, alloc) => {
                let body = taken(*alloc, shared)?;
                Ok(self.put(body))
            }
        }
    }

    /// Returns what is held, to be changed.
    fn own(&mut self) -> Result<&mut Body, AllocError>
        ensures* lends { sem 𝓛 (LendsOwn self.entry result) }
        ensures now { IfOk result (λ b. contents_of b.now ≡ held_of self.old) }
    {
        match self {
            Held::Own(body) => Ok(body),
            Held::Shared(_, _) => self.take_back(),
        }
    }

    /// Makes what is held one that can be shared.
    #[inline(never)]
    fn share(&mut self, alloc: Global) -> Result<(), AllocError>
        ensures { held_of self.new ≡ held_of self.old }
    {
        match mem::replace(self, Held::Own(Body::List(Vec::new(alloc)))) {
            Held::Shared(shared, alloc) => {
                *self = Held::Shared(shared, alloc);
                Ok(())
            }
            Held::Own(body) => match Arc::new(alloc, body) {
                Ok(shared) => {
                    *self = Held::Shared(shared, alloc);
                    Ok(())
                }
                Err(refused) => {
                    *self = Held::Own(refused.value);
                    Err(AllocError)
                }
            },
        }
    }
}

impl Content {
    pub fn list(values: Vec<Value>) -> Content
        ensures { result ≡ items values.items }
    {
        Content {
            held: Held::Own(Body::List(values)),
        }
    }

    pub fn dict(dict: Dict) -> Content
        ensures { result ≡ pairs dict }
    {
        Content {
            held: Held::Own(Body::Dict(dict)),
        }
    }

    pub fn rule(class: RuleClass) -> Content
        ensures { result ≡ rule class }
    {
        Content {
            held: Held::Own(Body::Rule(class)),
        }
    }

    /// Returns what it holds.
    pub fn body(&self) -> &Body
        ensures { contents_of result.now ≡ self.now }
    {
        match &self.held {
            Held::Own(body) => body,
            Held::Shared(shared, _) => shared,
        }
    }

    /// Returns what it holds, to be changed. Copies it if a walk has a share of it.
    pub fn change(&mut self) -> Result<&mut Body, AllocError>
        ensures* lends { sem 𝓛 (LendsBody self.entry result) }
        ensures now { IfOk result (λ b. contents_of b.now ≡ self.old) }
    {
        self.held.own()
    }

    /// Returns whether it has so few elements that walks copy them.
    pub fn is_small(&self) -> bool
        ensures { IsTrue result ↔ (walk_length self.now ≤ 16) }
    {
        self.body().len() <= FEW
    }

    /// Makes it one that walks share, if it has more than a few elements.
    pub fn share(&mut self, alloc: Global) -> Result<(), AllocError>
        ensures { self.new ≡ self.old }
    {
        if self.is_small() {
            return Ok(());
        }
        self.held.share(alloc)
    }

    /// Returns a share, if it is one that walks share.
    pub fn shared(&self) -> Result<Option<Arc<Body>>, AllocError>
        ensures { IfOk result (λ shared. IfSome shared (λ b. contents_of b.value ≡ self.now)) }
    {
        match &self.held {
            Held::Own(_) => Ok(None),
            Held::Shared(shared, _) => Ok(Some(shared.clone()?)),
        }
    }

    /// States, for proofs, that a dict has no key twice.
    pub fn keys_differ(&self)
        ensures { KeysDiffer (Some self.now) }
    {
        match self.body() {
            Body::List(_) => {}
            Body::Dict(dict) => dict.has_no_key_twice(),
            Body::Rule(_) => {}
        }
    }
}
