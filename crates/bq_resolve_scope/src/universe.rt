//! The names that a file has without binding them, by its kind.

ghost use Rattle.std.specs.Prelude.{◌≡◌, [], map, IfOk};
ghost use Rattle.bq_resolve_scope.specs.Names.{with_each, with_name};
ghost use Rattle.bq_resolve_scope.specs.Universe.{rule_named, member_named, namespace_named, universe_has};

use crate::names::Names;
use bq_base::Bytes;
use bq_base_texts::NameSet;
use bq_parse_grammar::FileKind;
use bq_predeclared::{HostFunction, Predeclared, RuleFunction, attr_named, predeclared_named};
use std::alloc::{AllocError, Global};
use std::marker::Model;
use std::sync::Arc;

/// A rule's place is below this: rules past that are no functions.
const MAX_RULES: usize = 4_294_967_295;

/// A name of .bzl files that is no value: only what it holds is called, as `NAME.function(..)`.
#[derive(Clone, Copy)]
pub enum Namespace {
    /// `native`: the build functions and the rules of the schema.
    Native,
    /// `attr`: the functions that make attributes.
    Attr,
}

impl Namespace {
    /// Returns the namespace of this name.
    pub fn named(name: &[u8]) -> Option<Namespace>
        ensures { result ≡ namespace_named name.now }
    {
        if name == b"native".as_slice() {
            return Some(Namespace::Native);
        }
        if name == b"attr".as_slice() {
            return Some(Namespace::Attr);
        }
        None
    }
}

/// What the files of a kind have. Contracts see the kind, and the names of the rules in their order.
pub struct Universe {
    kind: FileKind,
    rules: Arc<NameSet>,
}

impl Drop for Universe {
    // PROOF: a drop that is written out is proved here alone, and a derived one in each crate that drops a universe
    fn drop(self) {
        let Universe { kind: _, rules: _ } = self;
    }
}

impl Model for Universe {
    ghost use Rattle.bq_resolve_scope.specs.Universe.{UniverseParts};

    ghost Value = { UniverseParts };

    ghost view = { λ u. record { kind = u.kind; rules = u.rules.value } };
}

impl Universe {
    /// Returns a file of this kind in a workspace whose schema has these rules. A name that comes again is one rule.
    pub fn new(alloc: Global, kind: FileKind, rules: &[Bytes]) -> Result<Universe, AllocError>
        ensures kind { IfOk result (λ u. u.kind ≡ kind) }
        ensures rules { IfOk result (λ u. u.rules ≡ with_each with_name [] rules.now) }
    {
        let mut names = Names::new(alloc);
        for rule in rules {
            names.add(rule)?;
        }
        Ok(Universe {
            kind,
            rules: Arc::new(alloc, names.into_set())?,
        })
    }

    /// Returns a file of this kind in a workspace whose schema has these rules. No name is copied.
    pub fn of_names(kind: FileKind, rules: &Arc<NameSet>) -> Result<Universe, AllocError>
        ensures { IfOk result (λ u. u ≡ record { kind = kind; rules = rules.now.value }) }
    {
        Ok(Universe {
            kind,
            rules: rules.clone()?,
        })
    }

    /// Returns a copy of the names.
    pub fn share(&self) -> Result<Universe, AllocError>
        ensures { IfOk result (λ u. u ≡ self.now) }
    {
        Ok(Universe {
            kind: self.kind,
            rules: self.rules.clone()?,
        })
    }

    pub fn kind(&self) -> FileKind
        ensures { result ≡ self.now.kind }
    {
        self.kind
    }

    /// Returns the rule of this name.
    #[tactic(auto, using(crate::proofs::Places::place_position))]
    fn rule(&self, name: &Bytes) -> Option<HostFunction>
        ensures { result ≡ rule_named self.now.rules name.now }
    {
        match self.rules.place(name.as_slice()) {
            None => None,
            Some(place) => {
                if place < MAX_RULES {
                    return Some(HostFunction::Rule(place as u32));
                }
                None
            }
        }
    }

    /// Returns what a namespace holds by this name: `native` a build function or rule, `attr` a function that makes attributes.
    #[tactic(auto, unfolding(crate::specs::Universe::member_named, crate::specs::Universe::host_named))]
    pub fn member(&self, space: Namespace, name: &Bytes) -> Option<Predeclared>
        ensures { result ≡ member_named space self.now.rules name.now }
    {
        match space {
            Namespace::Native => match predeclared_named(name.as_slice()) {
                None => match self.rule(name) {
                    None => None,
                    Some(rule) => Some(Predeclared::Host(rule)),
                },
                Some(Predeclared::Host(function)) => Some(Predeclared::Host(function)),
                Some(_) => None,
            },
            Namespace::Attr => match attr_named(name.as_slice()) {
                None => None,
                Some(function) => Some(Predeclared::RuleFunction(function)),
            },
        }
    }

    /// Returns what the name stands for in a file that doesn't bind it.
    #[tactic(auto, unfolding(crate::specs::Universe::universe_has))]
    pub fn has(&self, name: &Bytes) -> Option<Predeclared>
        ensures { result ≡ universe_has self.now name.now }
    {
        let found = predeclared_named(name.as_slice());
        match self.kind {
            FileKind::Build => match found {
                None => match self.rule(name) {
                    None => None,
                    Some(rule) => Some(Predeclared::Host(rule)),
                },
                Some(found) => Some(found),
            },
            FileKind::Bzl => match found {
                None => {
                    if name.as_slice() == b"rule".as_slice() {
                        return Some(Predeclared::RuleFunction(RuleFunction::Rule));
                    }
                    None
                }
                Some(Predeclared::Host(_)) => None,
                Some(found) => Some(found),
            },
        }
    }
}
