//! What files are read with.

ghost use Rattle.std.specs.Prelude.{◌≡◌, IfOk};
ghost use Rattle.bq_load_front.specs.Inputs.{universe_of};

use bq_base_texts::NameSet;
use bq_label::{Packages, Workspace};
use bq_parse_grammar::FileKind;
use bq_resolve_scope::Universe;
use std::alloc::AllocError;
use std::marker::Model;
use std::sync::Arc;

/// A workspace and its schema. Contracts see its files, its packages, and the names of its rules.
#[derive(Drop)]
pub struct Inputs<'a> {
    workspace: &'a Workspace,
    packages: &'a Packages,
    build: Universe,
    bzl: Universe,
}

impl<'a> Model for Inputs<'a> {
    ghost use Rattle.bq_load_front.specs.Inputs.{InputParts};

    ghost Value = { InputParts };

    ghost view = { λ i. record { files = i.workspace.now; packages = i.packages.now; rules = i.build.rules } };

    ghost use Rattle.std.specs.Prelude.{◌≡◌};
    ghost use Rattle.bq_parse_grammar.specs.declared.tree.FileKind.TheVariants as kinds;

    // Both kinds of files have the same rules.
    ghost invariant = { λ i. (i.build ≡ record { kind = kinds.Build; rules = i.build.rules }) × (i.bzl ≡ record { kind = kinds.Bzl; rules = i.build.rules }) };
}

impl<'a> Inputs<'a> {
    /// Returns the workspace with its packages, and the names of its schema's rules.
    pub fn new(
        workspace: &'a Workspace,
        packages: &'a Packages,
        rules: &Arc<NameSet>,
    ) -> Result<Inputs<'a>, AllocError>
        ensures files { IfOk result (λ i. i.files ≡ workspace.now) }
        ensures packages { IfOk result (λ i. i.packages ≡ packages.now) }
        ensures rules { IfOk result (λ i. i.rules ≡ rules.now.value) }
    {
        let build = Universe::of_names(FileKind::Build, rules)?;
        let bzl = Universe::of_names(FileKind::Bzl, rules)?;
        Ok(Inputs {
            workspace,
            packages,
            build,
            bzl,
        })
    }

    pub fn workspace(&self) -> &Workspace
        ensures { result.now ≡ self.now.files }
    {
        self.workspace
    }

    pub fn packages(&self) -> &Packages
        ensures { result.now ≡ self.now.packages }
    {
        self.packages
    }

    /// Returns the names that files of this kind have without binding them.
    pub fn universe(&self, kind: FileKind) -> &Universe
        ensures { result.now ≡ universe_of self.now kind }
    {
        match kind {
            FileKind::Build => &self.build,
            FileKind::Bzl => &self.bzl,
        }
    }
}
