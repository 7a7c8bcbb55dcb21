//! The BUILD files of packages.

ghost use Rattle.std.specs.Prelude.{◌≡◌, map, IfOk};
ghost use Rattle.std.specs.List.Sorted.{IsStrictlySortedBy};
ghost use Rattle.bq_label.specs.Label.{package_of};
ghost use Rattle.bq_label.specs.Packages.{id_cmp};
ghost use Rattle.bq_package_target.specs.PackageOrder.{PackagesAscend};
ghost use Rattle.bq_query_target_graph.specs.BuildFiles.{build_files, file_of};

use bq_label::{Label, PackageId};
use bq_package_target::Package;
use sqlite_items::Items;
use std::alloc::{AllocError, Global};
use std::cmp::Ordering;
use std::marker::Model;

/// The labels of packages' BUILD files, in the order of the packages. Contracts see the list of them.
#[derive(Drop)]
pub struct BuildFiles {
    files: Items<Label>,
}

impl Model for BuildFiles {
    ghost use Rattle.std.specs.Prelude.{List};
    ghost use Rattle.bq_label.specs.Label.{LabelParts};
    ghost use Rattle.bq_query_target_graph.specs.BuildFiles.{FilesAscend};

    ghost Value = { List LabelParts };

    ghost view = { λ f. f.files };

    ghost invariant = { λ f. FilesAscend f.files };
}

/// Compares two packages: by the bytes of their repositories, and then of their paths.
fn id_cmp(a: &PackageId, b: &PackageId) -> Ordering
    ensures { result ≡ id_cmp a.now b.now }
{
    a.repo().cmp(b.repo()).then(a.package().cmp(b.package()))
}

impl BuildFiles {
    /// Returns the BUILD files of packages.
    pub fn of(alloc: Global, packages: &[Package]) -> Result<BuildFiles, AllocError>
        requires { PackagesAscend packages.now }
        ensures { IfOk result (λ files. files ≡ build_files packages.now) }
    {
        let mut files = Items::new(alloc);
        for package in packages {
            files.push(package.build_file().share()?)?;
        }
        Ok(BuildFiles { files })
    }

    /// Returns the packages.
    pub fn packages(&self, alloc: Global) -> Result<Items<PackageId>, AllocError>
        ensures packages { IfOk result (λ ids. ids ≡ map package_of self.now) }
        ensures ascending { IfOk result (λ ids. IsStrictlySortedBy id_cmp ids) }
    {
        let mut ids = Items::new(alloc);
        let files = self.files.as_slice();
        for file in files {
            ids.push(file.package_id().share()?)?;
        }
        Ok(ids)
    }

    /// Returns the BUILD file of the label's package, or the label itself if there is none.
    pub fn file_of<'b>(&'b self, label: &'b Label) -> &'b Label
        ensures { result.now ≡ file_of self.now label.now }
    {
        let own = label.package_id();
        let files = self.files.as_slice();
        match files.binary_search_by(|file| id_cmp(file.package_id(), own)) {
            Ok(at) => &files[at],
            Err(_) => label,
        }
    }
}
