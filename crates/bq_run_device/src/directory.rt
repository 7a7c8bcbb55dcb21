//! The workspace of a directory.

ghost use Rattle.std.specs.Prelude.{◌≤◌, IfOk};
ghost use Rattle.bq_base.specs.Limits.{AreBounded};
ghost use Rattle.bq_run_device.specs.Walk.{bytes_of};

use crate::directory_err::DirectoryErr;
use crate::walk::DirectoryWalk;
use bq_base::Limits;
use bq_label::Workspace;
use std::alloc::Global;
use std::fs;
use std::fs::Files;

/// Returns the workspace of the files in the directory at `root` and below it, by these limits. Their paths are those from
/// `root` on.
/// Files whose bytes no run reads have none in it.
#[tactic(auto, using(crate::proofs::Bytes::no_more))]
pub fn read_directory<R: Files + Alloc<A = Global> + Clone + Drop>(
    rt: &R,
    root: &str,
    limits: Limits,
) -> Result<Workspace, DirectoryErr>
    requires { AreBounded limits }
    ensures { IfOk result (λ w. bytes_of w ≤ limits.bundle_bytes) }
{
    let mut walk = DirectoryWalk::new(rt, root, limits)?;
    // the last turn is the one that finds no directory left. A directory that links lead to is read once for each way to it, and
    // links are soon many ways: of 41 directories with two links to the next there are a trillion
    for _ in 0..=limits.directories {
        let Some(directory) = walk.pending.pop() else {
            return Ok(Workspace::within(limits, walk.files)?);
        };
        walk.around.truncate(directory.depth);
        walk.around.push(directory.identity)?;
        for entry in fs::read_dir(rt, directory.path.as_str())? {
            walk.visit(rt, &entry?)?;
        }
    }
    Err(DirectoryErr::TooManyDirectories)
}
