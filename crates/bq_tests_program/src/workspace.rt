//! Files of workspaces.

use bq_base::Bytes;
use bq_label::File;
use std::alloc::{AllocError, Global};

/// A file of this path.
pub fn file(alloc: Global, path: &[u8], content: &[u8]) -> Result<File, AllocError> {
    Ok(File {
        path: Bytes::from_slice(alloc, path)?,
        content: Bytes::from_slice(alloc, content)?,
    })
}
