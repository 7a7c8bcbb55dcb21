//! The loads of a resolved file.

use bq_base::Bytes;
use sqlite_items::Items;

/// A load: which file, and what of it.
#[derive(Drop)]
pub struct LoadStmt {
    pub label: Bytes,
    /// The line of its first token, from 1.
    pub line: u32,
    pub clauses: Items<LoadedSymbol>,
}

/// A name that a load binds, and the symbol of the other file that it stands for.
#[derive(Drop)]
pub struct LoadedSymbol {
    pub local: Bytes,
    pub symbol: Bytes,
    /// The global whose first value it is, where the file binds the name too.
    pub global: Option<usize>,
}
