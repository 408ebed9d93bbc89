//! A database while a command changes it.

use principals::Database;
use std::alloc::Global;

/// A database that a command changes in memory before it writes it.
#[derive(Drop)]
pub struct Draft {
    /// What new rows take their memory from.
    pub alloc: Global,
    /// The database as it is changed so far. Its file is as it was.
    pub database: Database,
}
