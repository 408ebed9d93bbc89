//! Counting failed calls.
ghost use Rattle.file_store.specs.Counting.{IsCounted, IsWriteCounted};

use crate::store::Written;
use std::io;

/// Returns the count of failed calls after a call. It stops at the greatest `u64`.
pub fn counted<T>(faults: u64, done: &io::Result<T>) -> u64
    ensures { IsCounted faults done.now result }
{
    match done {
        Ok(_) => faults,
        Err(_) => faults.saturating_add(1),
    }
}

/// Returns the count of failed calls after a write. A folder's sync that failed is such a call.
pub fn counted_write(faults: u64, done: &io::Result<Written>) -> u64
    // Promise, as Store::read: a store counts each ..
    ensures { IsWriteCounted faults done.now result }
{
    match done {
        Ok(Written::Synced) => faults,
        Ok(Written::NotSynced(_)) | Err(_) => faults.saturating_add(1),
    }
}
