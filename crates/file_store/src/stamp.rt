//! Whether a file is still the one that was read.
use std::fs::Metadata;
use std::os::unix::fs::MetadataExt;

/// The metadata by which a file differs from the one that was there before.
#[derive(Clone, Copy, PartialEq, Eq)]
pub struct FileStamp {
    node: u64,
    /// The last change of its bytes, owner or mode: seconds since 1970, and nanoseconds.
    changed: i64,
    nanos: i64,
    len: u64,
}

impl FileStamp {
    /// Returns the stamp of a file.
    pub fn of(file: &Metadata) -> FileStamp {
        FileStamp {
            node: file.ino(),
            changed: file.ctime(),
            nanos: file.ctime_nsec(),
            len: file.len(),
        }
    }
}
