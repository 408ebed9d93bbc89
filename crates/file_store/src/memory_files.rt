//! The files of a store in memory: a list in which what was written or removed last comes first.
ghost use Rattle.std.specs.Prelude.{◌≡◌, IfOk, None, Some, option_map, string_bytes};
ghost use Rattle.file_store.specs.MemoryFiles.{file_at};

use std::alloc::{AllocError, Global};

/// What a path has in memory.
#[derive(Drop)]
pub(crate) struct StoredFile {
    pub(crate) path: String,
    /// `None` if the file was removed.
    pub(crate) octets: Option<Vec<u8>>,
}

/// A new file in memory that has not taken its place yet.
#[derive(Drop)]
pub(crate) struct PreparedFile {
    pub(crate) path: String,
    pub(crate) octets: Vec<u8>,
}

/// Returns the content of the first file with a path.
pub(crate) fn file_at<'a>(files: &'a [StoredFile], path: &str) -> Option<&'a [u8]>
    ensures { option_map (λ octets. octets.now) result ≡ file_at files.now path.now }
{
    for file in files {
        if file.path.as_str() == path {
            return stored_octets(file);
        }
    }
    None
}

fn stored_octets(file: &StoredFile) -> Option<&[u8]>
    ensures { option_map (λ octets. octets.now) result ≡ option_map (λ octets. octets.items) file.now.octets }
{
    match &file.octets {
        Some(octets) => Some(octets.as_slice()),
        None => None,
    }
}

/// Returns the entry of a file with these bytes.
pub(crate) fn new_entry(alloc: Global, path: &str, octets: &[u8]) -> Result<StoredFile, AllocError>
    ensures path { IfOk result (λ file. string_bytes file.path ≡ path.now) }
    ensures octets { IfOk result (λ file. option_map (λ octets. octets.items) file.octets ≡ Some octets.now) }
{
    Ok(StoredFile {
        path: String::from_str(alloc, path)?,
        octets: Some(Vec::from_slice(alloc, octets)?),
    })
}

/// Returns the entry of a file that was removed.
pub(crate) fn gone_entry(alloc: Global, path: &str) -> Result<StoredFile, AllocError>
    ensures path { IfOk result (λ file. string_bytes file.path ≡ path.now) }
    ensures octets { IfOk result (λ file. file.octets ≡ None) }
{
    Ok(StoredFile {
        path: String::from_str(alloc, path)?,
        octets: None,
    })
}
