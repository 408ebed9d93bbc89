//! Reading files within a limit.
ghost use Rattle.std.specs.Prelude.{◌≤◌, IfOk, IfSome, vec_len};

use crate::plain_files::{no_file, open_plain};
use std::alloc::Global;
use std::fs::{File, OpenFile};
use std::io;
use std::io::Read;
use std::rt::Files;

/// Reads all that a reader has. `None` if it has more than `most` bytes: it asks for one more, to notice a file that
/// grows or has no known length.
pub fn read_within<R: Read + Drop>(
    alloc: Global,
    reader: R,
    most: usize,
) -> io::Result<Option<Vec<u8>>>
    ensures { IfOk result (λ found. IfSome found (λ octets. vec_len octets ≤ most)) }
{
    let mut octets = Vec::new(alloc);
    reader
        .take((most as u64).saturating_add(1))
        .read_to_end(&mut octets)?;
    if octets.len() > most {
        return Ok(None);
    }
    Ok(Some(octets))
}

/// Reads a whole file, and no folder, FIFO or device. `None` if it has more than this many bytes.
pub(crate) fn read_plain<R: Files>(
    alloc: Global,
    files: &R,
    path: &str,
    most: usize,
) -> io::Result<Option<Vec<u8>>>
    ensures { IfOk result (λ found. IfSome found (λ octets. vec_len octets ≤ most)) }
{
    read_open(alloc, open_plain(files, path)?, most)
}

/// Reads a whole file, or a FIFO or a device to its end, and no folder. `None` if it has more than this many bytes.
pub(crate) fn read_any<R: Files<File = File>>(
    alloc: Global,
    files: &R,
    path: &str,
    most: usize,
) -> io::Result<Option<Vec<u8>>>
    ensures { IfOk result (λ found. IfSome found (λ octets. vec_len octets ≤ most)) }
{
    let file = File::open(files, path)?;
    if file.metadata()?.is_dir() {
        return Err(no_file());
    }
    read_open(alloc, file, most)
}

/// Reads a whole open file, or a FIFO or a device to its end. `None` if it has more than this many bytes.
fn read_open<F: OpenFile + Read + Drop>(
    alloc: Global,
    file: F,
    most: usize,
) -> io::Result<Option<Vec<u8>>>
    ensures { IfOk result (λ found. IfSome found (λ octets. vec_len octets ≤ most)) }
{
    if file.metadata()?.len() > most as u64 {
        return Ok(None);
    }
    read_within(alloc, file, most)
}
