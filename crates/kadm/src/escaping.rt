//! A writer that shows control characters in place of writing them.
ghost use Rattle.std.specs.Prelude.{◌≤◌, length};

use std::io;
use std::io::Write;

/// A writer that writes a control character other than a line feed as `\xx` for each of its bytes, as names are shown.
/// A line of a batch may have any characters, and some of these would make a terminal show something else.
#[derive(Drop)]
pub(crate) struct Escaping<W> {
    inner: W,
}

impl<W: Write> Escaping<W> {
    /// Returns a writer over another one.
    pub(crate) fn new(inner: W) -> Escaping<W> {
        Escaping { inner }
    }

    /// Writes these bytes as digits.
    fn write_digits(&mut self, octets: &[u8]) -> io::Result<()> {
        for octet in octets {
            write!(self.inner, "\\{octet:02x}")?;
        }
        Ok(())
    }
}

impl<W: Write> Write for Escaping<W> {
    fn write(&mut self, octets: &[u8]) -> io::Result<usize> {
        let plain = plain_len(octets);
        if plain > 0 {
            return self.inner.write(&octets[..plain]);
        }
        let control = control_len(octets);
        self.write_digits(&octets[..control])?;
        Ok(control)
    }

    fn flush(&mut self) -> io::Result<()> {
        self.inner.flush()
    }
}

/// Returns how many bytes come before the first control character.
fn plain_len(octets: &[u8]) -> usize
    ensures { result ≤ length octets.now }
{
    for place in 0..octets.len() {
        if control_len(&octets[place..]) > 0 {
            return place;
        }
    }
    octets.len()
}

/// Returns how many bytes the control character has that the bytes begin with: none if they begin with another one, or
/// with a line feed. The characters U+0080 to U+009F are control characters of two bytes.
fn control_len(octets: &[u8]) -> usize
    ensures { result ≤ length octets.now }
{
    match octets {
        [0xC2, 0x80..=0x9F, ..] => 2,
        [octet, ..] if octet.is_ascii_control() && *octet != b'\n' => 1,
        _ => 0,
    }
}
