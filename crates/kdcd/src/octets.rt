//! The bytes of a reader, one by one.
ghost use Rattle.std.specs.Prelude.{◌≡◌, IfOk, IfErr, None, option_to_list};
ghost use Rattle.std.specs.Io.KnownBytes.{Consumes, IsAtEnd};
ghost use Rattle.kdcd.specs.Octets.{octets_of};

use std::alloc::Global;
use std::io;
use std::io::{BufReader, Bytes, Read};

/// The bytes of a reader.
#[derive(Drop)]
pub(crate) struct Octets<R: Read + Drop> {
    bytes: Bytes<BufReader<R, Global>>,
    /// Whether the end was reached.
    ended: bool,
}

impl<R: Read + Drop> Octets<R> {
    pub(crate) fn new(alloc: Global, reader: R) -> io::Result<Octets<R>>
        ensures { IfOk result (λ octets. octets_of R.remaining octets ≡ R.remaining reader) }
    {
        Ok(Octets {
            bytes: BufReader::new(alloc, reader)?.bytes(),
            ended: false,
        })
    }

    /// Returns the next byte, or `None` at the end.
    pub(crate) fn next(&mut self) -> io::Result<Option<u8>>
        ensures octet { IfOk result (λ octet.
            Consumes (octets_of R.remaining self.old) (octets_of R.remaining self.new) (option_to_list octet)) }
        ensures end { IfOk result (λ octet. octet ≡ None → IsAtEnd (octets_of R.remaining self.new)) }
    {
        if self.ended {
            return Ok(None);
        }
        let octet = self.bytes.next().transpose()?;
        self.ended = octet.is_none();
        Ok(octet)
    }
}
