//! Writing a header or an entry with its check.
ghost use Rattle.std.specs.Prelude.{◌≡◌, ◌<◌, ◌^◌, length, IfOk};
ghost use Rattle.krb_elements.specs.Codec.{written};
ghost use Rattle.journal.specs.Forms as forms;
ghost use Rattle.journal.specs.Texts.{HasElement, HasHeader, check_of, checked, header_check};

use crate::checks::put_element;
use crate::entry::Entry;
use crate::header::Header;
use krb_der::Writer;
use krb_elements::write;
use std::alloc::{AllocError, Global};

/// Octets to append, and the check that they end with.
#[derive(Drop)]
pub struct Written {
    /// A header or an entry, and its check behind it, each as an OCTET STRING.
    pub text: Vec<u8>,
    /// That check, from which the check of the next entry is made.
    pub check: [u8; 16],
}

/// Writes the beginning of a journal.
pub fn write_header(alloc: Global, header: &Header) -> Result<Written, AllocError>
    requires { length (written forms.header header.now) < 2 ^ 32 }
    ensures text { IfOk result (λ w. w.text.items ≡ checked header.now.link (written forms.header header.now)) }
    ensures check { IfOk result (λ w. w.check ≡ header_check header.now) }
    // What is written is read again.
    ensures has { IfOk result (λ _. HasHeader header.now) }
{
    let element = write(alloc, header)?;
    with_check(alloc, header.link.as_slice(), &element)
}

/// Writes an entry, to follow a check.
pub fn write_entry(alloc: Global, check: &[u8; 16], entry: &Entry) -> Result<Written, AllocError>
    requires { length (written forms.entry entry.now) < 2 ^ 32 }
    ensures text { IfOk result (λ w. w.text.items ≡ checked check.now (written forms.entry entry.now)) }
    ensures check { IfOk result (λ w. w.check ≡ check_of check.now (written forms.entry entry.now)) }
    ensures has { IfOk result (λ _. HasElement entry.now) }
{
    let element = write(alloc, entry)?;
    with_check(alloc, check, &element)
}

/// Writes an element with its check.
fn with_check(alloc: Global, before: &[u8], element: &[u8]) -> Result<Written, AllocError>
    requires { length element.now < 2 ^ 32 }
    ensures text { IfOk result (λ w. w.text.items ≡ checked before.now element.now) }
    ensures check { IfOk result (λ w. w.check ≡ check_of before.now element.now) }
{
    let mut out = Writer::new(alloc);
    let check = put_element(&mut out, before, element)?;
    Ok(Written {
        text: out.finish(),
        check,
    })
}
