//! Elements, each with its check behind it.
ghost use Rattle.std.specs.Prelude.{◌≡◌, ◌<◌, ◌^◌, ◌++◌, ℕ, List, length, IfOk, OnOk, IsOkAnd};
ghost use Rattle.krb_der.specs.Spelling.{tlv};
ghost use Rattle.journal.specs.Texts.{check_of, checked};

use krb_der::{DerFault, Reader, Writer};
use sha2::{Digest, Sha256};
use std::alloc::AllocError;

/// A header or an entry in the octets that are read, and its check.
#[derive(Drop)]
pub struct Element<'a> {
    /// The octets of the header or the entry, without the tag and the length before them.
    pub octets: &'a [u8],
    /// The first 16 octets of the SHA-256 digest of the check before it and of these octets.
    pub check: [u8; 16],
}

/// Returns the check of an element, from the check before it.
pub fn next_check(before: &[u8], element: &[u8]) -> [u8; 16]
    ensures { result ≡ check_of before.now element.now }
{
    let mut hasher = Sha256::new();
    hasher.update(before);
    hasher.update(element);
    let digest = hasher.finalize();
    let mut check = [0; 16];
    check.copy_from_slice(&digest[..16]);
    check
}

/// Takes the element at the front, if its check follows it.
pub fn take_element<'a>(reader: &mut Reader<'a>, before: &[u8]) -> Result<Element<'a>, DerFault>
    ensures found { IfOk result (λ e. reader.old ≡ checked before.now e.octets.now ++ reader.new) }
    ensures short { IfOk result (λ e. length e.octets.now < 2 ^ 32) }
    ensures check { IfOk result (λ e. e.check ≡ check_of before.now e.octets.now) }
    // An element at the front that is followed by its check is taken.
    ensures only { (element rest : List ℕ) → length element < 2 ^ 32 → reader.old ≡ checked before.now element ++ rest
        → IsOkAnd result (λ e. e.octets.now ≡ element) × (reader.new ≡ rest) }
{
    let octets = reader.read_octets()?;
    let check = next_check(before, octets);
    take_check(reader, &check)?;
    Ok(Element { octets, check })
}

/// Takes this check from the front.
pub fn take_check(reader: &mut Reader<'_>, check: &[u8; 16]) -> Result<(), DerFault>
    ensures found { OnOk result (reader.old ≡ tlv 4 check.now ++ reader.new) }
    ensures only { (rest : List ℕ) → reader.old ≡ tlv 4 check.now ++ rest → IsOkAnd result (λ _. reader.new ≡ rest) }
{
    let stated = reader.read_octets()?;
    if stated != check.as_slice() {
        return Err(DerFault::Trailing);
    }
    Ok(())
}

/// Appends an element and its check. Returns the check.
pub fn put_element(out: &mut Writer, before: &[u8], element: &[u8]) -> Result<[u8; 16], AllocError>
    requires { length element.now < 2 ^ 32 }
    ensures text { OnOk result (out.new ≡ out.old ++ checked before.now element.now) }
    ensures check { IfOk result (λ check. check ≡ check_of before.now element.now) }
{
    let check = next_check(before, element);
    out.put_octets(element)?;
    out.put_octets(&check)?;
    Ok(check)
}
