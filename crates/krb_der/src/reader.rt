//! Reads DER values from the front of borrowed bytes.
ghost use Rattle.std.specs.Prelude.{◌≡◌, ◌==◌, ◌<◌, ◌^◌, ◌++◌, IfOk, IsOkAnd, List, ℕ, ℤ, length, slice_get};
ghost use Rattle.krb_der.specs.Spelling.{tlv, Stands};
ghost use Rattle.krb_der.specs.Int.{Int};
ghost use Rattle.krb_der.specs.Bits.{Bits};
ghost use Rattle.krb_der.specs.Time.{Time};
ghost use Rattle.krb_der.specs.Reading.{Reads, tlv_at, int_at, bits_at, time_at};

use crate::fault::DerFault;
use crate::time::KTime;
use crate::tlv::{split_bits, split_int, split_time, split_tlv};
use std::marker::Model;

/// The bytes that are left to read. A read that fails doesn't move the reader.
#[derive(Clone, Debug, Drop)]
pub struct Reader<'a> {
    rest: &'a [u8],
}

impl<'a> Model for Reader<'a> {
    ghost Value = { List ℕ };

    ghost view = { λ r. r.rest.now };
}

impl<'a> Reader<'a> {
    /// Returns a reader at the start of the bytes.
    pub fn new(bytes: &'a [u8]) -> Reader<'a>
        // Promise: a new reader has all of its bytes left; `is_empty` says whether none is left, and `peek_tag` returns
        // the next one.
        ensures { result ≡ bytes.now }
    {
        Reader { rest: bytes }
    }

    /// Checks whether no byte is left.
    pub fn is_empty(&self) -> bool
        // Promise, as Reader::new: a new reader has ..
        ensures { result ≡ (length self.now == 0) }
    {
        self.rest.is_empty()
    }

    /// Returns the first byte, which is the tag of the next value.
    pub fn peek_tag(&self) -> Option<u8>
        // Promise, as Reader::new: a new reader has ..
        ensures { result ≡ slice_get self.now 0 }
    {
        self.rest.first().copied()
    }

    /// Reads the value with this tag at the front, and returns its contents.
    pub fn read_tlv(&mut self, tag: u8) -> Result<&'a [u8], DerFault>
        // If it succeeds, this value is at the front, in its only encoding.
        // Promise (found, only): a value is read exactly if one of its encodings is at the front.
        ensures found { IfOk result (λ c. (self.old ≡ tlv tag c.now ++ self.new) × (length c.now < 2 ^ 32)) }
        // If such a value is at the front, it succeeds.
        ensures only { (contents rest : List ℕ) → length contents < 2 ^ 32 → self.old ≡ tlv tag contents ++ rest
            → IsOkAnd result (λ c. c.now ≡ contents) × (self.new ≡ rest) }
        // The result, including the error, is that of the definition. After an error the reader hasn't moved.
        // Promise: the error is that of the definition ([FORMATS](FORMATS.md)), and the reader stays where it was.
        ensures exact { Reads (λ c. c.now) result self.old self.new (tlv_at tag self.old) }
    {
        let (contents, rest) = split_tlv(self.rest, tag)?;
        self.rest = rest;
        Ok(contents)
    }

    /// Reads the OCTET STRING at the front.
    pub fn read_octets(&mut self) -> Result<&'a [u8], DerFault>
        // Promise (found, only), as Reader::read_tlv: a value is read ..
        ensures found { IfOk result (λ c. (self.old ≡ tlv 4 c.now ++ self.new) × (length c.now < 2 ^ 32)) }
        ensures only { (contents rest : List ℕ) → length contents < 2 ^ 32 → self.old ≡ tlv 4 contents ++ rest
            → IsOkAnd result (λ c. c.now ≡ contents) × (self.new ≡ rest) }
        // Promise, as Reader::read_tlv: the error is that ..
        ensures exact { Reads (λ c. c.now) result self.old self.new (tlv_at 4 self.old) }
    {
        self.read_tlv(0x04)
    }

    /// Reads the INTEGER at the front, with at most eight bytes.
    pub fn read_int(&mut self) -> Result<i64, DerFault>
        // Promise (found, only), as Reader::read_tlv: a value is read ..
        ensures found { IfOk result (λ z. Stands (Int z) self.old self.new) }
        ensures only { (z : ℤ) (rest : List ℕ) → Stands (Int z) self.old rest
            → IsOkAnd result (λ y. y ≡ z) × (self.new ≡ rest) }
        // Promise, as Reader::read_tlv: the error is that ..
        ensures exact { Reads (λ z. z) result self.old self.new (int_at self.old) }
    {
        let (value, rest) = split_int(self.rest)?;
        self.rest = rest;
        Ok(value)
    }

    /// Reads the BIT STRING at the front. Returns its first 32 bits, most significant first, with zeros for missing
    /// ones, and the number of its bits.
    pub fn read_bits(&mut self) -> Result<(u32, u64), DerFault>
        // Promise (found, only), as Reader::read_tlv: a value is read ..
        ensures found { IfOk result (λ b. Stands (Bits b) self.old self.new) }
        ensures only { (b : ℕ × ℕ) (rest : List ℕ) → Stands (Bits b) self.old rest
            → IsOkAnd result (λ x. x ≡ b) × (self.new ≡ rest) }
        // Promise, as Reader::read_tlv: the error is that ..
        ensures exact { Reads (λ b. b) result self.old self.new (bits_at self.old) }
    {
        let (bits, rest) = split_bits(self.rest)?;
        self.rest = rest;
        Ok(bits)
    }

    /// Reads the KerberosTime at the front.
    pub fn read_time(&mut self) -> Result<KTime, DerFault>
        // Promise (found, only), as Reader::read_tlv: a value is read ..
        ensures found { IfOk result (λ z. Stands (Time z) self.old self.new) }
        ensures only { (z : ℤ) (rest : List ℕ) → Stands (Time z) self.old rest
            → IsOkAnd result (λ y. y ≡ z) × (self.new ≡ rest) }
        // Promise, as Reader::read_tlv: the error is that ..
        ensures exact { Reads (λ z. z) result self.old self.new (time_at self.old) }
    {
        match split_time(self.rest) {
            Ok(found) => {
                self.rest = found.1;
                Ok(found.0)
            }
            Err(fault) => Err(fault),
        }
    }
}
