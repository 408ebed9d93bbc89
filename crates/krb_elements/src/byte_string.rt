//! The string types of any bytes: OCTET STRING and KerberosString (RFC 4120, section 5.2.1). They differ in their tags.
ghost use Rattle.std.specs.Prelude.{◌≡◌, IfOk};

use std::alloc::{AllocError, Global};
use std::fmt::{self, Debug, Formatter, Write};
use std::marker::Model;

/// The tag of an OCTET STRING.
const OCTET_STRING: u8 = 0x04;

/// The tag of a GeneralString.
const GENERAL_STRING: u8 = 0x1b;

/// An OCTET STRING, such as a key or a cipher.
pub type Octets = ByteString<OCTET_STRING>;

/// A borrowed OCTET STRING.
pub type OctetsRef<'a> = ByteStringRef<'a, OCTET_STRING>;

/// A GeneralString of any bytes, such as a realm or a component of a name.
///
/// Strings are ordered like a `Vec<u8>` in Rust: by the first byte that differs, and a prefix comes first.
pub type KerberosString = ByteString<GENERAL_STRING>;

/// A borrowed KerberosString.
pub type KerberosStringRef<'a> = ByteStringRef<'a, GENERAL_STRING>;

/// A string of any bytes with this tag. Contracts see the list of its bytes.
#[derive(Drop)]
pub struct ByteString<const TAG: u8> {
    bytes: Vec<u8>,
}

impl<const TAG: u8> Model for ByteString<TAG> {
    ghost use Rattle.std.specs.Prelude.{List, ℕ};

    ghost Value = { List ℕ };

    ghost view = { λ s. s.bytes.items };
}

impl<const TAG: u8> ByteString<TAG> {
    /// Returns these bytes as a string, without a copy.
    pub fn new(bytes: Vec<u8>) -> ByteString<TAG>
        // Promise: a byte string has the bytes that it was made from; a copy has the same.
        ensures { result ≡ bytes.items }
    {
        ByteString { bytes }
    }

    /// Returns a copy of these bytes as a string.
    pub fn from_slice(alloc: Global, bytes: &[u8]) -> Result<ByteString<TAG>, AllocError>
        // Promise, as ByteString::new: a byte string has ..
        ensures { IfOk result (λ string. string ≡ bytes.now) }
    {
        let bytes = Vec::from_slice(alloc, bytes)?;
        Ok(ByteString { bytes })
    }

    /// Returns the bytes.
    pub fn as_slice(&self) -> &[u8]
        // Promise, as ByteString::new: a byte string has ..
        ensures { result.now ≡ self.now }
    {
        self.bytes.as_slice()
    }

    /// Returns a copy.
    pub fn copy(&self, alloc: Global) -> Result<ByteString<TAG>, AllocError>
        // Promise, as ByteString::new: a byte string has ..
        ensures { IfOk result (λ string. string ≡ self.now) }
    {
        ByteString::from_slice(alloc, self.as_slice())
    }

    /// Returns the bytes, without a copy.
    pub fn into_vec(self) -> Vec<u8>
        // Promise, as ByteString::new: a byte string has ..
        ensures { result.items ≡ self.entry }
    {
        let ByteString { bytes } = self;
        bytes
    }
}

impl<const TAG: u8> Debug for ByteString<TAG> {
    fn fmt<W: Write>(&self, f: &mut Formatter<W>) -> fmt::Result {
        let name = if TAG == OCTET_STRING {
            "Octets"
        } else {
            "KerberosString"
        };
        f.debug_struct(name).field("bytes", &self.bytes).finish()
    }
}

/// A borrowed string of any bytes with this tag.
#[derive(Debug, Drop)]
pub struct ByteStringRef<'a, const TAG: u8> {
    bytes: &'a [u8],
}

impl<'a, const TAG: u8> Model for ByteStringRef<'a, TAG> {
    ghost use Rattle.std.specs.Prelude.{List, ℕ};

    ghost Value = { List ℕ };

    ghost view = { λ s. s.bytes.now };
}

impl<'a, const TAG: u8> ByteStringRef<'a, TAG> {
    /// Returns these bytes as a string.
    pub fn new(bytes: &'a [u8]) -> ByteStringRef<'a, TAG>
        // Promise, as ByteString::new: a byte string has ..
        ensures { result ≡ bytes.now }
    {
        ByteStringRef { bytes }
    }

    /// Returns the bytes, for as long as they are borrowed.
    pub fn as_slice(&self) -> &'a [u8]
        // Promise, as ByteString::new: a byte string has ..
        ensures { result.now ≡ self.now }
    {
        let ByteStringRef { bytes } = self;
        *bytes
    }
}
