//! The authenticator's checksum over the application's data (RFC 4120, section 5.5.1).
ghost use Rattle.std.specs.Prelude.{◌≡◌};
ghost use Rattle.ap_accept.specs.Checksum.{checksum_verdict, code_of_verdict, is_modified, is_other_type, verdict_by};

use crate::accepted::Accepted;
use enctypes::{Key, KeyUsage, verify};
use krb_fields::{Code, Typed};
use std::fmt;

/// What the authenticator's checksum is, over the application's data.
#[derive(Clone, Copy, Debug, PartialEq, Eq)]
pub enum ChecksumVerdict {
    /// It is the checksum of the data.
    Matches,
    /// The authenticator has none.
    Absent,
    /// Its type is not the one for the session key's encryption type.
    OtherType,
    /// It is not the checksum of the data.
    Modified,
}

impl ChecksumVerdict {
    /// Returns the code with which a service refuses (RFC 4120, section 7.5.9). `None` if the checksum matches.
    pub fn code(self) -> Option<Code>
        // Promise, as Accepted::judge_checksum: `judge_checksum` says that the ..
        ensures { result ≡ code_of_verdict self }
    {
        match self {
            ChecksumVerdict::Matches => None,
            ChecksumVerdict::Absent => Some(Code::KrbApErrInappCksum),
            ChecksumVerdict::OtherType => Some(Code::KrbApErrInappCksum),
            ChecksumVerdict::Modified => Some(Code::KrbApErrModified),
        }
    }
}

impl fmt::Display for ChecksumVerdict {
    fn fmt<W: fmt::Write>(&self, f: &mut fmt::Formatter<W>) -> fmt::Result {
        f.write_str(match self {
            ChecksumVerdict::Matches => "the checksum is that of the data",
            ChecksumVerdict::Absent => "the authenticator has no checksum",
            ChecksumVerdict::OtherType =>
                "the checksum's type is not the one for the session key's encryption type",
            ChecksumVerdict::Modified => "the checksum is not that of the data",
        })
    }
}

impl Accepted {
    /// Judges the authenticator's checksum over these bytes, by the session key.
    ///
    /// GSS-API puts other things into the checksum, under a type of its own (RFC 4121, section 4.1.1). The result is
    /// then `OtherType`.
    pub fn judge_checksum(&self, octets: &[u8]) -> ChecksumVerdict
        // Promise: `judge_checksum` says that the authenticator's checksum is that of these bytes, or what is wrong
        // with it; `code` is the error code for that.
        ensures { result ≡ checksum_verdict self.now.session_key self.now.cksum octets.now }
    {
        match &self.cksum {
            Some(cksum) => judge(&self.session_key, octets, cksum),
            None => ChecksumVerdict::Absent,
        }
    }
}

fn judge(key: &Key, octets: &[u8], cksum: &Typed) -> ChecksumVerdict
    ensures { result ≡ verdict_by key.now octets.now cksum.now }
{
    if is_other_type(key, cksum) {
        ChecksumVerdict::OtherType
    } else if is_modified(key, octets, cksum) {
        ChecksumVerdict::Modified
    } else {
        ChecksumVerdict::Matches
    }
}

fn is_other_type(key: &Key, cksum: &Typed) -> bool
    ensures { result ≡ is_other_type key.now cksum.now }
{
    cksum.number != key.etype().checksum_type()
}

fn is_modified(key: &Key, octets: &[u8], cksum: &Typed) -> bool
    ensures { result ≡ is_modified key.now octets.now cksum.now }
{
    let usage = KeyUsage::ApReqAuthenticatorChecksum;
    !verify(key, usage, octets, cksum.octets.as_slice())
}
