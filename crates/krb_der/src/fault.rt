//! Errors of reading.
use std::error::Error;
use std::fmt;

/// The first error in the bytes, from left to right.
#[derive(Clone, Copy, Debug, PartialEq, Eq)]
pub enum DerFault {
    /// The bytes end before the value does.
    Truncated,
    /// The value has another tag.
    BadTag,
    /// The length is indefinite, has more than four bytes, or is not in its shortest form.
    BadLength,
    /// The contents are not an INTEGER in the wanted range, in its shortest form.
    BadInteger,
    /// The contents are not a time of the form `YYYYMMDDHHMMSSZ`.
    BadTime,
    /// The contents are not a BIT STRING whose unused bits are zero.
    BadBits,
    /// More bytes follow the value.
    Trailing,
}

impl fmt::Display for DerFault {
    fn fmt<W: fmt::Write>(&self, f: &mut fmt::Formatter<W>) -> fmt::Result {
        f.write_str(match self {
            DerFault::Truncated => "the bytes end too early",
            DerFault::BadTag => "the tag is not the expected one",
            DerFault::BadLength =>
                "a length is not in its shortest form, or has more than four bytes",
            DerFault::BadInteger => "an INTEGER is out of range, or not in its shortest form",
            DerFault::BadTime => "a time is not valid, or not of the form YYYYMMDDHHMMSSZ",
            DerFault::BadBits => "a BIT STRING is malformed, or its unused bits are not zero",
            DerFault::Trailing => "bytes follow the value",
        })
    }
}

impl Error for DerFault {}
