//! UInt32 (RFC 4120, section 5.2.4), as it was sent.
ghost use Rattle.std.specs.Prelude.{◌≡◌};
ghost use Rattle.std.specs.Option.{SomeIff};
ghost use Rattle.krb_elements.specs.Simple.{IsUInt32};

use std::marker::Model;

/// The number of a UInt32 field, from -2147483648 to 4294967295.
///
/// Reading accepts any INTEGER in that range and keeps it unchanged, since some peers send numbers of this type as
/// signed ones.
#[derive(Clone, Copy, Debug, PartialEq, Eq)]
pub struct UInt32 {
    value: i64,
}

impl Model for UInt32 {
    ghost use Rattle.std.specs.Prelude.{ℤ};
    ghost use Rattle.krb_elements.specs.Simple.{IsUInt32};

    ghost Value = { ℤ };

    ghost view = { λ n. n.value };

    ghost invariant = { λ n. IsUInt32 n.value };

    ghost inverse = { λ z. record { value = z } };
}

impl UInt32 {
    /// Returns the number, if it is in range.
    pub fn new(value: i64) -> Option<UInt32>
        // Promise: a UInt32 and microseconds are made exactly from the numbers in their ranges.
        ensures { SomeIff result (IsUInt32 value) value }
    {
        if value < -2147483648 || 4294967295 < value {
            return None;
        }
        Some(UInt32 { value })
    }

    /// Returns the number as it was sent, from -2147483648 to 4294967295.
    pub fn get(self) -> i64
        // Promise (value, range), as UInt32::new: a UInt32 and microseconds ..
        ensures value { result ≡ self }
        ensures range { IsUInt32 result }
    {
        self.value
    }
}
