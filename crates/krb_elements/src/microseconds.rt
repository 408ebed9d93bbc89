//! Microseconds (RFC 4120, section 5.2.4).
ghost use Rattle.std.specs.Prelude.{◌≡◌};
ghost use Rattle.std.specs.Option.{SomeIff};
ghost use Rattle.krb_elements.specs.Simple.{IsMicrosecond};

use std::marker::Model;

/// The microseconds of a moment, from 0 to 999999.
#[derive(Clone, Copy, Debug, PartialEq, Eq)]
pub struct Microseconds {
    value: u32,
}

impl Model for Microseconds {
    ghost use Rattle.std.specs.Prelude.{ℕ};
    ghost use Rattle.krb_elements.specs.Simple.{IsMicrosecond};

    ghost Value = { ℕ };

    ghost view = { λ n. n.value };

    ghost invariant = { λ n. IsMicrosecond n.value };

    ghost inverse = { λ n. record { value = n } };
}

impl Microseconds {
    /// Returns this many microseconds, if they are less than a second.
    pub fn new(value: u32) -> Option<Microseconds>
        // Promise, as UInt32::new: a UInt32 and microseconds ..
        ensures { SomeIff result (IsMicrosecond value) value }
    {
        if value > 999_999 {
            return None;
        }
        Some(Microseconds { value })
    }

    /// Returns this many microseconds, which must be less than a second.
    pub fn of(value: u32) -> Microseconds
        requires { IsMicrosecond value }
        // Promise, as UInt32::new: a UInt32 and microseconds ..
        ensures { result ≡ value }
    {
        Microseconds { value }
    }

    /// Returns the number, from 0 to 999999.
    pub fn get(self) -> u32
        // Promise (value, range), as UInt32::new: a UInt32 and microseconds ..
        ensures value { result ≡ self }
        ensures range { IsMicrosecond result }
    {
        self.value
    }
}
