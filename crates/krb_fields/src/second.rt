//! Whole seconds.
ghost use Rattle.std.specs.Prelude.{◌≡◌};
ghost use Rattle.std.specs.Option.{SomeIff};
ghost use Rattle.krb_fields.specs.Moment.{IsSecond};

use crate::Moment;
use std::marker::Model;

/// A whole second since the start of 1970, up to 253402300799 (the end of the year 9999).
#[derive(Debug, Clone, Copy, PartialEq, Eq)]
pub struct Second {
    value: i64,
}

impl Model for Second {
    ghost use Rattle.std.specs.Prelude.{ℤ};
    ghost use Rattle.krb_fields.specs.Moment.{IsSecond};

    ghost Value = { ℤ };

    ghost view = { λ s. s.value };

    ghost invariant = { λ s. IsSecond s.value };

    ghost inverse = { λ z. record { value = z } };
}

impl Second {
    /// Returns the second, if the number is in range.
    pub fn new(value: i64) -> Option<Second>
        // Promise: a second is made exactly from 0 to 253402300799.
        ensures { SomeIff result (IsSecond value) value }
    {
        if (0..=Moment::LAST_SECOND).contains(&value) {
            Some(Second { value })
        } else {
            None
        }
    }

    /// Returns the number: whole seconds since the start of 1970.
    pub fn get(self) -> i64
        // Promise (value, range), as Second::new: a second is made ..
        ensures value { result ≡ self }
        ensures range { IsSecond result }
    {
        self.value
    }
}
