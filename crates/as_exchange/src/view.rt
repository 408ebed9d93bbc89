//! What the AS exchange needs besides the request.
ghost use Rattle.std.specs.Prelude.{◌≡◌, option_copied};
ghost use Rattle.as_exchange.specs.View.{current_number, current_failures};

use preauth::counted_for;
use principal_rows::{Limits, Row};
use replay::Failures;
use std::marker::Model;

/// What is known of the client and the service that a request names.
#[derive(Drop)]
pub struct AsView<'a> {
    /// The realm, 1 to 255 bytes.
    pub realm: &'a [u8],
    /// The limits that the realm sets for all its principals.
    pub limits: &'a Limits,
    /// The client's row, if it has one.
    pub client: Option<&'a Row>,
    /// The service's row, if it has one.
    pub service: Option<&'a Row>,
    /// The client's failures, for whichever key version they were counted.
    pub failures: Failures,
}

impl<'a> Model for AsView<'a> {
    ghost use Rattle.std.specs.Prelude.{option_copied};
    ghost use Rattle.as_exchange.specs.View as trees;

    ghost Value = { trees.AsView };

    ghost view = { λ v. record {
      realm = v.realm.now;
      limits = v.limits.now;
      client = option_copied v.client;
      service = option_copied v.service;
      failures = v.failures;
    } };
}

impl AsView<'_> {
    /// Returns the client's failures for its current key version. No others count, so a new key ends a lock.
    pub fn current_failures(&self) -> Failures
        ensures { result ≡ current_failures self.now }
    {
        counted_for(self.failures, current_number(self.client))
    }
}

/// Returns the number of a client's current key version; 0 without a row.
fn current_number(client: Option<&Row>) -> u32
    ensures { result ≡ current_number (option_copied client.entry) }
{
    match client {
        Some(row) => row.versions.current().number,
        None => 0,
    }
}
