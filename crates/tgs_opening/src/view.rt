//! What decrypting a ticket needs besides the request.
use encrypted_data::ReadyKeys;
use principal_rows::Row;
use std::marker::Model;

/// The rows whose keys may have encrypted the ticket that a TGS-REQ presents.
#[derive(Drop)]
pub struct TicketView<'a> {
    /// The realm, 1 to 255 bytes.
    pub realm: &'a [u8],
    /// The row of the ticket-granting service.
    pub tgs: Option<&'a Row>,
    /// The row of the requested service, if it has one.
    pub service: Option<&'a Row>,
    /// A cache of recently used keys. It affects speed only: contracts don't see it.
    pub ready: &'a ReadyKeys,
}

impl<'a> Model for TicketView<'a> {
    ghost use Rattle.std.specs.Prelude.{option_copied};
    ghost use Rattle.tgs_opening.specs.View as trees;

    ghost Value = { trees.TicketView };

    ghost view = { λ v. record {
      realm = v.realm.now;
      tgs = option_copied v.tgs;
      service = option_copied v.service;
    } };
}
