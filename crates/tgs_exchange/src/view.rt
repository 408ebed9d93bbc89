//! The state that the TGS exchange answers from, besides the request and what it presents.
use principal_rows::{Limits, Row};
use replay::{Kept, ReplayCache};
use std::marker::Model;

/// What is known of the client of a ticket, and of the service that a request names.
#[derive(Drop)]
pub struct TgsView<'a> {
    /// The realm's bytes, 1 to 255.
    pub realm: &'a [u8],
    /// The limits that the realm sets for all its principals.
    pub limits: &'a Limits,
    /// The client's row, if it has one.
    pub client: Option<&'a Row>,
    /// The service's row, if it has one.
    pub service: Option<&'a Row>,
    /// The client's replay cache.
    pub cache: &'a ReplayCache<Kept>,
}

impl<'a> Model for TgsView<'a> {
    ghost use Rattle.std.specs.Prelude.{option_copied};
    ghost use Rattle.std.specs.Coded.{codes};
    ghost use Rattle.replay.specs.contracts.keep.Kept as kept;
    ghost use Rattle.replay.specs.contracts.cache.ReplayCache as caches;
    ghost use Rattle.tgs_exchange.specs.View as trees;

    ghost Value = { trees.TgsView };

    ghost coded = { Prim.hlevel (codes, (caches.the_row kept.the_row).coded) };

    ghost view = { λ v. record {
      realm = v.realm.now;
      limits = v.limits.now;
      client = option_copied v.client;
      service = option_copied v.service;
      cache = v.cache.now;
    } };
}
