//! A client of the KDCs of a realm.
ghost use Rattle.std.specs.Prelude.{◌≡◌, false};
ghost use Rattle.client_login.specs.Moments.{IsNext};

use crate::asking::Kdcs;
use crate::moments::next_moment;
use krb_fields::Moment;
use std::alloc::Global;

/// A client of the KDCs of a realm.
#[derive(Drop)]
pub struct KdcClient<X> {
    /// What it takes its memory from.
    pub alloc: Global,
    /// The KDCs that it asks.
    pub kdcs: Kdcs<X>,
    /// The moment of the next request. Each request that proves who the client is moves it on by a microsecond, because
    /// a KDC accepts each moment of a client once.
    pub at: Moment,
    /// Whether that moment is by a KDC's clock, which [`KdcClient::take_clock`] took.
    pub is_by_kdc: bool,
}

impl<X> KdcClient<X> {
    /// Returns a client at this moment, which is by the computer's own clock.
    pub fn new(alloc: Global, kdcs: Kdcs<X>, at: Moment) -> KdcClient<X>
        // Promise, as KdcClient::take_clock: **a KDC's time is ..
        ensures { result ≡ record { alloc = alloc; kdcs = kdcs; at = at; is_by_kdc = false } }
    {
        KdcClient {
            alloc,
            kdcs,
            at,
            is_by_kdc: false,
        }
    }

    /// Sets the moment by the computer's own clock.
    pub fn set_clock(&mut self, at: Moment)
        // Promise, as KdcClient::take_clock: **a KDC's time is ..
        ensures { self.new ≡ record self.old { at = at; is_by_kdc = false } }
    {
        self.at = at;
        self.is_by_kdc = false;
    }

    /// Returns the moment of a request, and moves on.
    pub(crate) fn take_moment(&mut self) -> Moment
        // Promise (taken, next, kdcs), as KdcClient::log_in: after a call the client's moment is as ..
        ensures taken { result ≡ self.old.at }
        ensures next { IsNext self.old.at self.new.at }
        ensures kdcs { self.new.kdcs ≡ self.old.kdcs }
        // Promise, as KdcClient::log_in: a call doesn't change whether the client's moment ..
        ensures clock { self.new.is_by_kdc ≡ self.old.is_by_kdc }
    {
        let at = self.at;
        self.at = next_moment(at);
        at
    }
}
