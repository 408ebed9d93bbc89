//! The replay caches of all services.
ghost use Rattle.std.specs.Prelude.{◌≡◌, false, None, OnOk, OnErr};
ghost use Rattle.std.specs.FinMap as map;
ghost use Rattle.replay.specs.Stamp.{is_beyond_clock_skew};
ghost use Rattle.ap_accept.specs.Accepts.{cache_for, recording, stamp_of};
ghost use Rattle.ap_accept.specs.Clients.{opened_clients};
ghost use Rattle.ap_accept.specs.State.{clients_of};

use crate::clients::Clients;
use crate::presented::Presented;
use crate::state::State;
use krb_fields::{Moment, Name};
use std::alloc::{AllocError, Global};

impl State {
    /// Returns the clients of a service, or `opened` if it has none yet.
    pub fn clients<'s>(&'s self, service: &Name, opened: &'s Clients) -> &'s Clients
        requires { opened.now ≡ opened_clients self.now.floor }
        ensures { result.now ≡ clients_of self.now service.now.components }
    {
        match self.services.get(service) {
            Some(clients) => clients,
            None => opened,
        }
    }

    /// Records an authenticator. It must be within the clock skew and new. Drops entries that can't be replayed any
    /// more. Changes nothing if memory runs out.
    pub fn record_seen(
        &mut self,
        alloc: Global,
        at: Moment,
        presented: &Presented,
    ) -> Result<(), AllocError>
        requires timely { is_beyond_clock_skew (cache_for self.old presented.now).floor at.sec
            presented.now.authenticator.ctime
            ≡ false }
        requires new { map.get (cache_for self.old presented.now).pairs (stamp_of presented.now) ≡ None }
        ensures ok { OnOk result (self.new ≡ recording self.old at.sec presented.now) }
        ensures err { OnErr result (self.new ≡ self.old) }
    {
        let service = &presented.service;
        let mut clients = Clients::opened(alloc, self.floor);
        if self.services.replace(service, &mut clients) {
            let done = clients.record_seen(alloc, at, presented);
            let _ = self.services.replace(service, &mut clients);
            done
        } else {
            clients.record_seen(alloc, at, presented)?;
            self.services.put(service.copy(alloc)?, clients)
        }
    }
}
