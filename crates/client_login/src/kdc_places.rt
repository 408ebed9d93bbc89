//! Where the KDCs of a realm are.
ghost use Rattle.std.specs.Prelude.{◌≡◌, true, IfOk, IfSome, OnOk};
ghost use Rattle.std.specs.List.{All, Contains};
ghost use Rattle.client_login.specs.Places.{IsAddress, IsAt, IsHost, IsWithin};

use crate::network::Network;
use std::alloc::{AllocError, Global};
use std::io;
use std::net::SocketAddr;

/// Where a KDC is: at an address, or at a host whose name is looked up when its turn comes.
#[derive(Drop)]
pub struct KdcPlace {
    /// The host's name; empty for an address.
    host: String,
    port: u16,
    /// The addresses, as far as they are known.
    addresses: Vec<SocketAddr>,
    is_looked_up: bool,
}

impl KdcPlace {
    /// Returns the place of a KDC at this address, for which no host is looked up.
    pub fn of_address(alloc: Global, address: SocketAddr) -> Result<KdcPlace, AllocError>
        // Promise, as KdcClient::log_in: a host that was ..
        ensures { IfOk result (λ place. IsAddress address place) }
    {
        Ok(KdcPlace {
            host: String::new(alloc),
            port: address.port(),
            addresses: Vec::from_slice(alloc, &[address])?,
            is_looked_up: true,
        })
    }

    /// Returns the place of a KDC at this port of a host, which is not looked up yet.
    pub fn of_host(alloc: Global, host: &str, port: u16) -> Result<KdcPlace, AllocError>
        // Promise, as KdcClient::log_in: a host that was ..
        ensures { IfOk result (λ place. IsHost host.now port place) }
    {
        Ok(KdcPlace {
            host: String::from_str(alloc, host)?,
            port,
            addresses: Vec::new(alloc),
            is_looked_up: false,
        })
    }

    /// Returns its addresses, as far as they are known.
    pub fn addresses(&self) -> &[SocketAddr] {
        &self.addresses
    }

    /// Returns the name of a host that was looked up and has no address.
    pub fn unknown_host(&self) -> Option<&str> {
        if self.is_looked_up && self.addresses.is_empty() {
            Some(self.host.as_str())
        } else {
            None
        }
    }

    /// Returns this address, if it is known to be one of the place.
    #[tactic(auto, using(crate::proofs::Within::contained))]
    pub(crate) fn known(&self, address: SocketAddr) -> Option<SocketAddr>
        ensures known { IfSome result (λ kdc. self.now.is_looked_up ≡ true) }
        ensures one { IfSome result (λ kdc. Contains self.now.addresses.items kdc) }
    {
        if !self.is_looked_up {
            return None;
        }
        for known in &self.addresses {
            if *known == address {
                return Some(*known);
            }
        }
        None
    }

    /// Looks up the host, unless that was done before, and returns its addresses.
    #[tactic(auto, using(crate::proofs::Within::found_now))]
    pub(crate) fn look_up<X: Network>(
        &mut self,
        alloc: Global,
        network: &mut X,
    ) -> Result<Vec<SocketAddr>, AllocError>
        ensures found { IfOk result (λ found. All (IsAt X.finds self.new) found.items) }
        ensures within { IsWithin X.finds self.old self.new }
    {
        self.find(alloc, network)?;
        let found = Vec::from_slice(alloc, &self.addresses)?;
        Ok(found)
    }

    /// Looks up the host, unless that was done before.
    #[tactic(auto, using(crate::proofs::Within::same_place, crate::proofs::Within::looked_up))]
    fn find<X: Network>(&mut self, alloc: Global, network: &mut X) -> Result<(), AllocError>
        ensures known { OnOk result (self.new.is_looked_up ≡ true) }
        ensures within { IsWithin X.finds self.old self.new }
    {
        if self.is_looked_up {
            return Ok(());
        }
        self.addresses = found_by(alloc, network, self.host.as_str(), self.port)?;
        self.is_looked_up = true;
        Ok(())
    }
}

/// Returns the addresses of a host: none if the look-up failed.
#[tactic(auto, using(crate::proofs::Within::none_found))]
fn found_by<X: Network>(
    alloc: Global,
    network: &mut X,
    host: &str,
    port: u16,
) -> Result<Vec<SocketAddr>, AllocError>
    ensures { IfOk result (λ found. All (X.finds host.now port) found.items) }
{
    match network.look_up(alloc, host, port) {
        Ok(addresses) => Ok(addresses),
        Err(error) if error.kind() == io::ErrorKind::OutOfMemory => Err(AllocError),
        Err(_) => Ok(Vec::new(alloc)),
    }
}
