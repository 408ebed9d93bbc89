//! The state of an acceptor.
ghost use Rattle.std.specs.Prelude.{◌≡◌};

use crate::clients::Clients;
use crate::options::AcceptorOptions;
use cred_files::Keytab;
use principal_rows::NameMap;
use replay::Opening;
use std::alloc::Global;

/// The state of an acceptor.
#[derive(Drop)]
pub struct State {
    /// The services' keys, which decrypt the tickets.
    pub keytab: Keytab,
    /// The options that the acceptor was opened with.
    pub options: AcceptorOptions,
    /// The floor of a service without an entry in `services`: an authenticator whose ctime, in seconds since 1970, is
    /// below it is too old.
    pub floor: i64,
    /// The map's key is the service's realm, followed by the components of its name.
    pub services: NameMap<Clients>,
}

impl State {
    ghost use Rattle.ap_accept.specs.State.{opened};

    /// Returns the state of an acceptor that starts.
    pub fn open(alloc: Global, keytab: Keytab, options: AcceptorOptions, opening: Opening) -> State
        ensures { result ≡ opened keytab options opening }
    {
        State {
            keytab,
            options,
            floor: opening.floor(),
            services: NameMap::new(alloc),
        }
    }
}
