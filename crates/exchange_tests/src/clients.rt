//! A client by its name, over a network and a store in memory.
use crate::network::{Said, SaidNetwork};
use client_files::{ClientError, Config, Defaults};
use client_login::Secret;
use client_sockets::Client;
use file_store::{MemoryStore, Variable};
use std::alloc::Global;
use std::process::Abort;
use std::test::Fail;

const CONFIG: &[u8] =
    b"[libdefaults]\ndefault_realm = A.B\n[realms]\nA.B = {\n  kdc = 192.0.2.1\n}\n";

type MemoryClient = Client<SaidNetwork, MemoryStore>;

/// Returns a client of a principal of `A.B`, whose only KDC says this of each request.
fn client(alloc: Global, said: Said) -> Result<MemoryClient, Fail> {
    let mut store = MemoryStore::new(alloc);
    store.set(alloc, "krb5.conf", CONFIG)?;
    store.set_seconds(1_704_067_200);
    let network = SaidNetwork {
        said,
        ways: String::new(alloc),
    };
    match opened(alloc, network, store) {
        Ok(client) => Ok(client),
        Err(_) => Err(Fail::from("a client that can be opened")),
    }
}

fn opened(
    alloc: Global,
    network: SaidNetwork,
    mut store: MemoryStore,
) -> Result<MemoryClient, ClientError> {
    let defaults = Defaults {
        cache: Variable::Absent,
        config: Variable::Text("krb5.conf"),
        user: Variable::Absent,
    };
    let config = Config::read(alloc, &mut store, &defaults)?;
    Client::over(alloc, network, store, &config, "u")
}

/// What each request gets, and why there is no ticket-granting ticket then.
const REFUSED: &[(Said, &str)] = &[
    (
        Said::Error(6),
        "192.0.2.1:88: error 6: the client is not in the database",
    ),
    (
        Said::Error(29),
        "192.0.2.1:88: error 29: a service is not available",
    ),
    (Said::NoMemory, "out of memory"),
];

/// Logs in, and checks what the client says of that, and of a ticket that it is asked for afterwards.
fn expect_refused(
    rt: &impl Abort,
    alloc: Global,
    client: &mut MemoryClient,
    why: &str,
) -> Result<(), Fail> {
    let secret = Secret::password(alloc, "password")?;
    let said = match client.log_in(&secret) {
        Ok(()) => String::from_str(alloc, "a login")?,
        Err(fault) => format!(in alloc; "{fault}")?,
    };
    assert_eq!(rt; said.as_str(), why);
    assert!(rt; client.tgt().is_none());
    let said = match client.ticket("h") {
        Ok(_) => String::from_str(alloc, "a ticket")?,
        Err(fault) => format!(in alloc; "{fault}")?,
    };
    assert_eq!(rt;
        said.as_str(),
        "u@A.B: the client has no ticket-granting ticket: log in first"
    );
    Ok(())
}

#[test]
fn a_client_that_was_refused_has_no_ticket(rt: HostRuntime) -> Result<(), Fail> {
    let alloc = rt.alloc();
    for (said, why) in REFUSED {
        let mut client = client(alloc, *said)?;
        expect_refused(&rt, alloc, &mut client, *why)?;
    }
    Ok(())
}
