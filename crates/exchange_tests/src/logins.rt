//! Logins of one client, one after another.
use crate::network::{HOST, SECOND_PORT, Said, SaidNetwork};
use client_login::{KdcClient, KdcPlace, Kdcs, Login, Secret, TicketRequest, Transports};
use cred_files::Principal;
use krb_elements::KerberosString;
use krb_fields::{Moment, Name, component_from_text, tgs_name};
use rand_chacha::ChaCha20Rng;
use rand_core::SeedableRng;
use std::alloc::Global;
use std::net::SocketAddr;
use std::process::Abort;
use std::test::Fail;

type Client = KdcClient<SaidNetwork>;

/// A client of two KDCs: one at an address, and one at a host whose name is looked up.
fn client(alloc: Global) -> Result<Client, Fail> {
    let at = Moment::new(1_704_067_200, 0).ok_or("a moment")?;
    let first = SocketAddr::from(([192, 0, 2, 1], 88));
    let mut places = Vec::new(alloc);
    places.push(KdcPlace::of_address(alloc, first)?)?;
    places.push(KdcPlace::of_host(alloc, HOST, SECOND_PORT)?)?;
    let network = SaidNetwork {
        said: Said::Nothing,
        ways: String::new(alloc),
    };
    let kdcs = Kdcs::new(network, places, Transports::UdpFirst);
    Ok(KdcClient::new(alloc, kdcs, at))
}

fn login(alloc: Global) -> Result<Login, Fail> {
    let realm: KerberosString = component_from_text(alloc, "A.B")?;
    let name = Name::from_text(alloc, "u")?;
    let service = tgs_name(alloc, realm.as_slice())?;
    Ok(Login {
        client: Principal { realm, name },
        service,
        request: TicketRequest::PLAIN,
    })
}

/// Logs in, and returns why there is no ticket.
fn fault(alloc: Global, client: &mut Client) -> Result<String, Fail> {
    let login = login(alloc)?;
    let secret = Secret::password(alloc, "password")?;
    let mut rng = ChaCha20Rng::from_seed([7; 32]);
    match client.log_in(&mut rng, &login, &secret) {
        Ok(_) => Ok(String::from_str(alloc, "a ticket")?),
        Err(fault) => Ok(format!(in alloc; "{fault}")?),
    }
}

/// What each message of a login gets; why there is no ticket, and the messages.
const LOGINS: &[(Said, &str, &str)] = &[
    // a host is looked up when its turn comes, and only once
    (
        Said::Error(6),
        "192.0.2.1:88: error 6: the client is not in the database",
        "u",
    ),
    // a KDC that is silent is not asked first afterwards
    (Said::Nothing, "no KDC replied: timed out", "utlUT"),
    (
        Said::Error(6),
        "192.0.2.1:88: error 6: the client is not in the database",
        "u",
    ),
    (
        Said::Error(29),
        "192.0.2.1:88: error 29: a service is not available",
        "uU",
    ),
    // where memory runs out, nothing more is sent
    (Said::NoMemory, "out of memory", "u"),
];

fn expect_fault(
    rt: &impl Abort,
    alloc: Global,
    client: &mut Client,
    row: &(Said, &str, &str),
) -> Result<(), Fail> {
    let (said, text, ways) = *row;
    client.kdcs.network.said = said;
    client.kdcs.network.ways.clear();
    let found = fault(alloc, client)?;
    assert_eq!(rt; found.as_str(), text);
    assert_eq!(rt; client.kdcs.network.ways.as_str(), ways, "{text}");
    Ok(())
}

#[test]
fn kdcs_are_asked_until_one_gives_a_useful_reply(rt: HostRuntime) -> Result<(), Fail> {
    let mut client = client(rt.alloc())?;
    for row in LOGINS {
        expect_fault(&rt, rt.alloc(), &mut client, row)?;
    }
    Ok(())
}
