//! A client by its name, over a network and a store.
ghost use Rattle.std.specs.Prelude.{◌≡◌, ◌≢◌, IfOk, IfSome, None, OnErr, OnOk, option_copied};
ghost use Rattle.client_core.specs.Taken.{AreSame};
ghost use Rattle.client_files.specs.Clocks.{IsShown};
ghost use Rattle.client_login.specs.Places.{AreWithin};
ghost use Rattle.client_login.specs.Replies.{IsExchanged};
ghost use Rattle.client_login.specs.Verifying.{IsTicketOf};
ghost use Rattle.krb_fields.specs.Granting.{tgs_name};
ghost use Rattle.client_files.specs.Configs.{ArePlacesOf, IsNamed};
ghost use Rattle.client_sockets.specs.Clients.{IsGrantedFor, IsGrantedIn, IsLoggedIn, IsSeeded, IsServiceIn};
ghost use Rattle.client_sockets.specs.Presenting.{IsPresentedAt};

use crate::presented::{Presented, make_presented};
use crate::socket_network::SocketNetwork;
use client_core::{is_presentable, session_key};
use client_files::{
    ClientError, ClientStore, Config, Defaults, StepError, at_file, at_password, parse_name,
    principal_text, read_keytab,
};
use client_login::{
    AnyMessage, KdcClient, Kdcs, Login, LoginError, Password, Secret, TicketError, Transports,
    draw_confounder,
};
use cred_files::{Credential, Keytab, Principal};
use file_store::{CLOCK, FileError, FileStore, STANDARD_INPUT, Variable, ask_password, draw_seed};
use krb_elements::Octets;
use krb_fields::{Moment, Name, component_to_text, tgs_name};
use rand_chacha::ChaCha20Rng;
use rand_core::SeedableRng;
use std::alloc::{AllocError, Global};
use std::env;
use std::marker::Model;

/// A client of a realm. It asks the KDCs that the `krb5.conf` in force names, and keeps its ticket-granting ticket
/// (TGT) in memory. Each of its errors names the KDC, the file or the principal that it concerns.
///
/// Each call reads the clock and waits for the KDCs for at most 30 seconds. It never takes a KDC's clock.
#[derive(Drop)]
pub struct Client<X, T> {
    kdc: KdcClient<X>,
    store: T,
    rng: ChaCha20Rng,
    login: Login,
    tgt: Option<Credential>,
}

/// A client over the system's sockets, clock and files.
pub type SystemClient<'a> = Client<SocketNetwork<'a, HostRuntime>, FileStore<'a, HostRuntime>>;

impl<X, T> Model for Client<X, T> {
    ghost use Rattle.std.specs.Prelude.{◌≡◌, IfSome};
    ghost use Rattle.client_core.specs.Taken.{AreSame};
    ghost use Rattle.krb_fields.specs.Granting.{tgs_name};
    ghost use Rattle.client_sockets.specs.Clients.{ClientState};

    ghost Value = { ClientState T };

    ghost view = { λ c. record {
      principal = c.login.client;
      request = c.login.request;
      places = c.kdc.kdcs.places.items;
      generator = c.rng;
      tgt = c.tgt;
      store = c.store;
    } };

    // It asks for tickets of its realm's ticket-granting service, and its own is the principal's.
    ghost invariant = { λ c. (c.login.service ≡ tgs_name c.login.client.realm) × IfSome c.tgt (λ tgt.
        AreSame tgt.client.realm tgt.client.name c.login.client.realm c.login.client.name) };
}

impl<'a> Client<SocketNetwork<'a, HostRuntime>, FileStore<'a, HostRuntime>> {
    /// Opens a client over the system's sockets, clock and files, for a principal: `alice@EXAMPLE.COM`, or `alice` of
    /// the default realm. Reads the `krb5.conf` that `KRB5_CONFIG` names, or else `/etc/krb5.conf`: the KDCs, the
    /// default realm, and what the first ticket is to be. Sends nothing.
    pub fn open(rt: &'a HostRuntime, principal: &str) -> Result<SystemClient<'a>, ClientError> {
        let variable = env::var(rt, "KRB5_CONFIG");
        let defaults = Defaults {
            cache: Variable::Absent,
            config: Variable::new(&variable)?,
            user: Variable::Absent,
        };
        let alloc = rt.alloc();
        let mut store = FileStore::new(rt);
        let config = Config::read(alloc, &mut store, &defaults)?;
        Client::over(alloc, SocketNetwork::new(rt), store, &config, principal)
    }
}

impl<X: AnyMessage + Drop, T: ClientStore + Drop> Client<X, T> {
    /// Opens a client for a principal as [`SystemClient::open`] does, over a network, a store with its files and its
    /// clock, and what a `krb5.conf` says.
    pub fn over(
        alloc: Global,
        network: X,
        mut store: T,
        config: &Config,
        principal: &str,
    ) -> Result<Client<X, T>, ClientError>
        // Promise: **a client is the one that the words name**: of the realm behind the `@`, or else of the default
        // realm of the `krb5.conf`.
        ensures principal { IfOk result (λ client. IsNamed config.entry.now principal.entry.now client.principal) }
        // Promise: the KDCs that a client asks are those which the file names for that realm, in order, each at its
        // address or host.
        ensures places { IfOk result (λ client.
            ArePlacesOf config.entry.now client.principal.realm client.places) }
        // Promise (seeded, tgt): a client's random bytes begin with a seed that was drawn; it has no TGT yet.
        ensures seeded { IfOk result (λ client. IsSeeded (T.world store) client.generator) }
        ensures tgt { IfOk result (λ client. client.tgt ≡ None) }
        ensures world { IfOk result (λ client. T.world client.store ≡ T.world store) }
    {
        let login = make_login(alloc, config, principal)?;
        let places = config.kdcs(alloc, login.client.realm.as_slice())?;
        let at = clock(alloc, &mut store)?;
        let seed = at_file(alloc, draw_seed(&mut store))?;
        Ok(Client {
            kdc: KdcClient::new(alloc, Kdcs::new(network, places, Transports::UdpFirst), at),
            store,
            rng: ChaCha20Rng::from_seed(seed),
            login,
            tgt: None,
        })
    }

    /// Returns the client's principal.
    pub fn principal(&self) -> &Principal
        ensures { result.now ≡ self.now.principal }
    {
        &self.login.client
    }

    /// Returns the TGT that the last login got.
    pub fn tgt(&self) -> Option<&Credential>
        // Promise (tgt, client), as Client::log_in: **after a login there ..
        ensures tgt { option_copied result ≡ self.now.tgt }
        ensures client { IfSome result (λ tgt. AreSame tgt.now.client.realm tgt.now.client.name
            self.now.principal.realm self.now.principal.name) }
    {
        self.tgt.as_ref()
    }

    /// Asks for the password at the terminal, or else reads the first line of standard input.
    pub fn ask_password(&mut self) -> Result<Secret, ClientError>
        ensures client { self.new ≡ record self.old { store = self.new.store } }
        ensures world { T.world self.new.store ≡ T.world self.old.store }
    {
        let alloc = self.kdc.alloc;
        let name = self.login.client.name.to_text(alloc)?;
        let realm = component_to_text(alloc, self.login.client.realm.as_slice())?;
        let octets = ask_password(alloc, &mut self.store, name.as_str(), realm.as_str());
        Ok(Secret::Password(Password {
            octets: Octets::new(at_password(alloc, STANDARD_INPUT, octets)?),
            least_count: None,
        }))
    }

    /// Reads a keytab: the client's own for a login, or a service's for [`Client::verify`].
    pub fn read_keytab(&mut self, path: &str) -> Result<Keytab, ClientError>
        ensures client { self.new ≡ record self.old { store = self.new.store } }
        ensures world { T.world self.new.store ≡ T.world self.old.store }
    {
        read_keytab(self.kdc.alloc, &mut self.store, path)
    }

    /// Logs in: gets a TGT with a password or a keytab. Forgets the TGT of an earlier login first, so after an `Err`
    /// there is none.
    pub fn log_in(&mut self, secret: &Secret) -> Result<(), ClientError>
        // Promise: **after a login there is the TGT that it got**: from the reply of one of these KDCs to the request
        // with this principal and the nonce that this login drew, under a key of this secret, at a moment of the clock.
        ensures ok { OnOk result (IsLoggedIn (IsExchanged X.finds self.old.places X.carries X.answers)
            (T.world self.old.store) secret.now self.old self.new.tgt) }
        // Promise: after an error of a login there is no TGT, also if an earlier login got one.
        ensures err { OnErr result (self.new.tgt ≡ None) }
        // Promise (principal, within, world): a login changes neither the principal nor a file, and no KDC gets a
        // further address.
        ensures principal { self.new.principal ≡ self.old.principal }
        ensures request { self.new.request ≡ self.old.request }
        ensures within { AreWithin X.finds self.old.places self.new.places }
        ensures world { T.world self.new.store ≡ T.world self.old.store }
    {
        self.tgt = None;
        let alloc = self.kdc.alloc;
        self.kdc.set_clock(clock(alloc, &mut self.store)?);
        match self.kdc.log_in(&mut self.rng, &self.login, secret) {
            Ok(tgt) => {
                self.tgt = Some(tgt);
                Ok(())
            }
            Err(fault) => Err(self.login_fault(fault)),
        }
    }

    /// Gets a ticket for a service of the client's realm, such as `host/www.example.com`, with the TGT.
    pub fn ticket(&mut self, service: &str) -> Result<Credential, ClientError>
        // Promise (ok, tgt): **a client's ticket is for the service that the words name**, from the reply of one of
        // these KDCs to the request with the TGT of the last login and the nonce that this call drew.
        ensures ok { IfOk result (λ credential. IsGrantedFor
            (IsExchanged X.finds self.old.places X.carries X.answers)
            (T.world self.old.store) self.old service.now credential) }
        ensures principal { self.new.principal ≡ self.old.principal }
        ensures request { self.new.request ≡ self.old.request }
        ensures tgt { self.new.tgt ≡ self.old.tgt }
        ensures within { AreWithin X.finds self.old.places self.new.places }
        ensures world { T.world self.new.store ≡ T.world self.old.store }
    {
        let alloc = self.kdc.alloc;
        let name = parse_name(alloc, service)?;
        self.kdc.set_clock(clock(alloc, &mut self.store)?);
        let Some(tgt) = &self.tgt else {
            return Err(self.fault(StepError::NoLogin));
        };
        match self.kdc.service_ticket(&mut self.rng, tgt, &name) {
            Ok(credential) => Ok(credential),
            Err(fault) => Err(ticket_fault(alloc, &self.kdc.kdcs, service, fault)),
        }
    }

    /// Checks that the KDC that logged the client in is the realm's: gets a ticket for a service whose keytab this is,
    /// and decrypts it with the keytab. Returns that ticket. The service is the first principal of the realm in the
    /// keytab. Its key has to be random.
    ///
    /// **A program that lets somebody in by a password has to call this.** `log_in` alone shows that a KDC knows the
    /// password, and the person who types it may also answer in the KDC's place.
    #[tactic(auto, using(crate::proofs::Same::same_as))]
    pub fn verify(&mut self, keytab: &Keytab) -> Result<Credential, ClientError>
        // A key of the keytab decrypts the ticket, to the client and the session key of the KDC's reply.
        // Promise (ok, granted, client, tgt): **a client's verified ticket is one that the keytab decrypts**, to the
        // principal that was opened and the session key of the KDC's reply, and was got with the TGT of the last login.
        ensures ok { IfOk result (λ credential. IsTicketOf keytab.now credential) }
        // It was got with the TGT of the last login, for a service of the keytab.
        ensures granted { IfOk result (λ credential. IsGrantedIn
            (IsExchanged X.finds self.old.places X.carries X.answers)
            (T.world self.old.store) self.old keytab.now credential) }
        // That client is the one that was opened.
        ensures client { IfOk result (λ credential. AreSame credential.client.realm credential.client.name
            self.old.principal.realm self.old.principal.name) }
        ensures principal { self.new.principal ≡ self.old.principal }
        ensures request { self.new.request ≡ self.old.request }
        ensures tgt { self.new.tgt ≡ self.old.tgt }
        ensures within { AreWithin X.finds self.old.places self.new.places }
        ensures world { T.world self.new.store ≡ T.world self.old.store }
    {
        let alloc = self.kdc.alloc;
        self.kdc.set_clock(clock(alloc, &mut self.store)?);
        let Some(tgt) = &self.tgt else {
            return Err(self.fault(StepError::NoLogin));
        };
        let Some(service) = service_in(keytab, &self.login.client) else {
            return Err(self.fault(StepError::NoService));
        };
        match self.kdc.verify(&mut self.rng, tgt, service, keytab) {
            Ok(credential) => Ok(credential),
            Err(fault) => Err(service_fault(alloc, &self.kdc.kdcs, service, fault)),
        }
    }

    /// Makes an AP-REQ that presents a ticket to its service and asks for a reply. The ticket is one that
    /// [`Client::ticket`] returned. [`Presented::judge`] judges the reply.
    pub fn present(&mut self, ticket: &Credential) -> Result<Presented, ClientError>
        // Promise (ok, client, world): **a client presents the ticket that it is handed**, under the ticket's session
        // key, with a moment of its clock and a confounder that this call drew. No file changes.
        ensures ok { IfOk result (λ made. IsPresentedAt (T.world self.old.store) self.old ticket.now made) }
        ensures client { self.new ≡ record self.old {
          generator = self.new.generator;
          store = self.new.store;
        } }
        ensures world { T.world self.new.store ≡ T.world self.old.store }
    {
        let alloc = self.kdc.alloc;
        let at = clock(alloc, &mut self.store)?;
        let Some(key) = session_key(ticket) else {
            return Err(fault_of(alloc, &ticket.server, NOT_PRESENTABLE));
        };
        if !is_presentable(ticket) {
            return Err(fault_of(alloc, &ticket.server, NOT_PRESENTABLE));
        }
        let confounder = draw_confounder(&mut self.rng);
        match make_presented(alloc, ticket, key, at, &confounder) {
            Ok(made) => Ok(made),
            Err(error) => Err(ClientError::from(error)),
        }
    }

    /// Returns the error with the client's principal as its subject.
    fn fault(&self, cause: StepError) -> ClientError {
        fault_of(self.kdc.alloc, &self.login.client, cause)
    }

    fn login_fault(&self, fault: TicketError) -> ClientError {
        let alloc = self.kdc.alloc;
        match principal_text(alloc, &self.login.client) {
            Ok(client) => ClientError::of_login(alloc, &self.kdc.kdcs, client.as_str(), fault),
            Err(error) => ClientError::from(error),
        }
    }
}

const NOT_PRESENTABLE: StepError = StepError::Login(LoginError::NotPresentable);

/// Returns the error with a principal as its subject.
fn fault_of(alloc: Global, principal: &Principal, cause: StepError) -> ClientError {
    match principal_text(alloc, principal) {
        Ok(subject) => ClientError::of(subject, cause),
        Err(error) => ClientError::from(error),
    }
}

fn service_fault<X>(
    alloc: Global,
    kdcs: &Kdcs<X>,
    service: &Name,
    fault: TicketError,
) -> ClientError {
    match service.to_text(alloc) {
        Ok(service) => ticket_fault(alloc, kdcs, service.as_str(), fault),
        Err(error) => ClientError::from(error),
    }
}

/// Returns the error for a service without a ticket. Its subject is the KDC that is to blame, and the service.
fn ticket_fault<X>(
    alloc: Global,
    kdcs: &Kdcs<X>,
    service: &str,
    fault: TicketError,
) -> ClientError {
    let ClientError { subject, cause } = ClientError::of_login(alloc, kdcs, service, fault);
    match subject {
        Some(subject) => match with_service(alloc, subject.as_str(), service) {
            Ok(subject) => ClientError::of(subject, cause),
            Err(error) => ClientError::from(error),
        },
        None => ClientError {
            subject: None,
            cause,
        },
    }
}

fn with_service(alloc: Global, subject: &str, service: &str) -> Result<String, AllocError> {
    if subject == service {
        String::from_str(alloc, service)
    } else {
        format!(in alloc; "{subject}: {service}")
    }
}

/// Returns the login of a principal, for the first ticket that the `krb5.conf` asks for.
fn make_login(alloc: Global, config: &Config, principal: &str) -> Result<Login, ClientError>
    ensures client { IfOk result (λ login. IsNamed config.now principal.now login.client) }
    ensures service { IfOk result (λ login. login.service ≡ tgs_name login.client.realm) }
{
    let client = config.principal(alloc, principal)?;
    Ok(Login {
        service: tgs_name(alloc, client.realm.as_slice())?,
        client,
        request: config.ticket_request(alloc)?,
    })
}

/// Returns the moment that the store's clock shows.
fn clock<T: ClientStore>(alloc: Global, store: &mut T) -> Result<Moment, ClientError>
    ensures shown { IfOk result (λ at. IsShown (T.world store.old) at) }
    ensures unchanged { T.world store.new ≡ T.world store.old }
{
    match store.moment() {
        Ok(at) => Ok(at),
        Err(error) => {
            let cause = StepError::File(FileError::Failed(error));
            Err(ClientError::new(alloc, CLOCK, cause))
        }
    }
}

/// Returns the first principal of the client's realm in a keytab, unless it is the client: its key shows nothing.
#[tactic(auto, using(crate::proofs::Same::contained))]
fn service_in<'k>(keytab: &'k Keytab, client: &Principal) -> Option<&'k Name>
    ensures { IfSome result (λ name. IsServiceIn keytab.entry.now client.now name.now) }
{
    for entry in keytab.entries() {
        if entry.realm.as_slice() == client.realm.as_slice() {
            return other_than(client, &entry.name);
        }
    }
    None
}

fn other_than<'k>(client: &Principal, name: &'k Name) -> Option<&'k Name>
    ensures name { IfSome result (λ other. other.now ≡ name.entry.now) }
    ensures other { IfSome result (λ other. other.now.components ≢ client.now.name.components) }
{
    if name.is_same(&client.name) {
        return None;
    }
    Some(name)
}
