//! An acceptor of AP-REQ messages.
ghost use Rattle.std.specs.Prelude.{◌≡◌, ◌↔◌, ◌-ℤ◌, pos, true, Some, IfOk, IfErr, IfSome};
ghost use Rattle.krb_types.specs.ApReq as trees;
ghost use Rattle.krb_fields.specs.Name.{Components};
ghost use Rattle.ap_accept.specs.Accepts.{accepts, code_by, recorded_by, request_of, IsAfter, IsAnswer, IsCoded};
ghost use Rattle.ap_accept.specs.Accepts.{IsParty, IsService};
ghost use Rattle.ap_accept.specs.Clients.{IsKeptOrDropped, SaysTheSame, hour};
ghost use Rattle.ap_accept.specs.Named.{accepts_for, is_for_another};
ghost use Rattle.ap_accept.specs.Reply.{IsApReply};
ghost use Rattle.ap_accept.specs.Saved.{resumed, Fails, Saves};
ghost use Rattle.ap_accept.specs.State.{clients_of, cache_of, opened, with_keytab};

use crate::accepted::Accepted;
use crate::accepting::accept;
use crate::fault::ApFault;
use crate::naming::accept_for;
use crate::options::AcceptorOptions;
use crate::state::State;
use cred_files::{CredError, Keytab};
use krb_fields::{Moment, Name};
use replay::Opening;
use std::alloc::{AllocError, Global};
use std::marker::Model;

/// The services of a process: their keys, and a replay cache for each client of each service.
#[derive(Drop)]
pub struct Acceptor {
    state: State,
}

impl Model for Acceptor {
    ghost use Rattle.ap_accept.specs.declared.state.State.{State};
    ghost use Rattle.ap_accept.specs.contracts.state.State.{the_row};

    ghost Value = { State };

    ghost coded = { the_row.coded };

    ghost view = { λ acceptor. acceptor.state };
}

impl Acceptor {
    /// Returns an acceptor for the services of this keytab. It allocates nothing, so it never fails. Its error type
    /// stands for out of memory only.
    pub fn open(
        alloc: Global,
        keytab: Keytab,
        options: AcceptorOptions,
        opening: Opening,
    ) -> Result<Acceptor, AllocError>
        // Promise, as Acceptor::replace: an acceptor starts with ..
        ensures { IfOk result (λ acceptor. acceptor ≡ opened keytab options opening) }
    {
        Ok(Acceptor {
            state: State::open(alloc, keytab, options, opening),
        })
    }

    /// Returns the bytes from which a later process resumes, as long as this one accepts nothing more.
    pub fn save(&self, alloc: Global) -> Result<Vec<u8>, AllocError>
        // Promise: an acceptor that resumes from the saved bytes equals the one that saved them, but with the keys and
        // options that it is given.
        ensures { IfOk result (λ bytes. Saves self.now bytes.items) }
    {
        self.state.save(alloc)
    }

    /// Returns an acceptor that goes on with what another saved, also with other keys and options. It refuses what that
    /// one would refuse as a repeat.
    ///
    /// Bytes may be used only once, and only if nothing was accepted since they were made: what was accepted in between
    /// could be accepted again. So remove the file that holds them before the first [`Acceptor::accept`]. Where there
    /// are no such bytes, or they are damaged (`BadMagic` or `Truncated`), call [`Acceptor::open`] with
    /// [`Opening::Restart`].
    pub fn resume(
        alloc: Global,
        keytab: Keytab,
        options: AcceptorOptions,
        bytes: &[u8],
    ) -> Result<Acceptor, CredError>
        // Promise (resumed, fault): an acceptor resumes with what the bytes hold, or fails because they are not those
        // of a saved acceptor or memory ran out.
        ensures resumed { IfOk result (λ acceptor. resumed keytab options bytes.now ≡ Some acceptor) }
        ensures fault { IfErr result (λ fault. Fails fault (resumed keytab options bytes.now)) }
    {
        match State::resume(alloc, keytab, options, bytes) {
            Ok(state) => Ok(Acceptor { state }),
            Err(fault) => Err(fault),
        }
    }

    /// Replaces the keys with those of this keytab, and allocates nothing.
    ///
    /// The replay caches stay as they are. So nobody is refused because of the change, and nothing that was accepted is
    /// accepted again.
    pub fn replace(&mut self, keytab: Keytab)
        // Promise: an acceptor starts with its keys, its options and no stored replay cache; replacing the keys changes
        // nothing else.
        ensures { self.new ≡ with_keytab self.old keytab }
    {
        self.state.keytab = keytab;
    }

    /// Accepts the bytes of an AP-REQ, or returns the rule that refuses them.
    ///
    /// `at` is the moment when they came in. `confounder` is 16 random bytes, for the AP-REP. An authenticator is
    /// recorded as soon as only the ticket's own times and flags can still refuse it. A call that runs out of memory
    /// changes nothing.
    pub fn accept(
        &mut self,
        alloc: Global,
        at: Moment,
        confounder: &[u8; 16],
        ap_req: &[u8],
    ) -> Result<Accepted, ApFault>
        // The AP-REQ is the one that the bytes encode, if they encode one.
        // Promise: the AP-REQ is the one that the bytes spell.
        ensures request { (r : trees.ApReq) → (request_of ap_req.now ≡ Some r) ↔ trees.ap_req.Spells r ap_req.now }
        // The answer and the state afterwards are those that the rules prescribe.
        // Promise: what is accepted, or which error or refusal is returned, is decided by the first row that holds in
        // one table (`rows`), which is stated apart from the rules that the KDC shares.
        ensures answer { IsAnswer result (accepts self.old at confounder.now ap_req.now).answer }
        // Promise (state, services, keytab, options): the replay caches afterwards are those of the definition: only
        // those of the service whose authenticator is recorded change. The keys and the options don't change. Nothing
        // changes if memory runs out.
        ensures state { IsAfter result self.old self.new (accepts self.old at confounder.now ap_req.now).state }
        // The code of a refusal is the one in the row of the table that refuses.
        // Promise: the code of a refusal is the one in the row that refuses.
        ensures code { IfErr result (λ fault. IsCoded fault (code_by self.old at.sec ap_req.now)) }
        // The session key decrypts the AP-REP, if there is one, to the authenticator's time.
        // Promise: the session key decrypts the AP-REP, if there is one, to the authenticator's time.
        ensures reply { IfOk result (λ accepted. IfSome (recorded_by self.old at.sec ap_req.now) (λ p.
            IfSome accepted.ap_rep (λ octets. IsApReply p.session_key confounder.now p.authenticator octets))) }
        // Only the replay cache of the service and the client whose authenticator is recorded changes. Entries of the
        // service's other clients may be dropped, but their caches give the same verdict on every authenticator from an
        // hour before this call on.
        ensures services { (service : Components) → (IsService service (recorded_by self.old at.sec ap_req.now) → ⊥)
            → clients_of self.new service ≡ clients_of self.old service }
        // Promise: another client's replay cache gives the same verdict on every authenticator, at each moment from an
        // hour before the call on.
        ensures caches { (service client : Components)
            → (IsParty service client (recorded_by self.old at.sec ap_req.now) → ⊥)
            → SaysTheSame (at.sec -ℤ pos hour) (cache_of self.new service client)
            (cache_of self.old service client) }
        // Another client's cache is unchanged or dropped. It is dropped only if the service's floor lay more than an
        // hour too low, and if an empty cache with the raised floor refuses no less.
        // Promise: that replay cache is unchanged, or it was dropped: then the service's floor lay more than an hour
        // too low, and the client has the empty replay cache with the raised floor.
        // Promise: the raised floor is an hour and 300 seconds before the call, and refuses all that the dropped replay
        // cache held.
        ensures kept { (service client : Components)
            → (IsParty service client (recorded_by self.old at.sec ap_req.now) → ⊥)
            → IsKeptOrDropped at.sec (clients_of self.old service).floor (cache_of self.old service client)
            (cache_of self.new service client) }
        ensures keytab { self.new.keytab ≡ self.old.keytab }
        ensures options { self.new.options ≡ self.old.options }
    {
        accept(&mut self.state, alloc, at, confounder, ap_req)
    }

    /// Accepts the bytes of an AP-REQ like [`Acceptor::accept`], if its ticket is for the service of this name, in
    /// whichever realm of the keytab. A ticket for another service is refused like one for a service that the keytab
    /// lacks (`NotForUs`, unless an earlier rule refuses it), and changes nothing.
    pub fn accept_for(
        &mut self,
        service: &Name,
        alloc: Global,
        at: Moment,
        confounder: &[u8; 16],
        ap_req: &[u8],
    ) -> Result<Accepted, ApFault>
        // Promise (answer, state): for one service alone, what is accepted and the state afterwards are those of
        // `accept`; if the ticket is for a service of another name, they are those of an acceptor without keys.
        ensures answer { IsAnswer result
            (accepts_for service.now.components self.old at confounder.now ap_req.now).answer }
        ensures state { IsAfter result self.old self.new
            (accepts_for service.now.components self.old at confounder.now ap_req.now).state }
        // What is accepted is for this service, and a ticket for another one changes nothing.
        ensures service { IfOk result (λ accepted. accepted.service.components ≡ service.now.components) }
        ensures other { is_for_another service.now.components (request_of ap_req.now) ≡ true → self.new ≡ self.old }
    {
        accept_for(&mut self.state, service, alloc, at, confounder, ap_req)
    }
}
