//! The key distribution centre.
ghost use Rattle.std.specs.Prelude.{◌≡◌, ◌≢◌, ◌≤◌, ◌↔◌, ℕ, List, length, Some, IfOk, IfSome, IfNone, IsOk, OnOk, OnErr};
ghost use Rattle.std.specs.Prelude.{IsOkUnless, option_map};
ghost use Rattle.std.specs.FinMap as map;
ghost use Rattle.std.specs.Option.{option_copied};
ghost use Rattle.krb_fields.specs.Name.{Components};
ghost use Rattle.kdc_core.specs.Answer.{answer, after_request, error_octets, IsReply, OneTicketTwoKeys};
ghost use Rattle.kdc_core.specs.Audit.{audit};
ghost use Rattle.kdc_core.specs.Answered.{IsAnswered, asked};
ghost use Rattle.kdc_core.specs.Issued.{issued, IsTicketReply};
ghost use Rattle.kdc_core.specs.Request.{Request, SpellsRequest, request_of};
ghost use Rattle.kdc_core.specs.Ruling.{IsRuled};
ghost use Rattle.kdc_core.specs.Run.{after_event, replaced};
ghost use Rattle.kdc_core.specs.Shown.{IsSeenAlike, ShowsTicket};
ghost use Rattle.kdc_core.specs.View.{Agrees, named, view};
ghost use Rattle.kdc_core.specs.declared.run.Event.TheVariants.{Reopen, Resume};
ghost use Rattle.kdc_replies.specs.GoodStanding.{AreInGoodStanding};
ghost use Rattle.krb_fields.specs.declared.moment.Moment as moments;
ghost use Rattle.replay.specs.declared.opening.Opening.TheVariants.{Restart};
ghost use Rattle.kdc_state.specs.Resumed.{resumed_state};
ghost use Rattle.kdc_state.specs.Sizes.{bytes_of, pairs_of};
ghost use Rattle.kdc_state.specs.State.{opened_state, cache_of, restarted, tidied_state};
ghost use Rattle.replay.specs.ReplayCache as caches;
ghost use Rattle.replay.specs.Resumed.{resumed_cache};
ghost use Rattle.replay.specs.Sizes.{limited};
ghost use Rattle.replay.specs.Tidied.{tidied};
ghost use Rattle.kdc_state.specs.declared.state.State as states;
ghost use Rattle.principals.specs.Change.{refusal, changed};

use crate::answering::reply_to;
use crate::audit::audit_if;
use crate::contents::read_request;
use crate::mark::keep_mark;
use crate::reply::{Reply, bytes_alone};
use crate::timed_request::TimedRequest;
use encrypted_data::ReadyKeys;
use kdc_replies::{Incoming, error_reply};
use kdc_state::{CacheSizes, Opening, State};
use krb_elements::Octets;
use krb_fields::{Code, Moment, Name};
use principal_rows::{Limits, Row};
use principals::{Change, ChangeFault, Database};
use replay::Resumption;
use std::alloc::{AllocError, Global};
use std::error::Error;
use std::fmt;
use std::marker::Model;

/// The database is of another realm, so it can't replace this one.
#[derive(Clone, Copy, Debug, PartialEq, Eq)]
pub struct OtherRealm;

impl fmt::Display for OtherRealm {
    fn fmt<W: fmt::Write>(&self, f: &mut fmt::Formatter<W>) -> fmt::Result {
        f.write_str("a database of another realm")
    }
}

impl Error for OtherRealm {}

/// A key distribution centre: its state after the requests and changes so far.
#[derive(Drop)]
pub struct Kdc {
    state: State,
    // A cache of recently used keys. It affects speed only, never a reply.
    ready: ReadyKeys,
}

impl Model for Kdc {
    ghost use Rattle.kdc_state.specs.declared.state.State.{State};
    ghost use Rattle.kdc_state.specs.contracts.state.State.{the_row};

    ghost Value = { State };

    ghost coded = { the_row.coded };

    ghost view = { λ kdc. kdc.state };
}

impl Kdc {
    /// Starts with a database. Fails only if memory runs out.
    pub fn open(
        alloc: Global,
        database: Database,
        limits: Limits,
        opening: Opening,
    ) -> Result<Kdc, AllocError>
        // Promise (opened, reopened): a KDC starts with its database, its limits, the floor of that start, and no
        // stored replay cache; after a restart it equals the state after a `Reopen` event, whatever came before.
        ensures opened { IfOk result (λ kdc. kdc ≡ opened_state database limits opening) }
        // After a restart it equals the state after a `Reopen` event, whatever came before.
        ensures reopened { (state : states.State) (at : moments.Moment) → opening ≡ Restart at
            → IfOk result (λ kdc. kdc ≡ after_event state (Reopen database limits at)) }
    {
        let ready = ReadyKeys::new(alloc)?;
        Ok(Kdc {
            state: State::open(alloc, database, limits, opening),
            ready,
        })
    }

    /// Starts with a database and with the authenticators that were seen before. Each client's authenticators in the
    /// resumption are refused if they come again, and so is every time below the floor. Nothing else is known about the
    /// time before.
    pub fn resume(
        alloc: Global,
        database: Database,
        limits: Limits,
        resumption: &Resumption,
    ) -> Result<Kdc, AllocError>
        // Promise (resumed, goes_on, caches): a KDC that resumes has each client's authenticators that were seen, and
        // no others; it refuses these with error 34 if they come again, and times below the floor.
        ensures resumed { IfOk result (λ kdc. kdc ≡ resumed_state database limits resumption.now) }
        // It equals the state after a `Resume` event, whatever came before.
        ensures goes_on { (state : states.State)
            → IfOk result (λ kdc. kdc ≡ after_event state (Resume database limits resumption.now)) }
        // Each client has the replay cache that the resumption gives it.
        ensures caches { (name : Components)
            → IfOk result (λ kdc. cache_of kdc name ≡ resumed_cache resumption.now name) }
    {
        let ready = ReadyKeys::new(alloc)?;
        let state = State::resume(alloc, database, limits, resumption)?;
        Ok(Kdc { state, ready })
    }

    /// Places the keys of its cache by a hash with this secret: 16 random bytes. So nobody outside knows which keys
    /// share a place. It affects speed only, never a reply.
    pub fn place_keys(&mut self, secret: &[u8; 16])
        ensures { self.new ≡ self.old }
    {
        self.ready.place_by(secret);
    }

    /// Answers any bytes: with the bytes of a reply or none.
    ///
    /// `at` is the moment of the request, `random` are 64 random bytes, and `room` is the greatest size of a reply with
    /// a ticket. Bytes that encode neither an AS-REQ nor a TGS-REQ (RFC 4120, section 5.4.1) get no reply, and neither
    /// do more than 2147483647 bytes. A call that runs out of memory changes nothing.
    pub fn handle(
        &mut self,
        alloc: Global,
        at: Moment,
        random: &[u8; 64],
        room: u32,
        request: &[u8],
    ) -> Result<Option<Vec<u8>>, AllocError>
        // The request is the one that the bytes encode, if they encode one and are no more than 2147483647.
        // Promise (request, reply): **exact reply**: the bytes of the reply, or none, are those that `answer` makes
        // from the view of the state. The request is the one that the bytes spell, if they spell one and are at most
        // 2147483647.
        ensures request { (r : Request)
            → (request_of request.now ≡ Some r) ↔ (SpellsRequest r request.now × (length request.now ≤ 2147483647)) }
        // The reply is the one that the rules prescribe.
        ensures reply { IfOk result (λ reply.
            option_map (λ octets. octets.items) reply
            ≡ (answer (view self.old request.now) at random.now room request.now).reply) }
        // A TGS-REQ gets what the first rule that holds in the one list says, or a ticket if none holds.
        // Promise: **one list of rules**: a TGS-REQ gets what the first rule that holds in `refusals` says: its error,
        // which is stored with the authenticator or not, depending on where the rule stands.
        // Promise: if that rule is the one for a repeated authenticator, a TGS-REQ gets what was stored for it; if no
        // rule holds, it gets a ticket. The audit record names the rule.
        // Promise: the list is in the order of [PROTOCOL](PROTOCOL.md)'s table, with conditions on what is known of the
        // request; the stages in which the code decides give the same decision (`ruled` of `RefusalsLaws`).
        ensures ruled { IsRuled (view self.old request.now) (asked at random.now room request.now)
            (answer (view self.old request.now) at random.now room request.now)
            (audit (view self.old request.now) at random.now room request.now)
            (issued (view self.old request.now) at random.now (request_of request.now)) (request_of request.now) }
        // The bytes of a reply encode the message that the rules prescribe, or are a stored reply.
        // Promise: the bytes of the reply spell the message that answers the request: an AS-REP, a TGS-REP, or a
        // KRB-ERROR (by itself this allows error 52 in any room); or they are those of the reply that is stored for it.
        ensures spelled { IfOk result (λ reply.
            IsReply (view self.old request.now) at random.now (request_of request.now)
            (option_map (λ octets. octets.items) reply)) }
        // If a ticket is issued, the bytes sent encode its reply, or an error in its place. The reply key decrypts the
        // reply to the session key, flags and times that the service's key finds in the ticket. The clause `reply` says
        // which of the two is sent: an error if the room is too small.
        // Promise: **one ticket, two keys**: if a ticket is issued, the bytes that are sent spell its reply, and the
        // reply key decrypts that to the session key, flags and times that the service's key finds in the ticket.
        // Promise: the bytes may spell an error in the ticket's place; the service's key is the one of its row that the
        // ticket names by type and version.
        // Promise: in the AS exchange the reply key is the one of the client's row that the reply names by type and
        // version; in the TGS exchange it is the subkey, or else the presented ticket's session key.
        ensures keys { IfOk result (λ reply.
            OneTicketTwoKeys (view self.old request.now) at random.now (request_of request.now)
            (option_map (λ octets. octets.items) reply)) }
        // The same for the issued ticket: what the client and the service decrypt is what was granted.
        // Promise: if a ticket is issued, the bytes that are sent are its reply: the reply key decrypts the reply's
        // part, and the service's key the ticket, to what was granted, with a session key of the right length.
        // Promise: the bytes may be an error in place of what was granted; `reply` says which (an error if the room is
        // too small).
        ensures issued { IfOk result (λ reply.
            IfSome (issued (view self.old request.now) at random.now (request_of request.now))
            (λ issue. IsTicketReply issue (option_map (λ octets. octets.items) reply))) }
        // A ticket is issued only if its client and its service are in good standing: both have rows, neither is
        // disabled or expired, and tickets may be issued for the service.
        // Promise: a ticket is issued only if its client and its service are in good standing at that second
        // (`AreInGoodStanding`): both have rows, neither is disabled or expired, and tickets may be issued for the
        // service.
        ensures standing { IfSome (issued (view self.old request.now) at random.now (request_of request.now)) (λ issue.
            AreInGoodStanding self.old.database.realm (named self.old request.now).service
            (view self.old request.now).client (view self.old request.now).service at.sec) }
        // The state afterwards is the one that the rules prescribe.
        // Promise (state, database, limits, caches): the state afterwards is `after_request`. **Frame**: no request
        // changes a row, the realm or the limits, nor the replay cache of any client but the named one.
        ensures state { OnOk result (self.new ≡ after_request self.old at random.now room request.now) }
        // A second state that agrees at what the request names gives the same answer.
        // Promise: **agreement**: for every second state that agrees with this one at what the request names, `answer`
        // gives the same, and so does `audit`.
        ensures agreement { (other : states.State) → Agrees self.old other request.now
            → answer (view other request.now) at random.now room request.now
            ≡ answer (view self.old request.now) at random.now room request.now }
        // The request names the same client and service in both, and they agree there afterwards.
        // Promise (same_names, afterwards): the request names the same client and service in both, and they agree there
        // afterwards.
        ensures same_names { (other : states.State) → Agrees self.old other request.now
            → named other request.now ≡ named self.old request.now }
        ensures afterwards { (other : states.State) → Agrees self.old other request.now
            → Agrees (after_request self.old at random.now room request.now)
            (after_request other at random.now room request.now) request.now }
        // No request changes a row, the realm or the limits, or any replay cache but the named client's.
        ensures database { self.new.database ≡ self.old.database }
        ensures limits { self.new.limits ≡ self.old.limits }
        ensures caches { (name : Components) → (named self.old request.now).client ≢ Some name
            → cache_of self.new name ≡ cache_of self.old name }
        // Without a ticket of a client nothing changes what that client's replay cache has seen. A ticket counts only
        // if a key of a service decrypts it.
        // Promise: **only a ticket's holder**: a request that shows no ticket of a client changes nothing that this
        // client's replay cache has seen, and reports no authenticator of this client as recorded.
        // Promise: a request shows a client's ticket if a key in the row of a service decrypts the ticket, the ticket's
        // session key decrypts the authenticator, and that has the checksum of the request's body.
        // Promise: the service is `krbtgt/REALM`, or the requested one if its row says that it is a service.
        ensures holder { (name : Components) → (ShowsTicket self.old request.now name → ⊥)
            → IsSeenAlike (cache_of self.old name) (cache_of self.new name) }
        // Promise: if memory runs out, nothing changes. A run then ends early, with the replies and the state after the
        // events that were completed.
        ensures err { OnErr result (self.new ≡ self.old) }
    {
        let timed = TimedRequest {
            at,
            octets: request,
        };
        bytes_alone(self.answer(alloc, random, room, &timed, false))
    }

    /// Answers as [`Kdc::handle`] does. The reply has an audit record of the request, if that is wanted, and the
    /// authenticator that is recorded for it. The names of an audit record are copied before anything changes. A call
    /// that runs out of memory changes nothing.
    pub fn answer<'q>(
        &mut self,
        alloc: Global,
        random: &'q [u8; 64],
        room: u32,
        request: &TimedRequest<'q>,
        wants_audit: bool,
    ) -> Result<Option<Reply>, AllocError>
        // Promise (answered.audit, answered.names): **the audit record** of a request is `audit`: the exchange, the
        // client and service that the request names (of a refused TGS-REQ too, if its ticket was decrypted), and what
        // became of it, by the decision behind the reply.
        // Promise (answered.holds): **the audit record is true**: if it names a rule, the bytes that are sent spell an
        // error with that rule's code; if it says error 52, they spell it.
        // Promise (answered.holds): if it says that a ticket was issued, the bytes spell its reply, which both keys
        // decrypt, with this client, service, types of keys, flags and times.
        // Promise (answered.holds): if it says that a reply was sent again, that reply was stored for the
        // authenticator; if there was no request, there is no reply.
        // Promise (answered.same_audit), as Kdc::handle: **agreement**: for every second ..
        // Promise (answered.shown), as Kdc::handle: **only a ticket's holder**: ..
        // Promise: **the answer that a hub sends is the same**: all of the above holds of its reply, its audit record,
        // and the authenticator that it records. `Kdc::handle` is this call, with the reply alone.
        // Promise (answered.newly_seen): an answer reports an authenticator as recorded exactly if the rules store it,
        // also for a refused request.
        ensures answered { IfOk result (λ given. IsAnswered self.old
            (asked request.now.at random.now room request.now.octets.now) wants_audit given self.new) }
        // Promise, as Kdc::handle: if memory runs out, ..
        ensures err { OnErr result (self.new ≡ self.old) }
    {
        let TimedRequest { at, octets } = *request;
        let Some((exchange, message)) = read_request(octets) else {
            return Ok(None);
        };
        let incoming = Incoming {
            at,
            random,
            room,
            octets,
            ready: &self.ready,
        };
        let answered = reply_to(&self.state, alloc, &incoming, exchange, &message)?;
        let audit = audit_if(alloc, wants_audit, &answered.audit)?;
        Ok(Some(Reply {
            message: Octets::new(answered.octets),
            audit,
            newly_seen: keep_mark(&mut self.state, alloc, answered.mark)?,
        }))
    }

    /// Changes the database. A refused change leaves everything unchanged.
    pub fn apply(&mut self, alloc: Global, change: &Change) -> Result<(), ChangeFault>
        // Promise (changed, refused, otherwise, err): a change changes the database as `Database::apply` does; one that
        // is refused changes nothing.
        ensures changed { OnOk result (self.new ≡ record self.old { database = changed self.old.database change.now }) }
        ensures refused { IfSome (refusal self.old.database change.now) (λ fault. result ≡ Err fault) }
        ensures otherwise { IfNone (refusal self.old.database change.now) (IsOkUnless result ChangeFault.Memory) }
        ensures err { OnErr result (self.new ≡ self.old) }
    {
        self.state.database.apply(alloc, change)
    }

    /// Replaces the database by another of the same realm; all else is unchanged. One of another realm changes nothing.
    /// It allocates nothing.
    pub fn replace(&mut self, database: Database) -> Result<(), OtherRealm>
        // Promise (realm, ok, err, state): another database of the same realm replaces this one, and one of another
        // realm is refused; nothing else changes, and it allocates nothing.
        ensures realm { IsOk result ↔ (database.realm ≡ self.old.database.realm) }
        ensures ok { OnOk result (self.new ≡ record self.old { database = database }) }
        ensures err { OnErr result (self.new ≡ self.old) }
        ensures state { self.new ≡ replaced self.old database }
    {
        if database.realm() != self.state.database.realm() {
            return Err(OtherRealm);
        }
        self.state.database = database;
        Ok(())
    }

    /// Drops each client's authenticators that are too old to be accepted again, and every replay cache that
    /// then equals that of a client never seen. It allocates nothing.
    pub fn tidy(&mut self, at: Moment)
        // Promise (state, caches, database, limits): a tidying drops what can't come again from each replay cache, and
        // each cache that then equals that of a client never seen; nothing else changes, and it allocates nothing.
        ensures state { self.new ≡ tidied_state self.old at }
        // Each client's cache is tidied; rows, realm and limits are unchanged.
        ensures caches { (name : Components) → cache_of self.new name ≡ tidied (cache_of self.old name) at.sec }
        ensures database { self.new.database ≡ self.old.database }
        ensures limits { self.new.limits ≡ self.old.limits }
    {
        self.state.tidy(at);
    }

    /// Frees the memory of dropped authenticators, for this many clients from a place on. Returns the next place, if
    /// there is one.
    pub fn free_dropped(&mut self, from: usize, clients: usize) -> Option<usize>
        // Promise, as Pairs::free_dropped of replay: tidying allocates nothing, and ..
        ensures { self.new ≡ self.old }
    {
        self.state.free_dropped(from, clients)
    }

    /// Returns how many principals there are.
    pub fn row_count(&self) -> usize
        ensures { result ≡ map.len self.now.database.rows }
    {
        self.state.database.len()
    }

    /// Returns how much the replay caches hold. It goes through all of them, and allocates nothing.
    pub fn cache_sizes(&self) -> CacheSizes
        ensures clients { result.clients ≡ map.len self.now.caches }
        ensures authenticators { result.authenticators ≡ limited (pairs_of (map.entries self.now.caches)) }
        ensures kept_bytes { result.kept_bytes ≡ limited (bytes_of (map.entries self.now.caches)) }
    {
        self.state.cache_sizes()
    }

    /// Drops all replay caches, as when a process ends and starts again: no authenticator that was accepted at a
    /// moment no later than `at` is accepted again. It allocates nothing.
    pub fn restart(&mut self, at: Moment)
        // Promise (state, caches, database, limits): a restart gives each name the replay cache of a restart at that
        // moment; nothing else changes, and it allocates nothing.
        ensures state { self.new ≡ restarted self.old at }
        // Each client has the cache of a restart; rows, realm and limits are unchanged.
        ensures caches { (name : Components) → cache_of self.new name ≡ caches.restarted_cache at.sec }
        ensures database { self.new.database ≡ self.old.database }
        ensures limits { self.new.limits ≡ self.old.limits }
    {
        self.state.restart(at);
    }

    /// Returns the row of a principal. Names are compared by their components alone.
    pub fn get(&self, name: &Name) -> Option<&Row>
        // Promise: a row is looked up by the name's components, and the realm is the database's.
        ensures { option_copied result ≡ map.get self.now.database.rows name.now.components }
    {
        self.state.database.get(name)
    }

    /// Returns the bytes of a KRB-ERROR for a request that was not read, such as one for a length that is too large
    /// (RFC 4120, section 7.2.2).
    pub fn error(&self, alloc: Global, at: Moment, code: Code) -> Result<Vec<u8>, AllocError>
        // Promise: an error that answers no request, such as one for a bad length, is written as the definition says.
        ensures { IfOk result (λ octets. octets.items ≡ error_octets self.now at code) }
    {
        error_reply(alloc, self.state.database.realm(), at, code, None, None)
    }

    /// Returns the realm's bytes, 1 to 255.
    pub fn realm(&self) -> &[u8]
        // Promise, as Kdc::get: a row is looked ..
        ensures { result.now ≡ self.now.database.realm }
    {
        self.state.database.realm()
    }
}
