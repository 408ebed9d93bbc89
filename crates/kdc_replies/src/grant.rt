//! What the KDC grants.
ghost use Rattle.std.specs.Prelude.{◌≡◌, ◌≤◌, length, IfOk};
ghost use Rattle.krb_types.specs.EncKdcRepPart.{enc_kdc_rep_part};
ghost use Rattle.krb_types.specs.EncTicketPart.{enc_ticket_part};
ghost use Rattle.encrypted_data.specs.Keys.{key_part};
ghost use Rattle.kdc_replies.specs.Grant.{IsShort, no_realms, ticket_part, reply_part};

use enctypes::Key;
use krb_der::KTime;
use krb_elements::{KerberosStringRef, Lent, OctetsRef, Seq, UInt32};
use krb_fields::numbers::{DOMAIN_X500_COMPRESS, LR_NONE};
use krb_fields::{Flags, Name, Typed, TypedRef};
use krb_types::{EncKdcRepPart, EncTicketPart, LastReq};
use std::alloc::{AllocError, Global};
use ticket_times::Times;

/// A session of a client with a service, for which a ticket is issued.
#[derive(Drop)]
pub struct Grant<'a> {
    /// The realm of both.
    pub realm: KerberosStringRef<'a>,
    /// The client's name: in the AS exchange the request's cname, in the TGS exchange the presented ticket's.
    pub client: Lent<'a, Name>,
    /// The service's name: the request's sname.
    pub service: Lent<'a, Name>,
    /// The new session key, which the ticket and the reply have.
    pub session_key: Key,
    /// The ticket's flags.
    pub flags: Flags,
    /// When the client first authenticated.
    pub authtime: KTime,
    /// The ticket's start, end and renew-till.
    pub times: Times,
    /// The authorization data that the new ticket copies from the presented one.
    pub authorization_data: Option<Lent<'a, Seq<Typed>>>,
}

/// The realm of a grant, borrowed by a message.
pub type LentRealm<'g, 'a> = Lent<'g, KerberosStringRef<'a>>;

/// A name of a grant, borrowed by a message.
pub type LentName<'g, 'a> = Lent<'g, Lent<'a, Name>>;

/// The authorization data of a grant, borrowed by a ticket.
pub type LentData<'g, 'a> = Lent<'g, Lent<'a, Seq<Typed>>>;

/// The encrypted part of a ticket, which borrows from the grant.
pub type LentTicketPart<'g, 'a> = EncTicketPart<
    TypedRef<'g>,
    LentRealm<'g, 'a>,
    LentName<'g, 'a>,
    LentData<'g, 'a>,
>;

/// The encrypted part of a reply, which borrows from the grant.
pub type LentReplyPart<'g, 'a> = EncKdcRepPart<
    TypedRef<'g>,
    Seq<LastReq>,
    LentRealm<'g, 'a>,
    LentName<'g, 'a>,
>;

impl<'a> Grant<'a> {
    /// Returns the part of the ticket that the service's key encrypts.
    #[tactic(auto, using(crate::specs::LengthLaws::ticket_part_short))]
    pub(crate) fn ticket_part<'g>(&'g self) -> LentTicketPart<'g, 'a>
        requires { IsShort self.now }
        ensures value { result ≡ ticket_part self.now }
        ensures short { length (enc_ticket_part.text result) ≤ 2147490000 }
    {
        EncTicketPart {
            flags: self.flags,
            key: lent_key(&self.session_key),
            crealm: Lent::new(&self.realm),
            cname: Lent::new(&self.client),
            transited: no_realms(),
            authtime: self.authtime,
            starttime: Some(self.times.start),
            endtime: self.times.end,
            renew_till: self.times.renew_till,
            caddr: None,
            authorization_data: lent_data(&self.authorization_data),
        }
    }

    /// Returns the part of the reply that the reply key encrypts.
    #[tactic(auto, using(crate::specs::LengthLaws::reply_text_short))]
    pub(crate) fn reply_part<'g>(
        &'g self,
        alloc: Global,
        nonce: UInt32,
        now: KTime,
    ) -> Result<LentReplyPart<'g, 'a>, AllocError>
        requires { IsShort self.now }
        ensures value { IfOk result (λ part. part ≡ reply_part self.now nonce now) }
        ensures short { IfOk result (λ part. length (enc_kdc_rep_part.text part) ≤ 6000) }
    {
        let Times {
            start,
            end,
            renew_till,
        } = self.times;
        let mut last_req = Seq::new(alloc);
        last_req.push(LastReq {
            lr_type: LR_NONE,
            lr_value: now,
        })?;
        Ok(EncKdcRepPart {
            key: lent_key(&self.session_key),
            last_req,
            nonce,
            key_expiration: None,
            flags: self.flags,
            authtime: self.authtime,
            starttime: Some(start),
            endtime: end,
            renew_till,
            srealm: Lent::new(&self.realm),
            sname: Lent::new(&self.service),
            caddr: None,
        })
    }
}

/// Borrows authorization data, if there are any.
fn lent_data<'g, 'a>(entries: &'g Option<Lent<'a, Seq<Typed>>>) -> Option<LentData<'g, 'a>>
    ensures { result ≡ entries.now }
{
    match entries {
        Some(entries) => Some(Lent::new(entries)),
        None => None,
    }
}

/// Lends a key to a message, as `key_part` of `encrypted_data` copies it.
fn lent_key(key: &Key) -> TypedRef<'_>
    ensures value { result ≡ key_part key.now }
    ensures short { length key.now.bytes ≤ 32 }
{
    TypedRef {
        number: key.etype().number(),
        octets: OctetsRef::new(key.bytes()),
    }
}

/// Returns the realms between the client's and the service's: none (RFC 4120, section 3.3.3.2).
fn no_realms<'g>() -> TypedRef<'g>
    ensures { result ≡ no_realms }
{
    TypedRef {
        number: DOMAIN_X500_COMPRESS,
        octets: OctetsRef::new(&[]),
    }
}
