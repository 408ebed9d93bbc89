//! The reply to a request, with its audit record and the change of the client's replay cache.
ghost use Rattle.std.specs.Prelude.{◌≡◌, ◌<◌, length, None, Some, IfOk, IfSome};
ghost use Rattle.krb_types.specs.KrbError.{krb_error};
ghost use Rattle.tgs_exchange.specs.Answer.{tgs_error};
ghost use Rattle.tgs_opening.specs.Tickets.{tgs_data};
ghost use Rattle.krb_elements.specs.Codec.{written};
ghost use Rattle.kdc_core.specs.After.{MayStay};
ghost use Rattle.kdc_core.specs.Contents.{IsShortName, message_contents};
ghost use Rattle.kdc_core.specs.Replied.{IsReplied};
ghost use Rattle.kdc_core.specs.View.{message_view};
ghost use Rattle.kdc_core.specs.declared.audit.AuditRecord.TheVariants.{Tgs};
ghost use Rattle.tgs_exchange.specs.declared.outcome.TgsOutcome.TheVariants.{Refused};

use crate::as_replies::as_reply;
use crate::audit::{AuditRecord, lent_name};
use crate::contents::{named_row, open_presented};
use crate::mark::Mark;
use crate::tgs_replies::tgs_reply;
use kdc_replies::Incoming;
use kdc_state::State;
use krb_fields::NameRef;
use krb_types::{Exchange, KdcReqRef};
use std::alloc::{AllocError, Global};
use tgs_exchange::{TgsOutcome, tgs_error};
use tgs_opening::OpeningRefusal;

/// The answer to a request, before the KDC's state changes.
#[derive(Drop)]
pub struct Answered<'q> {
    /// The bytes of the reply.
    pub octets: Vec<u8>,
    /// The change to make in the client's replay cache, if any.
    pub mark: Option<Mark>,
    /// How the request was handled. Names from the request are borrowed from its bytes.
    pub audit: AuditRecord<NameRef<'q>>,
}

/// Returns the reply to a request of this exchange.
pub fn reply_to<'q>(
    state: &State,
    alloc: Global,
    incoming: &Incoming<'_>,
    exchange: Exchange,
    message: &KdcReqRef<'q>,
) -> Result<Answered<'q>, AllocError>
    requires sname { IsShortName message.now }
    requires value { IfSome (tgs_data message.now) (λ value. length value < 2147483648) }
    ensures replied { IfOk result (λ reply.
        IsReplied state.now incoming.now
        (message_contents (message_view state.now exchange message.now) exchange message.now)
        (Some reply.octets.items) (Some reply.mark) reply.audit) }
    ensures stays { IfOk result (λ reply. IfSome reply.mark (MayStay state.now)) }
{
    match exchange {
        Exchange::As => as_reply(state, alloc, incoming, message),
        Exchange::Tgs => {
            // the ticket may be for this service, and the new one is
            let service = named_row(state, message.body.value.sname.as_ref());
            match open_presented(state, alloc, incoming.ready, message, service)? {
                Ok(presented) => tgs_reply(state, alloc, incoming, message, service, presented),
                Err(rejection) => refused(state, alloc, incoming, message, rejection),
            }
        }
    }
}

/// Returns the error for a TGS-REQ whose ticket or authenticator was not decrypted. Nothing is recorded.
fn refused<'q>(
    state: &State,
    alloc: Global,
    incoming: &Incoming<'_>,
    message: &KdcReqRef<'q>,
    rejection: OpeningRefusal,
) -> Result<Answered<'q>, AllocError>
    requires { IsShortName message.now }
    ensures written { IfOk result (λ reply.
        reply.octets.items ≡ written krb_error
        (tgs_error state.now.database.realm incoming.now.at message.now.body.value rejection.rule)) }
    ensures spelled { IfOk result (λ reply.
        krb_error.Spells (tgs_error state.now.database.realm incoming.now.at message.now.body.value
        rejection.rule) reply.octets.items) }
    ensures mark { IfOk result (λ reply. reply.mark ≡ None) }
    ensures audit { IfOk result (λ reply.
        reply.audit ≡ Tgs rejection.client message.now.body.value.sname (Refused rejection.rule)) }
{
    let realm = state.database.realm();
    let body = &message.body.value;
    let OpeningRefusal { rule, client } = rejection;
    Ok(Answered {
        octets: tgs_error(alloc, realm, incoming.at, body, rule)?,
        mark: None,
        audit: AuditRecord::Tgs {
            client,
            service: lent_name(body.sname.as_ref()),
            outcome: TgsOutcome::Refused(rule),
        },
    })
}
