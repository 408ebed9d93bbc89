//! What the bytes of a request encode, and what a TGS-REQ presents.
ghost use Rattle.std.specs.Prelude.{◌≡◌, ◌<◌, length, IfOk, IfSome, option_copied, option_map};
ghost use Rattle.krb_elements.specs.Codec.{list_of};
ghost use Rattle.krb_fields.specs.Typed.{typed};
ghost use Rattle.tgs_opening.specs.Opening.{presented};
ghost use Rattle.tgs_opening.specs.Tickets.{tgs_data};
ghost use Rattle.krb_der.specs.Spelling.{IsBytes};
ghost use Rattle.kdc_core.specs.Contents.{IsShortName};
ghost use Rattle.kdc_core.specs.Request.{request_of, requested};
ghost use Rattle.kdc_core.specs.View.{components_of, row_of, ticket_view};

use encrypted_data::ReadyKeys;
use kdc_state::State;
use krb_fields::NameRef;
use krb_types::{Exchange, KdcReqRef, read_kdc_req};
use principal_rows::Row;
use rule_lists::Attempt;
use std::alloc::Global;
use tgs_opening::{OpeningRefusal, Presented, TicketView, tgs_open};

/// The greatest size of a request, in bytes: lengths of TCP frames end there (RFC 4120, section 7.2.2).
pub const GREATEST_REQUEST: usize = 2_147_483_647;

/// Reads the bytes of an AS-REQ or a TGS-REQ in place. Returns `None` for other bytes, and for too many.
pub fn read_request(request: &[u8]) -> Option<(Exchange, KdcReqRef<'_>)>
    ensures value { option_map requested result ≡ request_of request.now }
    ensures sname { IfSome result (λ found. IsShortName found.1) }
    ensures data { IfSome result (λ found. IfSome (tgs_data found.1) (λ value. length value < 2147483648)) }
    // a caller's proof doesn't know this of a slice in a struct
    ensures bytes { IsBytes request.now }
{
    if request.len() > GREATEST_REQUEST {
        return None;
    }
    let Ok(found) = read_kdc_req(request) else {
        return None;
    };
    Some(found)
}

/// Decrypts what a TGS-REQ presents, given the row of the service that it names. The cached keys make this faster.
pub fn open_presented(
    state: &State,
    alloc: Global,
    ready: &ReadyKeys,
    message: &KdcReqRef<'_>,
    service: Option<&Row>,
) -> Attempt<Presented, OpeningRefusal>
    requires data { IfSome (tgs_data message.now) (λ value. length value < 2147483648) }
    requires service { option_copied service ≡ row_of state.now (components_of message.now.body.value.sname) }
    ensures value { IfOk result (λ found. found ≡ presented (ticket_view state.now message.now) message.now) }
    ensures authorization { IfOk result (λ found. IfOk found (λ presented.
        IfSome presented.ticket.authorization_data (λ list. length ((list_of typed).text list) < 2147483648))) }
{
    let view = TicketView {
        realm: state.database.realm(),
        tgs: state.database.tgs(),
        service,
        ready,
    };
    tgs_open(alloc, &view, message)
}

/// Returns the row of the name in a request, if the request has a name.
pub fn named_row<'s>(state: &'s State, name: Option<&NameRef<'_>>) -> Option<&'s Row>
    ensures { option_copied result ≡ row_of state.now (components_of (option_copied name.entry)) }
{
    state.database.get_ref(name?)
}
