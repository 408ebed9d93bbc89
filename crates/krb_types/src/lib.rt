//! The messages of Kerberos V5 (RFC 4120, section 5), each with its relation to its encoding: a module for each.
//!
//! | messages | |
//! |---|---|
//! | [`KdcReq`], [`KdcRep`], [`KrbError`] | between a client and a KDC |
//! | [`ApReq`], [`ApRep`] | between a client and a service |
//! | [`Ticket`] | inside them |
//! | [`EncTicketPart`], [`EncKdcRepPart`], [`Authenticator`], [`EncApRepPart`] | in encrypted parts |
//! | [`PaEncTsEnc`], [`EtypeInfo2`], [`LastReq`] | in preauthentication data and in replies |
//!
//! ```
//! let request = read_kdc_req(octets)?; // borrows from the octets, and allocates nothing
//! let octets = encode_krb_error(alloc, &error)?;
//! ```
//!
//! Nothing here encrypts or decrypts: encrypted parts are read and written as they are. `encrypted_data` encrypts and
//! decrypts them.
#![tactic(auto)]

mod ap_rep;
mod ap_req;
mod authenticator;
mod enc_ap_rep_part;
mod enc_kdc_rep_part;
mod enc_ticket_part;
mod etype_info2_entry;
mod kdc_rep;
mod kdc_req;
mod kdc_req_owned;
mod krb_error;
mod last_req;
mod pa_enc_ts_enc;
mod req_body;
mod requests;
mod ticket;
mod ticket_ref;
mod under;

pub use ap_rep::{ApRep, ApRepRef, decode_ap_rep, encode_ap_rep};
pub use ap_req::{ApReq, ApReqRef, decode_ap_req, encode_ap_req, read_ap_req};
pub use authenticator::{
    Authenticator, AuthenticatorRef, decode_authenticator, encode_authenticator,
};
pub use enc_ap_rep_part::{
    EncApRepPart, EncApRepPartRef, decode_enc_ap_rep_part, encode_enc_ap_rep_part,
};
pub use enc_kdc_rep_part::{EncKdcRepPart, EncKdcRepPartRef};
pub use enc_ticket_part::{
    EncTicketPart, EncTicketPartRef, decode_enc_ticket_part, encode_enc_ticket_part,
};
pub use etype_info2_entry::{EtypeInfo2, EtypeInfo2Entry, EtypeInfo2EntryRef};
pub use kdc_rep::{AsRep, KdcRep, KdcRepRef, TgsRep, read_kdc_rep};
pub use kdc_req::{Exchange, KdcReq, KdcReqRef, encode_kdc_req, read_kdc_req};
pub use krb_error::{KrbError, KrbErrorRef, decode_krb_error, encode_krb_error};
pub use last_req::LastReq;
pub use pa_enc_ts_enc::{PaEncTsEnc, decode_pa_enc_ts_enc, encode_pa_enc_ts_enc};
pub use req_body::{ReqBody, ReqBodyRef};
pub use requests::{AsReq, TgsReq};
pub use ticket::{Ticket, TicketRef};
pub use under::{EncAsRepPart, EncTgsRepPart, Under};
