//! Requests in the tags of their exchanges.
use crate::kdc_req::KdcReq;
use crate::under::Under;
use krb_fields::numbers::{AS_REQ, TGS_REQ};

/// The request of the AS exchange.
pub type AsReq = Under<AS_REQ, KdcReq>;

/// The request of the TGS exchange.
pub type TgsReq = Under<TGS_REQ, KdcReq>;
