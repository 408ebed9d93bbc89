//! The acceptor of AP-REQ messages for services in C, as a static library. Its header is `docs/ap_accept.h`, whose
//! functions `docs/ap_accept.c` has: they check what no contract can, and call those of `exports`.
//!
//! ```
//! struct ap_acceptor acceptor = AP_ACCEPTOR_INIT;
//! int32_t status = ap_open(AP_VERSION, &acceptor, keytab, keytab_length, 1024, false, sec, usec);
//!
//! status = ap_accept(&acceptor, sec, usec, random, ap_req, ap_req_length, &accepted, sizeof accepted);
//! if (status == AP_DONE)
//!         status = ap_octets(&acceptor, AP_CLIENT_NAME, name, sizeof name, &length);
//! status = ap_replace_keytab(&acceptor, new_keytab, new_keytab_length);
//! status = ap_close(&acceptor);
//! ```
//!
//! Each function of `exports` is a thin layer over a function in `calls`, which works on a
//! [`Holder`](holder::Holder).
//!
//! It has no rules of its own: `ap_accept` accepts and refuses. It sends nothing, and reads no file and no clock: the
//! service does (docs/SERVICES.md, 'In C').
#![tactic(auto)]

mod buffers;
mod calls;
mod elements;
mod exports;
mod held;
mod holder;
mod last;
mod numbers;
mod part;
mod parts;
mod protection;
mod raw_key;
mod service;
mod status;
mod texts;
