//! Tests of a ticket's whole path: a KDC (`kdc_core`) answers the requests of a client (`client_core`), and a service
//! (`ap_accept`) accepts the ticket.

mod going;
mod realm;
mod ways;
