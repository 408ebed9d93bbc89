//! The client's side of a ticket's path.
use crate::presenting::Sealing;
use crate::reading::Reader;
use client_core::{Asked, ServiceAsked};

/// The client's side of a ticket's path.
#[derive(Drop)]
pub struct Client {
    /// The request that the reply must answer.
    pub asked: Asked,
    /// The key with which it reads the KDC's reply, and when.
    pub reader: Reader,
    /// What the client sends to the service and asks of it.
    pub wanted: ServiceAsked,
    /// When it presents the ticket, and the confounder of its authenticator.
    pub presenting: Sealing,
}
