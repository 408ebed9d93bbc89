//! The hub: one key distribution centre for many peers and connections (RFC 4120, section 7.2).
//!
//! A `Hub` takes events one by one and returns the actions for each. `serve` takes events from a `Wire` and does their
//! actions. `serve_life` is a server's whole life: it serves rounds, and between them checks whether the rows have
//! changed.
//!
//! ```
//! let kdc = Kdc::open(alloc, database, limits, Opening::Restart(at))?; // of `kdc_core`
//! let mut hub = Hub::new(alloc, kdc, rng, false);
//! let actions = hub.step(alloc, at, Event::Datagram { peer, request })?;
//! let totals = serve_life(alloc, &mut wire, &mut source, &mut hub, rounds, &mut ());
//! ```
//!
//! It does not decide a reply: `kdc_core` does. It opens no socket and no file: a `Wire` does, such as that of
//! `kdc_sockets`, and a `RowSource`, such as that of `kdc_files`. It reads no clock: each event has its moment. It
//! writes no journal and no log: the wire of `kdc_server` does.
#![tactic(auto)]

mod connections;
mod event;
mod hub;
mod laws;
mod life;
mod memory;
mod observer;
mod peers;
mod record;
mod rows;
mod seeded_kdc;
mod server;
mod stream;
mod timer;
mod totals;
mod wires;

pub use event::{Action, CloseReason, Event, HubFault, Peer};
pub use hub::Hub;
pub use kdc_core::{AuditRecord, CacheSizes, OtherRealm, Reply};
pub use laws::{any_cutting, one_run};
pub use life::serve_life;
pub use memory::rows::MemoryRows;
pub use memory::wire::MemoryWire;
pub use observer::{Observer, ServerView};
pub use peers::Peers;
pub use record::Record;
pub use rows::{Look, RowSource, RowsState};
pub use server::{Served, serve};
pub use timer::due_at;
pub use totals::Totals;
pub use wires::{Wire, WireCall, WireFault};
