//! `kdcd serve` as a library: how a server starts, the host that it runs on, and its wire.
//!
//! The wire writes the journal and the log, and watches the clock and the memory.
//!
//! ```
//! let options = ServeOptions { db: "database", udp, tcp, rounds: None, .. };
//! let ran = run_server(alloc, &mut host, &options)?;
//! println!(rt; "served {} {} {}", ran.totals.events, ran.totals.faults, ran.totals.refused)?;
//! ```
//!
//! It makes no call of the system: a [`Host`] does. That of `kdcd` has the system's files, sockets and clock; a
//! [`MemoryHost`] is for tests. `kdcd` reads the options from a command line, prints the result, runs scripts and seals
//! journals. `kdc_hub` and `kdc_core` answer the requests.
#![tactic(auto)]

mod host;
mod key_places;
mod laws;
mod life_wire;
mod memory_host;
mod memory_sockets;
mod options;
mod quiet;
mod reporter;
mod resuming;
mod server;
mod server_wire;
mod sockets;
mod starting;
mod withheld;

pub use crate::host::{Host, StartNews};
pub use crate::laws::{every_journaled_restart, every_life, every_restart, every_run};
pub use crate::memory_host::{AlreadyHeld, Given, HostCall, MemoryHost};
pub use crate::memory_sockets::MemorySockets;
pub use crate::options::ServeOptions;
pub use crate::reporter::Reporter;
pub use crate::server::{Ran, Server, run_server};
pub use crate::server_wire::ServerWire;
pub use crate::sockets::ServerSockets;
pub use crate::starting::{StartError, SystemPart};
pub use crate::withheld::Withheld;
