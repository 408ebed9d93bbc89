//! A client over the system's sockets, clock and files.
//!
//! ```
//! let mut client = Client::open(rt, "alice@EXAMPLE.COM")?;
//! let keytab = client.read_keytab("www.keytab")?;
//! let password = client.ask_password()?;
//! client.log_in(&password)?;
//! client.verify(&keytab)?;
//! let ticket = client.ticket("host/www.example.com")?;
//! let presented = client.present(&ticket)?;
//! // send presented.ap_req to the service, and then judge its reply:
//! presented.judge(alloc, &reply)?;
//! ```
//!
//! [`Client`] is a whole client: it is opened by its name, logs in, gets tickets and presents them. Below it,
//! [`SocketNetwork`] sends a client's messages and looks up hosts. `crates/example_login` is a whole program with a
//! [`Client`].
//!
//! It does not decide which KDC is asked or which reply is taken (`client_login` does). It does not write a credential
//! cache (`client_files` does), and [`Client`] never takes a KDC's clock.
#![tactic(auto)]

mod client;
mod deadline;
mod presented;
mod socket_network;
mod stream;

pub use client::{Client, SystemClient};
pub use presented::Presented;
pub use socket_network::{LONGEST_REPLY, SocketNetwork};
