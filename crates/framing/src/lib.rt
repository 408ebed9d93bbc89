//! Messages on a stream, as over TCP (RFC 4120, section 7.2.2): a length of four bytes, most significant first,
//! followed by the message.
//!
//! A `Splitter` takes a stream in pieces of any size and returns its messages. `frame` and `prefix` write them.
//!
//! ```
//! let mut splitter = Splitter::new(alloc, 65_535);
//! splitter.feed(piece)?;
//! while let Some(message) = splitter.next(alloc)? {
//!     .. // the caller answers the message
//! }
//! let octets = frame(alloc, &reply)?;
//! ```
//!
//! It does not read or write the stream: the caller feeds the pieces and sends the messages. A server's side is in
//! `kdc_hub` and `kdc_sockets`, a client's in `client_sockets`.
#![tactic(auto)]

mod fault;
mod front;
mod laws;
mod splitter;
mod writing;

pub use fault::FrameFault;
pub use laws::{any_pieces, cuts_what_was_framed, one_cutting, two_pieces};
pub use splitter::Splitter;
pub use writing::{frame, prefix};
