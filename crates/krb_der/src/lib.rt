//! DER (X.690) as Kerberos uses it (RFC 4120, section 5.1): a reader over borrowed bytes, and a writer.
//!
//! ```
//! let mut fields = Reader::new(Reader::new(octets).read_tlv(0x30)?); // the contents of a SEQUENCE
//! let number = fields.read_int()?;
//! let time = fields.read_time()?;
//!
//! let mut out = Writer::new(alloc);
//! out.put_int(number)?;
//! out.put_time(time)?;
//! out.wrap(0, 0x30)?;
//! let octets = out.finish();
//! ```
//!
//! A value is its tag, its length and its contents. Tags are single bytes. Lengths are definite and in their shortest
//! form, with at most four bytes after the first.
//!
//! It does not know which fields a message has: `krb_elements` and the crates above it do.
#![tactic(auto)]

mod bits;
mod civil;
mod digits;
mod fault;
mod int;
mod items;
mod length;
mod reader;
mod time;
mod tlv;
mod writer;

pub use fault::DerFault;
pub use items::Items;
pub use reader::Reader;
pub use time::KTime;
pub use writer::Writer;
