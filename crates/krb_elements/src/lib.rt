//! The pieces from which reading and writing of every Kerberos message are built, and the simple types of its fields.
//!
//! A message is one list of fields. Reading it, the relation to its encoding, and the text that is written are each
//! built from the same pieces: a field, an optional field, a list, the end.
//!
//! ```
//! impl<'a> DecodeFields<'a> for PaEncTsEnc { // a type of `krb_types`
//!     fn look_fields(fields: &mut Reader<'a>) -> Result<PaEncTsEnc, DerFault> {
//!         let patimestamp = take_field(fields, 0)?;
//!         let pausec = take_optional(fields, 1)?;
//!         Ok(PaEncTsEnc { patimestamp, pausec })
//!     }
//! }
//! let part: PaEncTsEnc = decode(alloc, octets)?;
//! let octets = encode(alloc, &part)?;
//! ```
//!
//! [`decode`] returns a message that owns its parts. [`read`] returns one that borrows them, and allocates nothing. No
//! message is defined here: `krb_types` defines them.
#![tactic(auto)]

mod byte_string;
mod codec;
mod fault;
mod lent;
mod lists;
mod messages;
mod microseconds;
mod owned_lists;
mod reading;
mod seq;
mod simple;
mod string;
mod taking;
mod uint32;
mod writing;

pub use byte_string::{
    ByteString, ByteStringRef, KerberosString, KerberosStringRef, Octets, OctetsRef,
};
pub use codec::{Application, Coded, Fielded, MakeOwned, Round, Untagged, application_tag};
pub use fault::Fault;
pub use lent::Lent;
pub use lists::SeqRef;
pub use messages::{decode, encode};
pub use microseconds::Microseconds;
pub use reading::{
    Decode, DecodeFields, ReadOwned, Sent, expect_end, look_either, read, read_owned, take_field,
    take_fixed, take_optional, take_sent,
};
pub use seq::Seq;
pub use taking::{
    TakeFields, TakeOwned, take_owned, take_owned_optional, take_sequence, take_whole,
};
pub use uint32::UInt32;
pub use writing::{Encode, EncodeFields, write, write_field, write_inside, write_optional};
