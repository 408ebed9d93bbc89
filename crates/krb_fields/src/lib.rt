//! The values inside Kerberos messages: names, times, flags, error codes, and the types that several messages share
//! (RFC 4120, sections 5.2 and 7.5).
//!
//! ```
//! let name = Name::from_text(alloc, "host/www.example.com")?;
//! let text = name.to_text(alloc)?;
//! let at = Moment::new(sec, usec); // an Option: both numbers have a range
//! let flags = Flags::from_bits(0).with(TicketFlag::Initial);
//! let is_renewable = flags.has(TicketFlag::Renewable);
//! let number = Code::KrbApErrSkew.number(); // 37
//! ```
//!
//! A type whose name ends in `Ref` borrows from the bytes of a message. [`numbers`] has the numbers that RFC 4120 and
//! IANA assign.
//!
//! It has no whole message: `krb_types` has them. It reads no clock: the caller supplies each moment.
#![tactic(auto)]

mod ap_option;
mod code;
mod encrypted_data;
mod flags;
mod flags_element;
mod granting;
mod kdc_option;
mod laws;
mod moment;
mod name;
mod name_element;
mod name_limits;
mod name_ref;
mod name_text;
pub mod numbers;
mod pa_data;
mod salt;
mod second;
mod ticket_flag;
mod typed;

pub use ap_option::ApOption;
pub use code::Code;
pub use encrypted_data::{EncryptedData, EncryptedDataRef};
pub use flags::{Flags, NamedBit};
pub use granting::tgs_name;
pub use kdc_option::KdcOption;
pub use laws::every_number;
pub use moment::{Moment, SKEW};
pub use name::{Name, NameRef};
pub use name_limits::{MAX_COMPONENTS, MAX_OCTETS, is_component};
pub use name_text::{NameFault, component_from_text, component_to_text};
pub use pa_data::{MethodData, PaData, PaDataRef};
pub use second::Second;
pub use ticket_flag::TicketFlag;
pub use typed::{HostAddress, HostAddressRef, Typed, TypedRef};
