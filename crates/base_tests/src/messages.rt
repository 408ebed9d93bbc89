//! Tests of the crates of messages, `krb_der` to `krb_types`. The values come from elsewhere, such as the standards or
//! another encoder.

mod der;
mod elements;
mod fields;
mod times;
mod vectors;
mod whole_messages;
