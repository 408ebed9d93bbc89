//! The log of a server in tests.

pub mod log;
