//! The numbers of a server in tests.

pub mod metrics;
pub mod tally;
