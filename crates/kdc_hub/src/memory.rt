//! What stands for the network and for a database in tests.

pub mod rows;
pub mod wire;
