//! Tests of the cryptographic crates, `aes_cts` to `encrypted_data`. The values are the standards' own vectors, and
//! those of other implementations: Python's hashlib and its package cryptography.

mod aes;
mod derivations;
pub mod fixtures;
mod parts;
mod sealing;
mod types;
mod vectors;
