//! Tests of the libraries under the KDC: messages, cryptography, the data of a realm, and files.
//!
//! In this folder, `rt test -- WORD` proves the crate and its tests, and runs the tests that have WORD in their names.
//! To run one unproved, build them at the top with `python3 dev/quick_build.py base_tests`, and run
//! `out/unproved/base_tests_tests NAME`; `--list` prints the names.
//!
//! They are a crate of their own because a crate with tests is proved twice. They are one crate because each crate
//! takes a minute before its first test.
//!
//! The KDC, its server, clients and services are tested in `exchange_tests`. What a program shows is tried with the
//! built program (`tests`). `tests/crates/allocations.py` runs these tests once more, and refuses each allocation of
//! the calls that they mark.
#![tactic(auto)]

#[cfg(test)]
mod cryptography;
#[cfg(test)]
mod expect;
#[cfg(test)]
mod files;
#[cfg(test)]
mod messages;
#[cfg(test)]
mod realm;
