//! Tests of the exchanges: of a KDC and the crates around it, and of everything that receives tickets.
//!
//! | modules | what they test |
//! |---|---|
//! | `kdcs`, `streams` | runs of events of a KDC (`kdc_runs`), requests alone (`handled`); streams cut into messages |
//! | `answers` | the calls that answer a request once it is read: `as_answer`, `tgs_open`, `tgs_answer` |
//! | `hubs`, `hub_steps` | the hub; its steps that run out of memory |
//! | `runs` | a server over a host in memory |
//! | `lines`, `outcome_lines` | the lines of its log; those for each rule and each outcome |
//! | `client`, `acceptor`, `paths` | a client; a service; the whole path between a KDC and both |
//! | `clients`, `logins`, `conf_realms` | what no command line of `kclient` shows of a client and of a `krb5.conf` |
//!
//! In this folder, `rt test -- WORD` proves the crate and its tests, and runs the tests that have WORD in their names.
//! To run one unproved, build them at the top with `python3 dev/quick_build.py exchange_tests`, and run
//! `out/unproved/exchange_tests_tests NAME`; `--list` prints the names.
//!
//! They are a crate of their own because a crate with tests is proved twice. They are one crate because each crate
//! takes a minute before its first test.
//!
//! The libraries under the KDC are tested in `base_tests`. Scripts, sockets and what a server reads and says otherwise
//! are tried over the programs (`tests`). `tests/crates/allocations.py` runs these tests once more, and refuses each
//! allocation of the calls that they mark.
#![tactic(auto)]

#[cfg(test)]
mod acceptor;
#[cfg(test)]
mod answers;
#[cfg(test)]
mod asking;
#[cfg(test)]
mod client;
#[cfg(test)]
mod clients;
#[cfg(test)]
mod conf_realms;
#[cfg(test)]
mod contents;
#[cfg(test)]
mod fixtures;
#[cfg(test)]
mod handled;
#[cfg(test)]
mod hub_steps;
#[cfg(test)]
mod hubs;
#[cfg(test)]
mod kdc_runs;
#[cfg(test)]
mod kdcs;
#[cfg(test)]
mod lines;
#[cfg(test)]
mod logins;
#[cfg(test)]
mod messages;
#[cfg(test)]
mod network;
#[cfg(test)]
mod outcome_lines;
#[cfg(test)]
mod outcomes;
#[cfg(test)]
mod paths;
#[cfg(test)]
mod runs;
#[cfg(test)]
mod services;
#[cfg(test)]
mod streams;
