//! Tests of `client_core`. The expected values come from the standards, and from models of the messages and of the
//! cryptography in Python.

mod messages;
mod replies;
