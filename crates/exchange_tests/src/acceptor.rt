//! Tests of the acceptor, `ap_accept`.

mod acceptances;
mod made;
mod made_by_mit;
mod requests;
