//! What a server is asked to do.
use principal_rows::Limits;
use request_log::LogFormat;
use std::net::SocketAddr;

/// The options of a server.
#[derive(Debug, Drop)]
pub struct ServeOptions<'a> {
    /// The path of the database's file.
    pub db: &'a str,
    /// The addresses that accept datagrams.
    pub udp: Vec<SocketAddr>,
    /// The addresses that accept connections.
    pub tcp: Vec<SocketAddr>,
    /// The number of rounds, or `None` to serve until a signal ends the process.
    pub rounds: Option<u32>,
    /// The path of the seed's file, or `None` to draw a seed from the system.
    pub seed: Option<&'a str>,
    /// The limits on what the KDC records and grants.
    pub limits: Limits,
    /// Whether no request was ever answered with this database.
    pub is_first: bool,
    /// Whether TGS-REQs get no reply while all of them are refused.
    pub is_quiet: bool,
    /// The path of the journal's file, if there is one.
    pub journal: Option<&'a str>,
    /// How many bytes a file of the journal has when it takes its turn.
    pub journal_size: u64,
    /// Whether a journal beside the database is removed.
    pub removes_journal: bool,
    /// The path of the file of the server's numbers, if there is to be one.
    pub metrics: Option<&'a str>,
    /// Whether the database's file is read only once.
    pub is_fixed: bool,
    /// The format of the log on standard error, if there is one.
    pub log: Option<LogFormat>,
}

impl<'a> ServeOptions<'a> {
    /// Returns the path that an error about the journal names: its own, or that of the database beside it.
    pub(crate) fn journal_place(&self) -> &'a str {
        self.journal.unwrap_or(self.db)
    }
}
