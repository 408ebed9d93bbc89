//! The lines that a server writes once it listens.
ghost use Rattle.std.specs.Prelude.{◌≡◌};
ghost use Rattle.server_notices.specs.Started.{found_by, shown_ahead};

use crate::clock_watch::Refused;
use file_store::VERSION;
use journal::{ResumeRefusal, Start};
use krb_fields::{Moment, SKEW, Second};
use principal_rows::Limits;
use std::fmt;
use std::net::SocketAddr;
use text_fields::UtcDate;

/// By how many seconds the floor of a start is above its clock.
const RESTART_FLOOR: i64 = SKEW + 1;

/// The journal at a path, and what the start made of it.
#[derive(Clone, Copy)]
pub struct JournalNews<'a> {
    /// The path, as the options name it.
    pub path: &'a str,
    /// Whether the start resumed, and with how many authenticators; or why not.
    pub found: JournalFound,
}

/// What a start made of the journal.
#[derive(Clone, Copy)]
pub enum JournalFound {
    /// It resumed with this many authenticators.
    Resumed(usize),
    /// It resumed with this many authenticators, though its clock is behind the journal: it refuses all times up to the
    /// latest of them.
    Early(usize),
    /// It could not resume. Its files show this second, if that is later than the clock in such a way that the start
    /// refuses for longer than by its clock alone.
    Doubted(ResumeRefusal, Option<i64>),
}

impl JournalFound {
    /// Returns what a start at this moment made of its journal.
    pub fn of(start: &Start, at: Moment) -> JournalFound
        ensures { result ≡ found_by start.now at.sec }
    {
        match start {
            Start::Resumes { resumption, check } => {
                let count = resumption.seen.len();
                match check {
                    Some(_) => JournalFound::Resumed(count),
                    None => JournalFound::Early(count),
                }
            }
            Start::Refuses { doubt, floor } => {
                JournalFound::Doubted(*doubt, shown_ahead(*floor, at))
            }
        }
    }
}

/// Returns the second that the files of a journal show by the floor that they ask for, if that is above the floor of a
/// start at this moment.
fn shown_ahead(floor: Option<i64>, at: Moment) -> Option<i64>
    ensures { result ≡ shown_ahead floor at.sec }
{
    match floor {
        Some(floor) => {
            if at.sec + RESTART_FLOOR < floor {
                Some(floor - RESTART_FLOOR)
            } else {
                None
            }
        }
        None => None,
    }
}

/// A server that listens. Its text is a line each for the version, the addresses, each wildcard address for datagrams,
/// the database, the journal if there is one, what is refused after the start if anything is, and the limits.
#[derive(Clone, Copy)]
pub struct Started<'a> {
    /// The addresses that accept datagrams.
    pub udp: &'a [SocketAddr],
    /// The addresses that accept connections.
    pub tcp: &'a [SocketAddr],
    /// The path of the database's file.
    pub db: &'a str,
    /// The number of rows.
    pub rows: usize,
    /// The journal; `None` if the server keeps none.
    pub journal: Option<JournalNews<'a>>,
    /// Which requests are refused after the start, if any are.
    pub refused: Option<Refused>,
    /// Whether they get no reply.
    pub is_quiet: bool,
    /// The limits on what the KDC records and grants.
    pub limits: Limits,
}

impl fmt::Display for Started<'_> {
    fn fmt<W: fmt::Write>(&self, f: &mut fmt::Formatter<W>) -> fmt::Result {
        write!(f, "kdcd: version {VERSION}\nkdcd: serving on ")?;
        write_addresses(f, self.udp, self.tcp)?;
        writeln!(f)?;
        write_wildcards(f, self.udp)?;
        writeln!(f, "kdcd: database {} with {} rows", self.db, self.rows)?;
        if let Some(news) = &self.journal {
            write_news(f, news)?;
        }
        if let Some(refused) = self.refused {
            write_refused(f, refused, self.is_quiet)?;
        }
        write_limits(f, &self.limits)
    }
}

fn write_news<W: fmt::Write>(f: &mut fmt::Formatter<W>, news: &JournalNews<'_>) -> fmt::Result {
    let path = news.path;
    match news.found {
        JournalFound::Resumed(count) => {
            writeln!(
                f,
                "kdcd: journal {path}: resumed with {count} authenticators"
            )
        }
        JournalFound::Early(count) => {
            writeln!(
                f,
                "kdcd: journal {path}: resumed with {count} authenticators, with a clock that is behind it"
            )
        }
        JournalFound::Doubted(doubt, shown) => {
            writeln!(f, "kdcd: journal {path}: not resumed: {doubt}")?;
            match shown {
                Some(second) => write_shown(f, path, second),
                None => Ok(()),
            }
        }
    }
}

/// Writes what to do if a journal shows a later time than the clock.
fn write_shown<W: fmt::Write>(f: &mut fmt::Formatter<W>, path: &str, second: i64) -> fmt::Result {
    write!(f, "kdcd: journal {path}: it shows ")?;
    match Second::new(second) {
        Some(second) => write!(f, "{}", UtcDate(second))?,
        None => write!(f, "a later time")?,
    }
    writeln!(
        f,
        ", which the clock is behind: set the clock; or, if the clock was ahead then, \
         move {path}, {path}.old and {path}.new away"
    )
}

fn write_refused<W: fmt::Write>(
    f: &mut fmt::Formatter<W>,
    refused: Refused,
    is_quiet: bool,
) -> fmt::Result {
    writeln!(f, "kdcd: restart: {refused}")?;
    if is_quiet {
        writeln!(f, "kdcd: quiet start: they get no reply until then")?;
    }
    Ok(())
}

/// Writes the addresses, as `udp 192.0.2.1:88, udp [2001:db8::1]:88 and tcp 192.0.2.1:88`.
fn write_addresses<W: fmt::Write>(
    f: &mut fmt::Formatter<W>,
    udp: &[SocketAddr],
    tcp: &[SocketAddr],
) -> fmt::Result {
    let mut left = udp.len() + tcp.len();
    for address in udp {
        left = left.saturating_sub(1);
        write!(f, "udp {address}{}", separator(left))?;
    }
    for address in tcp {
        left = left.saturating_sub(1);
        write!(f, "tcp {address}{}", separator(left))?;
    }
    Ok(())
}

/// Writes a line for each wildcard address. A reply then leaves from the address that the system picks for its way, and
/// a client that asked at another one drops it.
fn write_wildcards<W: fmt::Write>(f: &mut fmt::Formatter<W>, udp: &[SocketAddr]) -> fmt::Result {
    for address in udp {
        if address.ip().is_unspecified() {
            writeln!(
                f,
                "kdcd: udp {address}: replies leave from the address that the system picks, and clients that asked at \
                 another drop them; name the host's addresses instead: at most 8 of --udp and --tcp in all"
            )?;
        }
    }
    Ok(())
}

/// Returns the separator before the addresses that are left.
fn separator(left: usize) -> &'static str {
    match left {
        0 => "",
        1 => " and ",
        _ => ", ",
    }
}

fn write_limits<W: fmt::Write>(f: &mut fmt::Formatter<W>, limits: &Limits) -> fmt::Result {
    writeln!(
        f,
        "kdcd: limits: remembered {}, kept {}, lock-after {}, lock-seconds {}, greatest-life {}, greatest-renewable {}",
        limits.remembered,
        limits.kept,
        limits.lock_after,
        limits.lock_seconds,
        limits.greatest_life,
        limits.greatest_renewable
    )
}
