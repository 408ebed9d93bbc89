//! The command line of `kdcd`: its subcommands, their options, and what `--help` says.
use clap::builder::ValueParser;
use clap::error::Error;
use clap::{Arg, ArgMatches, Command};
use command_line::{FlagRow, OptionRow, SubcommandRow, Times, subcommand, with_subcommands};
use kdc_server::ServeOptions;
use principal_rows::Limits;
use request_log::LogFormat;
use std::alloc::{AllocError, Global};
use std::net::SocketAddr;
use text_fields::{lifetime, number_u32};

/// The greatest number of addresses of one server.
const MOST_ADDRESSES: usize = 8;

const AFTER_HELP: &str = "\
Without --rounds the server runs until a signal ends it. A round takes at most one event: a datagram, a new connection,
a piece of what comes on one, or its end. If nothing comes, it waits a tenth of a second. After the last round it prints
`served EVENTS FAULTS REFUSED`: the events, the socket calls that failed, and the events that ran out of memory. With
--rounds 0 it opens everything and ends.

Before each 16 rounds the server checks the file of the database. If the file changed, the server reads it and serves
the new rows; replay caches and failed logins stay. If the file can't be read, is refused, or is of another realm
(OtherRealm), the old rows stay. Standard error says so once, and the server looks again when the file changes again. A
file that the system failed to read is read again after five seconds.

Once it listens, standard error says where, which database with how many rows, until when TGS-REQs are refused, and the
limits. Port 0 is one that the system chooses. If the clock goes back, a line a minute says which TGS-REQs are refused
for that, and until when. With --log each request is a line: the time in UTC, the peer, udp or tcp, as or tgs, the
client, the service, and the outcome: `ticket` with its lifetime, or `refused` with the error's code and a word for it;
then rule=NAME for a refusal, and etype=, flags=, until= and renew= for a ticket; and sent=no if the reply was withheld
or could not be sent. A line that can't be written is lost.

With --journal the server appends each authenticator that enters a replay cache to FILE before it sends the reply. The
next start reads FILE, refuses these authenticators, and refuses nothing else. It does so only if the journal is of
this realm, whole, and of this boot of the system or sealed by `kdcd seal` before the system went down. Otherwise it
starts as without a journal, and standard error says why. If the clock is behind the journal, it refuses all that may
have come before. FILE and FILE.old take turns every ten minutes, or when FILE has --journal-size bytes. FILE.lock
keeps a second server from FILE; it stays there. While FILE can't be written the server sends no reply, and standard
error says so. If FILE, or FILE.old, FILE.new, FILE.lock or FILE.sealed, is something else than a journal's, the start
is refused, and it stays as it is. --first is refused if there is a journal, since it is for the first start alone.
--journal without a value takes DATABASE.journal. A server without --journal is refused while that file is there, since
what it answers would be missing in the journal; with --no-journal it removes that journal.

With --metrics the server writes its numbers to FILE every ten seconds: requests by exchange, outcome and rule, replies
by transport, events and faults, rows, replay caches and the journal. Everybody may read FILE (mode 644). FILE.new
beside it is renamed to it, so no reader sees half of it. If FILE can't be written, or something else than numbers is
there, standard error says so once, and the server goes on.

Status: 0 after the last round; 1 if a file is refused (`refused NAME`: NotJson, BadVersion, BadRow, NoTicketGranter,
ShortSeed, LongFile, NotJournal, Journal); 2 for a usage error; 3 if a file, a socket, the clock or memory failed
(`failed`). Standard error says why the server did not start.";

const SERVE: SubcommandRow = SubcommandRow {
    name: "serve",
    about: "Serves a realm over UDP and TCP",
    options: &[
        OptionRow {
            name: "db",
            shape: "FILE",
            help: "The database, as `kadm` writes it",
            times: Times::Once,
        },
        OptionRow {
            name: "udp",
            shape: "ADDRESS:PORT",
            help: "Accepts datagrams at this address, such as 127.0.0.1:88 or [::1]:88. \
                   At most 8 of --udp and --tcp in all",
            times: Times::Any,
        },
        OptionRow {
            name: "tcp",
            shape: "ADDRESS:PORT",
            help: "Accepts connections at this address",
            times: Times::Any,
        },
        OptionRow {
            name: "rounds",
            shape: "N",
            help: "Ends after N rounds, 0 to 4294967295",
            times: Times::AtMostOnce,
        },
        OptionRow {
            name: "seed",
            shape: "FILE",
            help: "Makes all session keys from the first 32 bytes of this file, new for each start; \
                   by default the system draws them",
            times: Times::AtMostOnce,
        },
        OptionRow {
            name: "remembered",
            shape: "N",
            help: "Keeps up to N authenticators in the replay cache of each client, 1 to 65536; by default 4096",
            times: Times::AtMostOnce,
        },
        OptionRow {
            name: "kept",
            shape: "N",
            help: "Keeps the replies to TGS-REQs of up to N bytes, 0 to 65535, by default 4096: \
                   one that comes again gets the same reply",
            times: Times::AtMostOnce,
        },
        OptionRow {
            name: "lock-after",
            shape: "N",
            help: "Locks a client after N failed logins in a row; by default 0, which means never. \
                   It needs --lock-seconds",
            times: Times::AtMostOnce,
        },
        OptionRow {
            name: "lock-seconds",
            shape: "TIME",
            help: "Locks it until TIME after the last failure: seconds, or a number with s, m, h or d (300, 5m)",
            times: Times::AtMostOnce,
        },
        OptionRow {
            name: "greatest-life",
            shape: "TIME",
            help: "Issues tickets with a lifetime of at most TIME; by default 10h",
            times: Times::AtMostOnce,
        },
        OptionRow {
            name: "greatest-renewable",
            shape: "TIME",
            help: "Renews tickets for at most TIME; by default 7d",
            times: Times::AtMostOnce,
        },
        OptionRow {
            name: "journal-size",
            shape: "SIZE",
            help: "Begins another file of the journal once one has SIZE bytes, up to 512M; by default 64M",
            times: Times::AtMostOnce,
        },
        OptionRow {
            name: "metrics",
            shape: "FILE",
            help: "Writes the server's numbers to FILE every ten seconds, in Prometheus' text format, \
                   for those who watch it",
            times: Times::AtMostOnce,
        },
        OptionRow {
            name: "log-format",
            shape: "FORMAT",
            help: "Writes a line to standard error for each request: text, or with json a JSON object",
            times: Times::AtMostOnce,
        },
    ],
    flags: &[
        FlagRow {
            name: "first",
            help: "No request was ever answered with this database. \
                   Without it, TGS-REQs are refused with error 37 for 301 seconds",
        },
        FlagRow {
            name: "quiet-start",
            help: "Sends no reply to a TGS-REQ while all are refused after the start, and closes its connection: \
                   clients then ask another KDC",
        },
        FlagRow {
            name: "no-journal",
            help: "Removes the journal that is beside the database, and serves without one",
        },
        FlagRow {
            name: "fixed",
            help: "Reads the database once, and never looks at its file again",
        },
        FlagRow {
            name: "log",
            help: "The same as --log-format text",
        },
    ],
};

const AFTER_SEAL_HELP: &str = "\
After the system was booted a server resumes only with a journal that was sealed, since the end of another one may be
lost. Run this after the server has ended and before the system goes down: it puts the journal on the disk, and then the
seal, FILE.sealed. The next start breaks the seal. Only a whole journal of this boot of the system is sealed, and none
that a server has open.

Status: 0 if it is sealed (`ok`); 1 if a start would not resume with it, or a file is none of a journal's
(`refused NAME`: Absent, Damaged, OtherBoot, Unlinked, NotJournal); 2 for a usage error; 3 if a file or memory failed
(`failed`). Standard error says why.";

const SEAL: SubcommandRow = SubcommandRow {
    name: "seal",
    about: "Seals the journal of a server that has ended, so that it resumes after the next boot",
    options: &[OptionRow {
        name: "journal",
        shape: "FILE",
        help: "The journal, as the server's --journal names it",
        times: Times::Once,
    }],
    flags: &[],
};

const SCRIPT: SubcommandRow = SubcommandRow {
    name: "script",
    about: "Runs a script from standard input",
    options: &[],
    flags: &[],
};

/// Reads the words of a command line, which begin with the program's name. A server whose `--journal` has no value has
/// its journal at the path `beside`.
pub(crate) fn read_args<'a>(
    alloc: Global,
    args: &'a [String],
    beside: &'a str,
) -> Result<ArgMatches<'a>, Error> {
    let kdcd = Command::new(alloc, "kdcd").about("A Kerberos KDC");
    let serve = subcommand(alloc, &SERVE)?
        .arg(journal_option(alloc, beside))?
        .after_help(AFTER_HELP);
    with_subcommands(alloc, kdcd, &[SCRIPT])?
        .subcommand(serve)?
        .subcommand(subcommand(alloc, &SEAL)?.after_help(AFTER_SEAL_HELP))?
        .try_get_matches_from(args)
}

/// The option of a journal. Without a value it has this path.
fn journal_option<'a>(alloc: Global, beside: &'a str) -> Arg<'a> {
    Arg::new(alloc, "journal")
        .long("journal")
        .value_name("FILE")
        .num_args(0..=1)
        .default_missing_value(beside)
        .value_parser(ValueParser::NonEmptyString)
        .help(
            "Appends the authenticators of the replay caches to FILE, by default DATABASE.journal, \
             so that a restart refuses nothing else",
        )
}

/// Returns the path of the journal beside the database of a server, by the words of its command line. It is empty if
/// they are not those of a server.
pub(crate) fn path_beside(alloc: Global, args: &[String]) -> Result<String, AllocError> {
    let Ok(matches) = read_args(alloc, args, "journal") else {
        return Ok(String::new(alloc));
    };
    let Some(("serve", serve)) = matches.subcommand() else {
        return Ok(String::new(alloc));
    };
    match serve.get_str("db") {
        Some(db) => journal_beside(alloc, db),
        None => Ok(String::new(alloc)),
    }
}

/// Returns the path of the journal beside a database.
pub(crate) fn journal_beside(alloc: Global, db: &str) -> Result<String, AllocError> {
    format!(in alloc; "{db}.journal")
}

/// Reads the options after `serve`. The inner error is a usage error, in words.
pub(crate) fn serve_options<'a>(
    alloc: Global,
    args: &ArgMatches<'a>,
) -> Result<Result<ServeOptions<'a>, &'static str>, AllocError> {
    let Some(udp) = addresses(alloc, args, "udp")? else {
        return Ok(Err("--udp takes an address and a port, as 127.0.0.1:88"));
    };
    let Some(tcp) = addresses(alloc, args, "tcp")? else {
        return Ok(Err("--tcp takes an address and a port, as 127.0.0.1:88"));
    };
    if let Some(fault) = count_fault(udp.len(), tcp.len()) {
        return Ok(Err(fault));
    }
    Ok(with_addresses(args, udp, tcp))
}

/// Reads the other options, and adds the addresses.
fn with_addresses<'a>(
    args: &ArgMatches<'a>,
    udp: Vec<SocketAddr>,
    tcp: Vec<SocketAddr>,
) -> Result<ServeOptions<'a>, &'static str> {
    let db = args.get_str("db").ok_or("--db is missing")?;
    let rounds = rounds(args)?;
    let limits = limits(args)?;
    if lacks_lock_time(args, &limits) {
        return Err(
            "--lock-after needs --lock-seconds, for how long a client is locked, such as --lock-seconds 300",
        );
    }
    if args.get_flag("no-journal") && args.get_str("journal").is_some() {
        return Err("--journal and --no-journal don't go together");
    }
    let log = log_format(args)?;
    Ok(ServeOptions {
        db,
        udp,
        tcp,
        rounds,
        seed: args.get_str("seed"),
        limits,
        is_first: args.get_flag("first"),
        is_quiet: args.get_flag("quiet-start"),
        journal: args.get_str("journal"),
        journal_size: journal_size(args)?,
        removes_journal: args.get_flag("no-journal"),
        metrics: args.get_str("metrics"),
        is_fixed: args.get_flag("fixed"),
        log,
    })
}

/// The size at which a journal's file takes its turn if no option sets it, in bytes.
const JOURNAL_SIZE: u64 = 67_108_864;

/// The greatest size that an option can set, in bytes: a start reads two such files.
const GREATEST_JOURNAL: u64 = 536_870_912;

fn journal_size(args: &ArgMatches<'_>) -> Result<u64, &'static str> {
    let Some(word) = args.get_str("journal-size") else {
        return Ok(JOURNAL_SIZE);
    };
    match size(word) {
        Some(size) if size <= GREATEST_JOURNAL => Ok(size),
        Some(_) | None => Err(
            "--journal-size takes a number of bytes up to 512M, such as 64M: K, M and G are allowed",
        ),
    }
}

/// Reads a number of bytes, or of units of 1,024, 1,024 * 1,024 and so on.
fn size(word: &str) -> Option<u64> {
    for (unit, bytes) in UNITS {
        if let Some(front) = word.strip_suffix(unit) {
            return u64::from(number_u32(front)?).checked_mul(bytes);
        }
    }
    number_u32(word).map(u64::from)
}

/// The units of a number of bytes.
const UNITS: [(&str, u64); 3] = [("K", 1 << 10), ("M", 1 << 20), ("G", 1 << 30)];

/// Reads the format of the log, if there is to be one.
fn log_format(args: &ArgMatches<'_>) -> Result<Option<LogFormat>, &'static str> {
    match args.get_str("log-format") {
        Some("text") => Ok(Some(LogFormat::Text)),
        Some("json") => Ok(Some(LogFormat::Json)),
        Some(_) => Err("--log-format takes text or json"),
        None if args.get_flag("log") => Ok(Some(LogFormat::Text)),
        None => Ok(None),
    }
}

/// Reads the addresses of an option that may be given more than once. Returns `None` if a word is no address.
fn addresses(
    alloc: Global,
    args: &ArgMatches<'_>,
    name: &str,
) -> Result<Option<Vec<SocketAddr>>, AllocError> {
    let mut addresses = Vec::new(alloc);
    let Some(texts) = args.get_strs(name) else {
        return Ok(Some(addresses));
    };
    for text in texts {
        match text.parse() {
            Ok(address) => addresses.push(address)?,
            Err(_) => return Ok(None),
        }
    }
    Ok(Some(addresses))
}

/// Returns what is wrong with these numbers of addresses, if anything is.
fn count_fault(udp: usize, tcp: usize) -> Option<&'static str> {
    if udp == 0 && tcp == 0 {
        return Some("--udp or --tcp is needed: give at least one address");
    }
    if udp > MOST_ADDRESSES || tcp > MOST_ADDRESSES - udp {
        return Some("--udp and --tcp may be given 8 times in all");
    }
    None
}

fn rounds(args: &ArgMatches<'_>) -> Result<Option<u32>, &'static str> {
    let Some(word) = args.get_str("rounds") else {
        return Ok(None);
    };
    match number_u32(word) {
        Some(rounds) => Ok(Some(rounds)),
        None => Err("--rounds takes a number from 0 to 4294967295"),
    }
}

const REMEMBERED_FAULT: &str = "--remembered takes a number from 1 to 65536";

const KEPT_FAULT: &str = "--kept takes a number from 0 to 65535";

fn limits(args: &ArgMatches<'_>) -> Result<Limits, &'static str> {
    let limits = Limits::new(
        limit(args, "remembered", 4_096, REMEMBERED_FAULT)?,
        limit(
            args,
            "lock-after",
            0,
            "--lock-after takes a number from 0 to 4294967295",
        )?,
        duration(
            args,
            "lock-seconds",
            0,
            "--lock-seconds takes seconds (300), or a number followed by s, m, h or d (5m)",
        )?,
        duration(
            args,
            "greatest-life",
            36_000,
            "--greatest-life takes seconds (36000), or a number followed by s, m, h or d (10h)",
        )?,
        duration(
            args,
            "greatest-renewable",
            604_800,
            "--greatest-renewable takes seconds (604800), or a number followed by s, m, h or d (7d)",
        )?,
    );
    let limits = limits.ok_or(REMEMBERED_FAULT)?;
    let kept = limit(args, "kept", 4_096, KEPT_FAULT)?;
    limits.with_kept(kept).ok_or(KEPT_FAULT)
}

/// Checks whether clients are to be locked, and no option says for how long. They would never be.
fn lacks_lock_time(args: &ArgMatches<'_>, limits: &Limits) -> bool {
    limits.lock_after > 0 && args.get_str("lock-seconds").is_none()
}

/// Returns the number behind an option, or another if the option is not given.
fn limit(
    args: &ArgMatches<'_>,
    name: &str,
    otherwise: u32,
    fault: &'static str,
) -> Result<u32, &'static str> {
    match args.get_str(name) {
        Some(word) => number_u32(word).ok_or(fault),
        None => Ok(otherwise),
    }
}

/// Returns the seconds behind an option, or others if the option is not given.
fn duration(
    args: &ArgMatches<'_>,
    name: &str,
    otherwise: u32,
    fault: &'static str,
) -> Result<u32, &'static str> {
    match args.get_str(name) {
        Some(word) => lifetime(word).ok_or(fault),
        None => Ok(otherwise),
    }
}
