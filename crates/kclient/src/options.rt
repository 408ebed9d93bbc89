//! The subcommands of the command line with their options, and their help texts.
use clap::error::Error;
use clap::{Arg, ArgAction, ArgMatches, Command};
use command_line::{
    FlagRow, OptionRow, SubcommandRow, Times, subcommand, with_flags, with_options,
};
use file_store::VERSION;
use std::alloc::{AllocError, Global};

const ABOUT: &str = "Gets Kerberos tickets and keeps them in a credential cache";

const AFTER_HELP: &str = "\
A first ticket, and one for a service:
  kclient kinit alice
  kclient kvno host/www.example.com
The same without a krb5.conf, and in another cache:
  kclient kinit --kdc 127.0.0.1:88 --cache cache alice@EXAMPLE.COM
  kclient kvno --kdc 127.0.0.1:88 --cache cache host/www.example.com

Without --cache, it uses the file that KRB5CCNAME names, or else /tmp/krb5cc_ and the user's number. Without --realm or
--kdc, it takes the default realm, and the realm's KDCs, from the file that KRB5_CONFIG names, or else from
/etc/krb5.conf.

`kinit` and `kdestroy` print `ok`, and `kvno` prints the name and the key version of each service. A command that is
refused prints `refused` with a reason, or with the error code of the KDC, and its status is 1. If a file, a socket,
the clock or memory failed, it prints `failed`, and its status is 3. A usage error has status 2. Standard error says
what happened, and which word, file or KDC it concerns.

A name is components joined by `/`. In a component, bytes other than 21 to 7e, and `/`, `\\` and `@`, are written as
`\\` and two lower-case hexadecimal digits.";

const KDC: OptionRow = OptionRow {
    name: "kdc",
    shape: "ADDRESS:PORT",
    help: "The address of a KDC, such as 127.0.0.1:88 or [::1]:88. If one does not reply, the next is asked",
    times: Times::Any,
};

const CACHE: OptionRow = OptionRow {
    name: "cache",
    shape: "FILE",
    help: "The credential cache, which MIT's and Heimdal's tools can read too",
    times: Times::AtMostOnce,
};

const SEED: OptionRow = OptionRow {
    name: "seed",
    shape: "FILE",
    help: "A file of 32 random bytes, new for each command; by default the system draws them",
    times: Times::AtMostOnce,
};

const REALM: OptionRow = OptionRow {
    name: "realm",
    shape: "REALM",
    help: "The realm's name",
    times: Times::AtMostOnce,
};

const CLIENT: OptionRow = OptionRow {
    name: "name",
    shape: "NAME",
    help: "The same as CLIENT",
    times: Times::AtMostOnce,
};

const PASSWORD: OptionRow = OptionRow {
    name: "password-file",
    shape: "FILE",
    help: "A file whose first line is the password, of at most 1,024 bytes; by default it is read from standard input",
    times: Times::AtMostOnce,
};

const CLIENT_KEYTAB: OptionRow = OptionRow {
    name: "keytab",
    shape: "FILE",
    help: "The client's keys, in place of a password",
    times: Times::AtMostOnce,
};

const SERVICE: OptionRow = OptionRow {
    name: "service",
    shape: "NAME",
    help: "The service that the ticket is for; by default krbtgt/REALM",
    times: Times::AtMostOnce,
};

const LIFE: OptionRow = OptionRow {
    name: "life",
    shape: "TIME",
    help: "The lifetime to ask for, in seconds or as 30m, 8h or 7d; by default the longest that the KDC gives",
    times: Times::AtMostOnce,
};

const START: OptionRow = OptionRow {
    name: "start",
    shape: "TIME",
    help: "Asks for a postdated ticket, which starts after this time. It has to be validated then",
    times: Times::AtMostOnce,
};

const LEAST_COUNT: OptionRow = OptionRow {
    name: "least-count",
    shape: "N",
    help: "The fewest iterations of string-to-key that the KDC may ask for; \
           by default 4096 or 32768, by the encryption type",
    times: Times::AtMostOnce,
};

const SERVICES: OptionRow = OptionRow {
    name: "name",
    shape: "NAME",
    help: "The same as a SERVICE. It may be given more than once",
    times: Times::Any,
};

const SERVICE_KEYTAB: OptionRow = OptionRow {
    name: "keytab",
    shape: "FILE",
    help: "The keys of the services. Each has to decrypt its service's ticket",
    times: Times::AtMostOnce,
};

const LISTED_KEYTAB: OptionRow = OptionRow {
    name: "keytab",
    shape: "FILE",
    help: "The keytab to list, in place of a cache",
    times: Times::AtMostOnce,
};

const TCP: FlagRow = FlagRow {
    name: "tcp",
    help: "Uses only TCP; by default UDP first",
};

/// `kinit` with the options that describe a first ticket. None of them goes with `--renew` or `--validate`.
const KINIT: SubcommandRow = SubcommandRow {
    name: "kinit",
    about: "Gets a ticket-granting ticket with a password or a keytab, and makes a credential cache with it",
    options: &[
        REALM,
        CLIENT,
        PASSWORD,
        CLIENT_KEYTAB,
        SERVICE,
        LIFE,
        START,
        LEAST_COUNT,
    ],
    flags: &[
        FlagRow {
            name: "renewable",
            help: "Asks for a renewable ticket",
        },
        FlagRow {
            name: "forwardable",
            help: "Asks for a forwardable ticket",
        },
        FlagRow {
            name: "proxiable",
            help: "Asks for a proxiable ticket",
        },
    ],
};

/// The options that go with every `kinit`.
const KINIT_OPTIONS: &[OptionRow] = &[SEED, KDC, CACHE];

const KINIT_FLAGS: &[FlagRow] = &[
    FlagRow {
        name: "renew",
        help: "Renews the cache's ticket-granting ticket",
    },
    FlagRow {
        name: "validate",
        help: "Validates the cache's ticket-granting ticket, which was postdated",
    },
    TCP,
];

const KVNO: SubcommandRow = SubcommandRow {
    name: "kvno",
    about: "Gets tickets for services, puts them into the cache, and prints the versions of the services' keys",
    options: &[SERVICES, SERVICE_KEYTAB, SEED, KDC, CACHE],
    flags: &[
        FlagRow {
            name: "fresh",
            help: "Asks for each ticket, even if the cache has a good one",
        },
        TCP,
    ],
};

const KLIST: SubcommandRow = SubcommandRow {
    name: "klist",
    about: "Prints what a credential cache or a keytab holds, but no key",
    options: &[CACHE, LISTED_KEYTAB],
    flags: &[FlagRow {
        name: "s",
        help: "Prints nothing. The status is 0 if the cache has a ticket-granting ticket that has not ended",
    }],
};

const KDESTROY: SubcommandRow = SubcommandRow {
    name: "kdestroy",
    about: "Removes a credential cache",
    options: &[CACHE],
    flags: &[],
};

/// A subcommand of the command line, as the tables have it.
#[derive(Clone, Copy)]
enum Subcommand {
    Kinit,
    Kvno,
    Klist,
    Kdestroy,
}

impl Subcommand {
    /// The commands, in the order of the help.
    const ALL: [Subcommand; 4] = [
        Subcommand::Kinit,
        Subcommand::Kvno,
        Subcommand::Klist,
        Subcommand::Kdestroy,
    ];

    /// Returns its name, its help, its options and its flags.
    fn words(self) -> &'static SubcommandRow {
        match self {
            Subcommand::Kinit => &KINIT,
            Subcommand::Kvno => &KVNO,
            Subcommand::Klist => &KLIST,
            Subcommand::Kdestroy => &KDESTROY,
        }
    }
}

/// Parses the command line, whose first word is the program's name. Values are then where `value_of` finds them: the
/// parser takes no word that begins with `--` as a value, and no option with one value twice.
pub(crate) fn read_args<'a>(alloc: Global, words: &'a [&'a str]) -> Result<ArgMatches<'a>, Error> {
    parser(alloc)?.try_get_matches_from(words)
}

/// Returns the parser, with all commands.
fn parser<'a>(alloc: Global) -> Result<Command<'a>, AllocError> {
    let mut kclient = Command::new(alloc, "kclient")
        .version(VERSION)
        .about(ABOUT)
        .after_help(AFTER_HELP)
        .subcommand_required(true);
    for kind in Subcommand::ALL {
        kclient = kclient.subcommand(command(alloc, kind)?)?;
    }
    Ok(kclient)
}

/// Returns a command with its options, flags and plain words.
fn command<'a>(alloc: Global, kind: Subcommand) -> Result<Command<'a>, AllocError> {
    let command = subcommand(alloc, kind.words())?;
    match kind {
        Subcommand::Kinit => kinit(alloc, command),
        Subcommand::Kvno => command.arg(services(alloc)),
        Subcommand::Klist | Subcommand::Kdestroy => Ok(command),
    }
}

/// Returns `kinit` with what it takes besides a first ticket's description.
fn kinit<'a>(alloc: Global, kinit: Command<'a>) -> Result<Command<'a>, AllocError> {
    let client = Arg::new(alloc, "client").value_name("CLIENT").help(
        "The client's name, also with its realm, such as alice@EXAMPLE.COM; \
         by default the cache's client, or else LOGNAME",
    );
    let kinit = with_options(alloc, kinit, KINIT_OPTIONS)?;
    with_flags(alloc, kinit, KINIT_FLAGS)?.arg(client)
}

/// Returns the plain words of `kvno`.
fn services<'a>(alloc: Global) -> Arg<'a> {
    Arg::new(alloc, "service")
        .value_name("SERVICE")
        .action(ArgAction::Append)
        .num_args(0..)
        .help("The names of services, such as host/www.example.com, also with the cache's realm")
}

/// Checks whether there is an option of `kinit` that describes a first ticket.
pub(crate) fn asks_for_first(args: &ArgMatches<'_>) -> bool {
    args.get_str("client").is_some()
        || has_option(args, KINIT.options)
        || has_flag(args, KINIT.flags)
}

fn has_option(args: &ArgMatches<'_>, rows: &[OptionRow]) -> bool {
    for row in rows {
        if args.get_str(row.name).is_some() {
            return true;
        }
    }
    false
}

fn has_flag(args: &ArgMatches<'_>, rows: &[FlagRow]) -> bool {
    for row in rows {
        if args.get_flag(row.name) {
            return true;
        }
    }
    false
}
