//! The runs of events of a KDC that `kdcs` makes, with the outcome of each step.

/// The bytes of a key of encryption type 18: the first one, and by how much each next one is greater.
pub(crate) type KeyBytes = (u8, u8);

/// A run of a KDC: its name, the key of `krbtgt/A.B`, after how many failures a client is locked for a minute (0 for
/// never), and its steps. At first the database has only `krbtgt/A.B`.
///
/// A step has four words: what comes, two words about it, and the outcome. Principals have names of one letter. The
/// word for a key is the byte that it repeats, or its first byte and `+` if its bytes count up.
///
/// ```text
/// ask MESSAGE SECOND     a request comes, this many seconds after 2024-01-01 00:00:00
/// draw MESSAGE RANDOM    a request comes at midnight, and the KDC draws these random bytes
/// long - -               the basic request comes with a timestamp of a million bytes
/// add PRINCIPAL KEY      the principal is added
/// key u KEY              `u` gets this key, as its next version
/// free u -               `u` needs no preauthentication from now on
/// replace REALM KEY      a database of this realm replaces the rows; in it `u` has this key
/// restart - -            the KDC starts again
/// reopen - -             the KDC starts again with a database that has `u`, whose key is 32 zeros
/// tidy - SECOND          the KDC drops authenticators that can't come again
/// resume - -             the KDC resumes with the service `h` and no clients; it has seen an authenticator of `u` from
///                        second 7, and refuses all times below second 5
/// ```
///
/// The outcome is `-` for no reply, `ticket`, the code of an error, or the reply itself.
pub(crate) type Run = (&'static str, KeyBytes, u32, &'static str);

/// Some requests come twice, so that the second one is answered if the first one ran out of memory.
pub(crate) const RUNS: &[Run] = &[
    (
        "an unknown client",
        (0, 0),
        0,
        "
        ask BASIC 0 CLIENT_UNKNOWN
        ask BASIC 0 CLIENT_UNKNOWN
        ",
    ),
    (
        "key hints",
        (0, 0),
        0,
        "
        add u 0 -
        ask BASIC 0 PREAUTH_REQUIRED
        ask BASIC 0 PREAUTH_REQUIRED
        ",
    ),
    (
        "a login without preauthentication",
        (0, 0),
        0,
        "
        add u 0 -
        free u - -
        ask BASIC 0 TICKET
        ask BASIC 0 TICKET
        ",
    ),
    (
        "a login with a timestamp",
        (128, 1),
        0,
        "
        add u 64+ -
        add h 160+ -
        draw LOGIN LOGIN_RANDOM LOGIN_REP
        draw LOGIN LOGIN_RANDOM LOGIN_REP
        ",
    ),
    (
        "a service ticket",
        (128, 1),
        0,
        "
        add u 64+ -
        add h 160+ -
        draw TGS_REQ UP_FROM_64 TGS_REP
        draw TGS_REQ UP_FROM_64 TGS_REP
        ",
    ),
    (
        "a timestamp of a million bytes fails as any other",
        (0, 0),
        0,
        "
        add u 0 -
        free u - -
        long - - PREAUTH_FAILED
        ",
    ),
    (
        "noise, a row that is added once, a restart",
        (0, 0),
        0,
        "
        ask NOTHING 0 -
        add u 0 -
        add u 0 -
        restart - - -
        ask BASIC_OF_X 0 CLIENT_UNKNOWN
        ask BASIC 0 PREAUTH_REQUIRED
        ",
    ),
    (
        "rows of the same realm replace the others",
        (0, 0),
        0,
        "
        ask BASIC 0 CLIENT_UNKNOWN
        replace A.B 0 -
        ask BASIC 0 PREAUTH_REQUIRED
        ",
    ),
    (
        "rows of another realm change nothing",
        (0, 0),
        0,
        "
        ask BASIC 0 CLIENT_UNKNOWN
        replace A.C 0 -
        ask BASIC 0 CLIENT_UNKNOWN
        ",
    ),
    (
        "it opens again with other rows",
        (0, 0),
        0,
        "
        ask BASIC 0 CLIENT_UNKNOWN
        reopen - - -
        ask BASIC 0 PREAUTH_REQUIRED
        ",
    ),
    // After the first replacement its key version is the same.
    (
        "a replaced database ends a lock by another version",
        (0, 0),
        2,
        "
        add u 0 -
        ask LOGIN_9 0 24
        ask LOGIN_9 0 24
        replace A.B 4 -
        ask LOGIN_4 0 18
        key u 5 -
        ask LOGIN_5 0 ticket
        ask LOGIN_9 0 24
        ask LOGIN_9 0 24
        ask LOGIN_5 0 18
        replace A.B 4 -
        ask LOGIN_4 0 ticket
        ",
    ),
    // The authenticator that was dropped is too old from then on. None of `w` was dropped.
    (
        "tidying keeps what can come again",
        (1, 0),
        0,
        "
        add h 1 -
        add u 117 -
        add w 119 -
        ask BUYS_AT_0 0 ticket
        tidy - 300 -
        ask BUYS_AT_0 300 ticket
        tidy - 301 -
        ask BUYS_AT_0 300 37
        ask W_BUYS_AT_0 0 ticket
        ask BUYS_AT_301 301 ticket
        ",
    ),
    (
        "the same beside no other client",
        (1, 0),
        0,
        "
        add h 1 -
        add u 117 -
        ask BUYS_AT_0 0 ticket
        tidy - 300 -
        ask BUYS_AT_0 300 ticket
        tidy - 301 -
        ask BUYS_AT_0 300 37
        ask BUYS_AT_301 301 ticket
        ",
    ),
    (
        "a resumed KDC refuses seen authenticators only",
        (1, 0),
        0,
        "
        resume - - -
        add u 117 -
        add w 119 -
        ask BUYS_AT_7 7 34
        ask BUYS_AT_7 7 34
        ask BUYS_AT_7_AND_1 7 ticket
        ask W_BUYS_AT_7 7 ticket
        ask BUYS_AT_4 7 37
        ask BUYS_AT_5 7 ticket
        ",
    ),
    (
        "a row is added after memory ran out, and not twice",
        (0, 0),
        0,
        "",
    ),
];
