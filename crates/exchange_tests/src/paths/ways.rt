//! Tests of whole paths of tickets, each from the first request to the service.
use crate::asking::{
    FORWARDABLE, FORWARDED, HOST, INITIAL, MAY_POSTDATE, POSTDATED, PRE_AUTHENT, RENEW, RENEWABLE,
    TGS, VALIDATE,
};
use crate::outcomes::Outcome;
use crate::paths::going::{Choice, End, Leg, Way, are_ended};
use crate::paths::realm::{Types, USER_FIRST};
use crate::services::{ALL_TYPES, OF_TGS, OTHER_KEY, OTHER_TYPE, OTHER_VERSION, OWN};
use ap_accept::{ApFault, ApRefusal};
use client_core::Mismatch;
use enctypes::Etype;
use std::test::Fail;

const LOGIN: Leg = Leg {
    at: 0,
    options: 0,
    service: TGS,
    from: None,
};

/// An AS-REQ for the service: it may name any service.
const LOGIN_TO_HOST: Leg = Leg {
    at: 0,
    options: 0,
    service: HOST,
    from: None,
};

const TO_HOST: Leg = Leg {
    at: 120,
    options: 0,
    service: HOST,
    from: None,
};

/// A path without a fault: a ticket from a TGS-REP.
const TWO_LEGS: Way = Way {
    legs: &[LOGIN, TO_HOST],
    again: None,
    is_cut: false,
    answered: 0,
    nonce: 0,
    key: USER_FIRST,
    keytab: ALL_TYPES,
    presented: 0,
    accepted: 30,
    end: End::Accepted,
    flags: PRE_AUTHENT,
    start: 120,
    expiry: 36_000,
    renew_till: None,
};

/// A ticket from an AS-REP.
const ONE_LEG: Way = Way {
    legs: &[LOGIN_TO_HOST],
    flags: INITIAL | PRE_AUTHENT,
    start: 0,
    ..TWO_LEGS
};

/// Paths of tickets with a lifetime of ten hours, renewable for a week (RFC 4120, sections 2, 3.1.3 and 3.3.3).
const WAYS: &[Way] = &[
    ONE_LEG,
    TWO_LEGS,
    // The same if the KDC kept the reply: the ticket is the first one.
    Way {
        again: Some(1),
        ..TWO_LEGS
    },
    // A renewed service ticket, and a service ticket from a renewed TGT.
    Way {
        legs: &[
            Leg {
                options: RENEWABLE,
                ..LOGIN_TO_HOST
            },
            Leg {
                options: RENEW,
                ..TO_HOST
            },
        ],
        flags: RENEWABLE | PRE_AUTHENT,
        expiry: 36_120,
        renew_till: Some(604_800),
        ..TWO_LEGS
    },
    Way {
        legs: &[
            Leg {
                options: RENEWABLE,
                ..LOGIN
            },
            Leg {
                at: 60,
                options: RENEW,
                ..LOGIN
            },
            TO_HOST,
        ],
        expiry: 36_060,
        ..TWO_LEGS
    },
    // A service ticket from a forwarded TGT.
    Way {
        legs: &[
            Leg {
                options: FORWARDABLE,
                ..LOGIN
            },
            Leg {
                at: 60,
                options: FORWARDABLE | FORWARDED,
                ..LOGIN
            },
            Leg {
                options: FORWARDABLE,
                ..TO_HOST
            },
        ],
        flags: FORWARDABLE | FORWARDED | PRE_AUTHENT,
        ..TWO_LEGS
    },
    // Postdated tickets from an AS-REP and from a TGS-REP, validated at their start.
    Way {
        legs: &[
            Leg {
                options: MAY_POSTDATE | POSTDATED,
                from: Some(7_200),
                ..LOGIN_TO_HOST
            },
            Leg {
                at: 7_200,
                options: VALIDATE,
                ..TO_HOST
            },
        ],
        flags: MAY_POSTDATE | POSTDATED | PRE_AUTHENT,
        start: 7_200,
        expiry: 43_200,
        ..TWO_LEGS
    },
    Way {
        legs: &[
            Leg {
                options: MAY_POSTDATE,
                ..LOGIN
            },
            Leg {
                options: POSTDATED,
                from: Some(7_200),
                ..TO_HOST
            },
            Leg {
                at: 7_200,
                options: VALIDATE,
                ..TO_HOST
            },
        ],
        flags: POSTDATED | PRE_AUTHENT,
        start: 7_200,
        ..TWO_LEGS
    },
];

const ETYPES: &[Etype] = &[
    Etype::Aes128CtsHmacSha1_96,
    Etype::Aes256CtsHmacSha1_96,
    Etype::Aes128CtsHmacSha256_128,
    Etype::Aes256CtsHmacSha384_192,
];

const MUTUAL: Choice = Choice {
    tgs_subkey: false,
    subkey: false,
    mutual_required: true,
    first: 216,
    ap_rep: None,
};

const CHOICES: &[Choice] = &[
    Choice {
        mutual_required: false,
        ..MUTUAL
    },
    Choice {
        tgs_subkey: true,
        subkey: true,
        mutual_required: false,
        ..MUTUAL
    },
    Choice {
        tgs_subkey: true,
        ..MUTUAL
    },
    Choice {
        subkey: true,
        ..MUTUAL
    },
];

#[test]
fn what_the_kdc_issues_the_service_accepts(rt: HostRuntime) -> Result<(), Fail> {
    for reply in ETYPES {
        for service in ETYPES {
            for choice in CHOICES {
                let types = Types {
                    reply: *reply,
                    service: *service,
                };
                are_ended(rt.alloc(), WAYS, types, choice)?;
            }
        }
    }
    Ok(())
}

/// The AP-REP of a service whose confounder counts up from `first`. It answers an authenticator of midnight and 7
/// microseconds; the bytes of the session key count up from 0. It comes from an independent program in Python.
const AP_REPS: &[(Etype, Choice)] = &[
    (
        Etype::Aes128CtsHmacSha1_96,
        Choice {
            first: 216,
            ap_rep: Some(
                "\
                6f51304fa003020105a10302010fa2433041a003020111a23a0438da7b72b8606de0dff9d6f01568dbf0e17437f7d18e\
                aaec4ce31b19311d6565cad28523a46b37a18c045db35b6fc0fc93f661f2408f5c7fab",
            ),
            ..MUTUAL
        },
    ),
    (
        Etype::Aes256CtsHmacSha1_96,
        Choice {
            first: 216,
            ap_rep: Some(
                "\
                6f51304fa003020105a10302010fa2433041a003020112a23a04387cb524212d2a3d9e46ed4cbd80e066d461ac36a71b\
                0e1274fd8bc8fe732186a7e9646cf643598f06fd39dfea39d8caf24ca8875a244eb008",
            ),
            ..MUTUAL
        },
    ),
    (
        Etype::Aes256CtsHmacSha1_96,
        Choice {
            first: 232,
            ap_rep: Some(
                "\
                6f51304fa003020105a10302010fa2433041a003020112a23a0438f08bec3f69059c13a3d821419a27925f1c740e48fb\
                5148a736251995c4b216bad244c38e4c82d8a95249567f40b3f3c5470bddb01e5e7bfa",
            ),
            ..MUTUAL
        },
    ),
    (
        Etype::Aes128CtsHmacSha256_128,
        Choice {
            first: 216,
            ap_rep: Some(
                "\
                6f553053a003020105a10302010fa2473045a003020113a23e043c8b277a838e20b5fc2b0b2f7371a27a76688d27cd58\
                3a471b0a44cff900bae1d066a1a96e395d0f6fd49a760087703e0370d4d681543b6d74a88328d3",
            ),
            ..MUTUAL
        },
    ),
    (
        Etype::Aes256CtsHmacSha384_192,
        Choice {
            first: 216,
            ap_rep: Some(
                "\
                6f5d305ba003020105a10302010fa24f304da003020114a24604447550a6d546b7a399cf026ee2248cbc59f39d2cc956\
                7f8aa3ce9077094b5efe6a741c3df8329dbd16db3cda4899488f3a71948765919923aadcce7780b57cb9e0dff7e34e",
            ),
            ..MUTUAL
        },
    ),
];

/// The path of these.
const ANSWERED: &[Way] = &[ONE_LEG];

#[test]
fn a_service_answers_by_its_own_confounder(rt: HostRuntime) -> Result<(), Fail> {
    for (etype, choice) in AP_REPS {
        are_ended(rt.alloc(), ANSWERED, Types::alike(*etype), choice)?;
    }
    Ok(())
}

/// The path with one leg, where the client presents the ticket after a minute.
const SHORT: Way = Way {
    keytab: OWN,
    presented: 60,
    accepted: 60,
    ..ONE_LEG
};

/// Paths that end early: who rejects the ticket, and why (RFC 4120, sections 3.1.3, 3.1.5 and 3.2.3). The ticket has a
/// lifetime of ten hours, and the clock skew is 300 seconds.
const ENDS: &[Way] = &[
    SHORT,
    // The KDC does not answer, or refuses a timestamp that is too old.
    Way {
        is_cut: true,
        end: End::NoReply,
        ..SHORT
    },
    Way {
        answered: 300,
        presented: 360,
        accepted: 360,
        start: 300,
        expiry: 36_300,
        ..SHORT
    },
    Way {
        answered: 301,
        presented: 361,
        accepted: 361,
        end: End::NotTaken(Outcome::Refused(37, None)),
        ..SHORT
    },
    // The client rejects the reply.
    Way {
        nonce: 1,
        end: End::NotTaken(Outcome::Differs(Mismatch::Nonce)),
        ..SHORT
    },
    Way {
        key: 65,
        end: End::NotTaken(Outcome::CannotOpen),
        ..SHORT
    },
    // The keytab of the service lacks the key.
    Way {
        keytab: OF_TGS,
        end: End::NotAccepted(ApFault::Refused(ApRefusal::NotForUs)),
        ..SHORT
    },
    Way {
        keytab: OTHER_TYPE,
        end: End::NotAccepted(ApFault::Refused(ApRefusal::NoKey)),
        ..SHORT
    },
    Way {
        keytab: OTHER_VERSION,
        end: End::NotAccepted(ApFault::Refused(ApRefusal::BadKeyVersion)),
        ..SHORT
    },
    Way {
        keytab: OTHER_KEY,
        end: End::NotAccepted(ApFault::Refused(ApRefusal::TicketNotOpened)),
        ..SHORT
    },
    // The authenticator is too old, or too new.
    Way {
        accepted: 360,
        ..SHORT
    },
    Way {
        accepted: 361,
        end: End::NotAccepted(ApFault::Refused(ApRefusal::Skewed)),
        ..SHORT
    },
    Way {
        presented: 361,
        end: End::NotAccepted(ApFault::Refused(ApRefusal::Skewed)),
        ..SHORT
    },
    // The AP-REQ comes twice.
    Way {
        again: Some(0),
        end: End::NotAccepted(ApFault::Refused(ApRefusal::Repeated)),
        ..SHORT
    },
    // The ticket is not valid yet, or no longer.
    Way {
        legs: &[Leg {
            options: MAY_POSTDATE | POSTDATED,
            from: Some(7_200),
            ..LOGIN_TO_HOST
        }],
        end: End::NotAccepted(ApFault::Refused(ApRefusal::NotYetValid)),
        ..SHORT
    },
    Way {
        presented: 36_300,
        accepted: 36_300,
        ..SHORT
    },
    Way {
        presented: 36_301,
        accepted: 36_301,
        end: End::NotAccepted(ApFault::Refused(ApRefusal::TicketExpired)),
        ..SHORT
    },
];

// Passes if any one allocation of `end_to_end` fails.
#[test]
fn a_path_ends_at_its_first_fault(rt: HostRuntime) -> Result<(), Fail> {
    let etype = Etype::Aes256CtsHmacSha1_96;
    are_ended(rt.alloc(), ENDS, Types::alike(etype), &MUTUAL)
}
