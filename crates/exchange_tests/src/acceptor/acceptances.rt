//! Tests of the answers of an acceptor.
use crate::acceptor::made::{Made, is_as_made};
use crate::acceptor::made_by_mit::{KEYTAB, MADE, MADE_AT};
use crate::acceptor::requests::{CODES, FULL, LATER_CODES, MADE_IN_PYTHON, MUTUAL, SECOND, TWICE};
use crate::asking::{MIDNIGHT, moment};
use crate::fixtures::{BEGIN, END, JUDGED, mark, octets, up};
use crate::services::{OTHER_TYPE, OWN, keytab, opened};
use ap_accept::{Accepted, Acceptor, ApFault, ApRefusal};
use krb_fields::Moment;
use std::alloc::Global;
use std::test::Fail;

/// AP-REQs that come to one acceptor, one after the other.
struct Trial {
    /// The keytab in hexadecimal digits.
    keytab: &'static str,
    /// The places for each client in the replay cache.
    remembered: u32,
    /// When they come, in seconds after the start of 2024.
    after: i64,
    /// Those that are accepted once.
    made: &'static [Made],
    /// More of them, each with the code of its refusal, or 0.
    codes: &'static [(i32, &'static str)],
}

/// No AP-REQs.
const NONE: Trial = Trial {
    keytab: OWN,
    remembered: 64,
    after: 0,
    made: &[],
    codes: &[],
};

// A table that a function names costs its proof the more the longer its texts are together, so each test has its own.

const MADE_TRIALS: &[Trial] = &[
    Trial {
        keytab: KEYTAB,
        after: MADE_AT - MIDNIGHT,
        made: MADE,
        ..NONE
    },
    Trial {
        made: MADE_IN_PYTHON,
        ..NONE
    },
];

const CODE_TRIALS: &[Trial] = &[Trial {
    codes: CODES,
    ..NONE
}];

const LATER_TRIALS: &[Trial] = &[Trial {
    codes: LATER_CODES,
    ..NONE
}];

const CACHE_TRIALS: &[Trial] = &[
    Trial {
        remembered: 1,
        codes: FULL,
        ..NONE
    },
    // If memory runs out, the replay cache is unchanged, and the same AP-REQ is accepted afterwards.
    Trial {
        codes: TWICE,
        ..NONE
    },
];

/// Returns the fault, or whether the contents are these, if there are any.
fn compared(
    alloc: Global,
    found: Result<Accepted, ApFault>,
    made: Option<&Made>,
) -> Result<bool, ApFault> {
    match found {
        Ok(accepted) => match made {
            Some(made) => Ok(is_as_made(alloc, &accepted, made)),
            None => Ok(true),
        },
        Err(fault) => Err(fault),
    }
}

/// Inverts the lowest bit of a byte.
fn flip(octets: &mut [u8], place: usize) {
    if let Some(octet) = octets.get_mut(place) {
        *octet ^= 1;
    }
}

/// An acceptor, and the moment at which AP-REQs come to it.
#[derive(Drop)]
struct Service {
    alloc: Global,
    acceptor: Acceptor,
    at: Moment,
}

impl Service {
    /// Returns why an AP-REQ is not accepted, or whether its contents are these, if there are any. The confounder of an
    /// AP-REP is the bytes 48 to 63.
    fn answer(&mut self, octets: &[u8], made: Option<&Made>) -> Result<bool, ApFault> {
        let (alloc, at) = (self.alloc, self.at);
        let found = self.acceptor.accept(alloc, at, &up(48), octets);
        compared(alloc, found, made)
    }

    /// Answers like `answer`, by a second call if memory ran out in the first one.
    fn answer_at_last(&mut self, octets: &[u8], made: Option<&Made>) -> Result<bool, ApFault> {
        let (alloc, at) = (self.alloc, self.at);
        mark(alloc, BEGIN);
        let found = self.acceptor.accept(alloc, at, &up(48), octets);
        mark(alloc, END);
        match found {
            Err(ApFault::Memory) => self.answer(octets, made),
            found => compared(alloc, found, made),
        }
    }

    /// Checks whether this rule refuses the AP-REQ with any one byte of the cipher changed.
    fn is_sealed(
        &mut self,
        octets: &mut [u8],
        (start, end): (usize, usize),
        rule: ApRefusal,
    ) -> bool {
        for place in start..end {
            flip(octets, place);
            let found = self.answer(octets, None);
            flip(octets, place);
            if found != Err(ApFault::Refused(rule)) {
                return false;
            }
        }
        start < end
    }

    /// Checks whether no proper prefix is an AP-REQ.
    fn is_whole(&mut self, octets: &[u8]) -> bool {
        for end in 0..octets.len() {
            let found = self.answer(&octets[..end], None);
            if found != Err(ApFault::NotAnApReq) {
                return false;
            }
        }
        true
    }

    /// Checks whether an AP-REQ is accepted once. If `changed`, parts of it and changed ones come first.
    fn is_judged(&mut self, made: &Made, changed: bool) -> Result<bool, Fail> {
        let (ticket, authenticator) = (made.ticket_cipher, made.authenticator_cipher);
        let mut octets = octets(self.alloc, made.ap_req)?;
        let is_safe = !changed
            || self.is_sealed(&mut octets, ticket, ApRefusal::TicketNotOpened)
                && self.is_sealed(
                    &mut octets,
                    authenticator,
                    ApRefusal::AuthenticatorNotOpened,
                )
                && self.is_whole(&octets);
        let repeated = Err(ApFault::Refused(ApRefusal::Repeated));
        Ok(
            is_safe
                && self.answer_at_last(&octets, Some(made)) == Ok(true)
                && self.answer_at_last(&octets, None) == repeated,
        )
    }

    /// Returns the code of a refusal, or 0.
    fn code(&mut self, digits: &str) -> Result<i32, Fail> {
        let octets = octets(self.alloc, digits)?;
        Ok(match self.answer_at_last(&octets, None) {
            Ok(_) => 0,
            Err(ApFault::Refused(refusal)) => refusal.code().number(),
            Err(_) => -1,
        })
    }

    /// Checks whether the acceptor answers as it has to.
    fn passes(&mut self, trial: &Trial, changed: bool) -> Result<bool, Fail> {
        for made in trial.made {
            if !self.is_judged(made, changed)? {
                return Ok(false);
            }
            mark(self.alloc, JUDGED);
        }
        for (wanted, digits) in trial.codes {
            if self.code(digits)? != *wanted {
                return Ok(false);
            }
            mark(self.alloc, JUDGED);
        }
        Ok(true)
    }

    /// Checks whether the codes stay right while the keys are replaced.
    fn is_rotated(&mut self) -> Result<bool, Fail> {
        for (digits, codes) in ROTATION {
            self.acceptor.replace(keytab(self.alloc, digits)?);
            for (wanted, ap_req) in *codes {
                if self.code(ap_req)? != *wanted {
                    return Ok(false);
                }
            }
        }
        Ok(true)
    }
}

/// Checks whether a new acceptor answers as it has to. Only this function owns one.
fn is_passed(alloc: Global, trial: &Trial, changed: bool) -> Result<bool, Fail> {
    let mut service = Service {
        alloc,
        acceptor: opened(alloc, trial.keytab, trial.remembered)?,
        at: moment(trial.after, 0),
    };
    service.passes(trial, changed)
}

fn are_passed(alloc: Global, trials: &[Trial]) -> Result<(), Fail> {
    for (place, trial) in trials.iter().enumerate() {
        for changed in [false, true] {
            if !is_passed(alloc, trial, changed)? {
                return Err(Fail::new(place));
            }
        }
    }
    Ok(())
}

/// Keytabs that replace one another, each with AP-REQs and the codes of their refusals, or 0.
const ROTATION: &[(&str, &[(i32, &str)])] = &[
    (OWN, &[(0, MUTUAL)]),
    (OTHER_TYPE, &[(45, MUTUAL), (45, SECOND)]),
    (OWN, &[(34, MUTUAL), (0, SECOND), (34, SECOND)]),
];

#[test]
fn a_rotation_of_keys_keeps_the_replay_caches(rt: HostRuntime) -> Result<(), Fail> {
    let mut service = Service {
        alloc: rt.alloc(),
        acceptor: opened(rt.alloc(), OTHER_TYPE, 64)?,
        at: moment(0, 0),
    };
    if !service.is_rotated()? {
        return Err(Fail::from("another code"));
    }
    Ok(())
}

#[test]
fn ap_reqs_are_accepted_once_and_only_unchanged(rt: HostRuntime) -> Result<(), Fail> {
    are_passed(rt.alloc(), MADE_TRIALS)
}

#[test]
fn tickets_are_refused_by_their_rule(rt: HostRuntime) -> Result<(), Fail> {
    are_passed(rt.alloc(), CODE_TRIALS)
}

#[test]
fn authenticators_are_refused_by_their_rule(rt: HostRuntime) -> Result<(), Fail> {
    are_passed(rt.alloc(), LATER_TRIALS)
}

#[test]
fn replay_caches_refuse_repeats_and_new_ones_when_full(rt: HostRuntime) -> Result<(), Fail> {
    are_passed(rt.alloc(), CACHE_TRIALS)
}
