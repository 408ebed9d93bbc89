//! The words for each cause: one word for programs, and a phrase for people.
use crate::faults::StepError;
use client_login::LoginError;
use cred_files::CredError;
use krb_fields::Second;
use principal_keys::keytab_text;
use std::fmt;
use text_fields::UtcDate;

impl StepError {
    /// Returns the word that is printed after `refused`. `None` if something failed, or if a KDC refuses with a code.
    pub fn name(self) -> Option<&'static str> {
        match self {
            StepError::File(cause) => cause.refusal(),
            StepError::Cache(fault) => fault.refusal(),
            StepError::Keytab(fault) => fault.refusal(),
            StepError::Login(why) => login_name(why),
            StepError::OldKey(why) => login_name(why),
            cause => match cause.words() {
                ("", _) => None,
                (name, _) => Some(name),
            },
        }
    }

    /// Returns the word and the phrase. The word is empty if something failed. Both are empty if the error inside has
    /// words of its own.
    fn words(self) -> (&'static str, &'static str) {
        match self {
            StepError::Usage(text) => ("", text),
            StepError::BadName => ("BadName", "it is not a valid name"),
            StepError::LongPassword => ("LongPassword", "the password has more than 1024 bytes"),
            StepError::NoCache => ("Absent", "there is no cache: kinit makes one"),
            StepError::OtherRealm => ("OtherRealm", "its realm is not that of the cache"),
            StepError::NotOurs => (
                "NotOurs",
                "the cache belongs to another user, or other users may write it: \
                 name a cache of your own, or chmod go-w",
            ),
            StepError::Ended(_) => ("Ended", "the ticket-granting ticket has ended: run kinit"),
            StepError::NotRenewable => (
                "NotRenewable",
                "the ticket is not renewable: use kinit --renewable",
            ),
            StepError::NoLogin => (
                "NoLogin",
                "the client has no ticket-granting ticket: log in first",
            ),
            StepError::NoService => (
                "Absent",
                "the keytab has no key of this realm, or the first one is the client's own",
            ),
            StepError::NoRealm => (
                "NoRealm",
                "it has no default_realm in [libdefaults]: add one, or name the realm",
            ),
            StepError::BadRealm => (
                "BadName",
                "its default_realm does not have 1 to 255 bytes: correct it, or name the realm",
            ),
            StepError::BadSetting(text) => ("BadSetting", text),
            StepError::NoKdc => (
                "NoKdc",
                "it has no kdc of this realm: add one, or name the address of a KDC",
            ),
            StepError::NotAnAddress => (
                "NotAnAddress",
                "no address is known: correct the name, or name the address of a KDC",
            ),
            StepError::Memory => ("", "out of memory"),
            StepError::File(_)
            | StepError::Cache(_)
            | StepError::Keytab(_)
            | StepError::Login(_)
            | StepError::OldKey(_)
            | StepError::Silent(..) => ("", ""),
        }
    }
}

/// Returns the phrase for an error of a cache.
fn cache_text(fault: CredError) -> &'static str {
    match fault {
        CredError::BadMagic => "this is not a credential cache of version 4",
        CredError::BadEntry => "a part of the credential is too long for a cache",
        CredError::TooLate =>
            "a cache has room for times from the year 1970 to 2106, and a time of the ticket is another",
        CredError::Absent => "there is no usable ticket-granting ticket of the realm: run kinit",
        fault => fault.text(),
    }
}

/// Returns the word for a login that got no ticket. `None` if a KDC refuses with a code, or if something failed.
fn login_name(why: LoginError) -> Option<&'static str> {
    Some(match why {
        LoginError::NotAskable => "BadName",
        LoginError::NotPresentable
        | LoginError::NoClientKey
        | LoginError::NoKey
        | LoginError::NoServiceKey => "Absent",
        LoginError::NotAReply => "NotAReply",
        LoginError::Mismatch(_) | LoginError::OtherTicket => "Mismatch",
        LoginError::CannotOpen
        | LoginError::SessionCannotOpen
        | LoginError::NoKnownType
        | LoginError::TicketNotOpened => "CannotOpen",
        LoginError::CountTooLarge => "CountTooLarge",
        LoginError::WeakCount => "WeakCount",
        LoginError::TicketNotValid => "NotValid",
        LoginError::Refused(_) | LoginError::Silence(_) | LoginError::Memory => return None,
    })
}

impl fmt::Display for StepError {
    fn fmt<W: fmt::Write>(&self, f: &mut fmt::Formatter<W>) -> fmt::Result {
        match self {
            StepError::File(cause) => write!(f, "{cause}"),
            StepError::Cache(fault) => f.write_str(cache_text(*fault)),
            StepError::Keytab(fault) => f.write_str(keytab_text(*fault)),
            StepError::Ended(end) => write_end(f, *end),
            StepError::Login(why) => write!(f, "{why}"),
            StepError::OldKey(why) => write_old_key(f, *why),
            StepError::Silent(error, failures) => {
                write!(f, "{error} (messages without a reply: {failures})")
            }
            cause => f.write_str(cause.words().1),
        }
    }
}

/// Writes why a login with a keytab got no ticket.
fn write_old_key<W: fmt::Write>(f: &mut fmt::Formatter<W>, why: LoginError) -> fmt::Result {
    match why {
        LoginError::Refused(error) => write!(
            f,
            "error {}: the preauthentication failed: the keytab's key is an old one, or the clocks differ",
            error.code
        ),
        _ => f.write_str(
            "the keytab's key does not decrypt the reply: it is an old one, or it is another KDC",
        ),
    }
}

/// Writes when a ticket-granting ticket ended, if the second is from 1970 on.
fn write_end<W: fmt::Write>(f: &mut fmt::Formatter<W>, end: i64) -> fmt::Result {
    match Second::new(end) {
        Some(end) => write!(
            f,
            "the ticket-granting ticket ended at {}: run kinit",
            UtcDate(end)
        ),
        None => f.write_str(StepError::Ended(end).words().1),
    }
}
