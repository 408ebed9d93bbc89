//! The errors of a client: what went wrong, and which file, KDC or word it concerns.
ghost use Rattle.std.specs.Prelude.{◌≡◌, IfOk, Ok};

use client_login::{KdcPlace, Kdcs, LoginError, TicketError};
use cred_files::CredError;
use file_store::{FileError, PathError};
use krb_fields::{NameFault, component_to_text, numbers};
use std::alloc::{AllocError, AllocFailed, Global};
use std::net::SocketAddr;
use std::{fmt, io};

/// An error of a client. It names the file, the KDC or the word that it concerns.
#[derive(Drop)]
pub struct ClientError {
    /// A file, KDCs or a word. Absent if memory ran out, or if the cause itself says what it concerns.
    pub subject: Option<String>,
    /// What went wrong. A message has it after the subject.
    pub cause: StepError,
}

/// What went wrong in a step of a client.
#[derive(Clone, Copy)]
pub enum StepError {
    /// A word of the command line, or a variable of the environment, has a form that is not accepted. The text says so.
    Usage(&'static str),
    /// A text is not the name of a principal.
    BadName,
    /// A file can't be read or written, or is refused.
    File(FileError),
    /// The line with a password has more than 1,024 bytes.
    LongPassword,
    /// The contents of a cache are invalid, or lack what is needed.
    Cache(CredError),
    /// The contents of a keytab are invalid, or lack what is needed.
    Keytab(CredError),
    /// There is no cache.
    NoCache,
    /// The cache belongs to another user, or others may write it.
    NotOurs,
    /// A service has another realm than the cache.
    OtherRealm,
    /// The cache's ticket-granting ticket ended at this second since 1970.
    Ended(i64),
    /// The ticket-granting ticket is not renewable.
    NotRenewable,
    /// The client has not logged in.
    NoLogin,
    /// The keytab has no key of the client's realm, or the first one is the client's own.
    NoService,
    /// A `krb5.conf` names no default realm.
    NoRealm,
    /// The default realm of a `krb5.conf` is invalid.
    BadRealm,
    /// A setting of a `krb5.conf` has a value that is not accepted. The text says which values are.
    BadSetting(&'static str),
    /// A `krb5.conf` has no KDC of the realm.
    NoKdc,
    /// No host that is named as a KDC has a known address.
    NotAnAddress,
    /// A login got no ticket.
    Login(LoginError),
    /// A login with a keytab got no ticket, perhaps because the keytab's key is an old one.
    OldKey(LoginError),
    /// No KDC replied: the error of the last one, and how many messages got no reply.
    Silent(io::Error, u64),
    /// Memory ran out.
    Memory,
}

impl StepError {
    /// Returns the cause for an error of a keytab.
    pub(crate) fn of_keytab(fault: CredError) -> StepError {
        match fault {
            CredError::Memory => StepError::Memory,
            fault => StepError::Keytab(fault),
        }
    }

    /// Returns the cause for a login with a keytab. If the key is to blame, the cause is `OldKey`.
    pub fn by_keytab(self) -> StepError {
        match self {
            StepError::Login(why) if is_keys(why) => StepError::OldKey(why),
            cause => cause,
        }
    }
}

/// Checks whether a login got no ticket because of the client's key.
fn is_keys(why: LoginError) -> bool {
    match why {
        LoginError::Refused(error) => error.code == numbers::KDC_ERR_PREAUTH_FAILED,
        LoginError::CannotOpen => true,
        _ => false,
    }
}

impl ClientError {
    /// Returns the usage error with this text.
    pub fn usage(text: &'static str) -> ClientError {
        ClientError {
            subject: None,
            cause: StepError::Usage(text),
        }
    }

    /// Returns the error with this subject and cause. It copies the subject.
    pub fn new(alloc: Global, subject: &str, cause: StepError) -> ClientError {
        match String::from_str(alloc, subject) {
            Ok(subject) => ClientError::of(subject, cause),
            Err(error) => ClientError::from(error),
        }
    }

    /// Returns the error with this subject and cause.
    pub fn of(subject: String, cause: StepError) -> ClientError {
        match cause {
            StepError::Memory => ClientError::from(AllocError),
            _ => ClientError {
                subject: Some(subject),
                cause,
            },
        }
    }

    /// Returns a copy of the error.
    pub fn copy(&self, alloc: Global) -> ClientError {
        match &self.subject {
            Some(subject) => ClientError::new(alloc, subject.as_str(), self.cause),
            None => ClientError {
                subject: None,
                cause: self.cause,
            },
        }
    }

    /// Returns the error for a file that can't be read or written, or is refused.
    pub fn of_file(alloc: Global, fault: PathError<'_>) -> ClientError {
        ClientError::new(alloc, fault.path, StepError::File(fault.cause))
    }

    /// Returns the error for a login that got no ticket. Its subject is the KDC whose reply says so, all KDCs if none
    /// replied, or else `source`: the keytab, the cache or the service.
    pub fn of_login<X>(
        alloc: Global,
        kdcs: &Kdcs<X>,
        source: &str,
        fault: TicketError,
    ) -> ClientError {
        match login_fault(alloc, kdcs, source, fault) {
            Ok(fault) => fault,
            Err(error) => ClientError::from(error),
        }
    }
}

/// Returns the value, or the error with this subject.
pub fn at<T: Drop>(
    alloc: Global,
    subject: &str,
    found: Result<T, StepError>,
) -> Result<T, ClientError>
    ensures { IfOk result (λ value. found ≡ Ok value) }
{
    match found {
        Ok(value) => Ok(value),
        Err(cause) => Err(ClientError::new(alloc, subject, cause)),
    }
}

/// Returns the value, or the error with the file as its subject.
pub fn at_file<T: Drop>(alloc: Global, done: Result<T, PathError<'_>>) -> Result<T, ClientError>
    ensures { IfOk result (λ value. done.entry ≡ Ok value) }
{
    match done {
        Ok(value) => Ok(value),
        Err(fault) => Err(ClientError::of_file(alloc, fault)),
    }
}

/// Returns the password that was read from a source, or the error with the source as its subject.
pub fn at_password(
    alloc: Global,
    source: &str,
    read: Result<Option<Vec<u8>>, PathError<'_>>,
) -> Result<Vec<u8>, ClientError> {
    match at_file(alloc, read)? {
        Some(pass) => Ok(pass),
        None => Err(ClientError::new(alloc, source, StepError::LongPassword)),
    }
}

/// Returns the error for a login that got no ticket.
fn login_fault<X>(
    alloc: Global,
    kdcs: &Kdcs<X>,
    source: &str,
    fault: TicketError,
) -> Result<ClientError, AllocError> {
    match fault.why {
        LoginError::Memory => Err(AllocError),
        LoginError::Silence(error) => silence(alloc, kdcs, error),
        why => Ok(ClientError::of(blamed(alloc, source, fault)?, StepError::Login(why))),
    }
}

/// Returns the subject of a login's error: the KDC that the error names, or else the source. If a keytab lacks a key of
/// the types that the KDC names, the subject is the keytab.
fn blamed(alloc: Global, source: &str, fault: TicketError) -> Result<String, AllocError> {
    match (fault.why, fault.kdc) {
        (LoginError::NoKey, _) => String::from_str(alloc, source),
        (_, Some(kdc)) => format!(in alloc; "{kdc}"),
        (_, None) => String::from_str(alloc, source),
    }
}

/// Returns the error for KDCs that don't reply, or whose addresses are unknown.
fn silence<X>(alloc: Global, kdcs: &Kdcs<X>, error: io::Error) -> Result<ClientError, AllocError> {
    let addresses = addresses_text(alloc, &kdcs.places)?;
    let unknown = unknown_hosts(alloc, &kdcs.places)?;
    if addresses.is_empty() && !unknown.is_empty() {
        return Ok(ClientError::of(unknown, StepError::NotAnAddress));
    }
    Ok(ClientError::of(addresses, StepError::Silent(error, kdcs.failures())))
}

/// Returns the known addresses of KDCs, with a comma between two.
fn addresses_text(alloc: Global, places: &[KdcPlace]) -> Result<String, AllocError> {
    let mut text = String::new(alloc);
    for place in places {
        push_addresses(&mut text, place.addresses())?;
    }
    Ok(text)
}

fn push_addresses(text: &mut String, addresses: &[SocketAddr]) -> Result<(), AllocError> {
    for address in addresses {
        begin_item(text)?;
        write!(text, "{address}")?;
    }
    Ok(())
}

/// Returns the names of the hosts that were looked up and have no address, with a comma between two.
pub fn unknown_hosts(alloc: Global, places: &[KdcPlace]) -> Result<String, AllocError> {
    let mut text = String::new(alloc);
    for place in places {
        if let Some(host) = place.unknown_host() {
            begin_item(&mut text)?;
            text.push_str(component_to_text(alloc, host.as_bytes())?.as_str())?;
        }
    }
    Ok(text)
}

/// Separates an item of a list from those before it.
fn begin_item(list: &mut String) -> Result<(), AllocError> {
    if list.is_empty() {
        return Ok(());
    }
    list.push_str(", ")
}

impl From<AllocError> for ClientError {
    fn from(_: AllocError) -> ClientError {
        ClientError {
            subject: None,
            cause: StepError::Memory,
        }
    }
}

impl<T: Drop> From<AllocFailed<T>> for ClientError {
    fn from(_: AllocFailed<T>) -> ClientError {
        ClientError::from(AllocError)
    }
}

impl From<AllocError> for StepError {
    fn from(_: AllocError) -> StepError {
        StepError::Memory
    }
}

/// An error of a cache, unless it is that memory ran out.
impl From<CredError> for StepError {
    fn from(fault: CredError) -> StepError {
        match fault {
            CredError::Memory => StepError::Memory,
            fault => StepError::Cache(fault),
        }
    }
}

impl From<NameFault> for StepError {
    fn from(fault: NameFault) -> StepError {
        match fault {
            NameFault::BadName => StepError::BadName,
            NameFault::Memory => StepError::Memory,
        }
    }
}

/// Writes the subject, if there is one, and the cause.
impl fmt::Display for ClientError {
    fn fmt<W: fmt::Write>(&self, f: &mut fmt::Formatter<W>) -> fmt::Result {
        match &self.subject {
            Some(subject) => write!(f, "{subject}: {}", self.cause),
            None => write!(f, "{}", self.cause),
        }
    }
}
