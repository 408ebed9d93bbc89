//! Reading the words of a command line.
ghost use Rattle.std.specs.Prelude.{◌≡◌, IfOk, None};
ghost use Rattle.krb_fields.specs.NameText.{IsComponentText, IsNameText};
ghost use Rattle.kclient.specs.Given.{AreClientWords};
ghost use Rattle.command_line.specs.Values.{texts};
ghost use Rattle.kclient.specs.Words.{listed, name_in, realm_in, text_of};

use crate::commands::Command;
use crate::context::NO_WORD;
use crate::options::asks_for_first;
use crate::values::NAME;
use clap::ArgMatches;
use client_files::{ClientError, NameOf, StepError, file_path};
use client_login::TicketRequest;
use file_store::STANDARD_INPUT;
use krb_elements::KerberosString;
use krb_fields::{Name, component_from_text};
use std::alloc::{AllocError, Global};
use text_fields::{lifetime, number_u32};

/// The words for a first ticket.
#[derive(Clone, Copy)]
pub(crate) struct FirstWords<'a> {
    pub secret: SecretWords<'a>,
    /// The name of the service. Without one it is the ticket-granting service.
    pub service: Option<&'a str>,
    /// The fewest iterations of string-to-key. Without a number each encryption type has its default.
    pub least_count: Option<u32>,
    pub request: TicketRequest,
}

/// The words for a client.
#[derive(Clone, Copy)]
pub(crate) struct ClientWords<'a> {
    /// The option of the name; empty if it is a plain word.
    pub option: &'static str,
    /// The client's name as it was given, perhaps with its realm.
    pub given: &'a str,
    pub name: &'a str,
    /// The realm's name. Without one it is the default realm.
    pub realm: Option<&'a str>,
    /// Whether the realm is the value of `--realm`.
    pub has_realm_option: bool,
}

/// Where the client's key is, or the password that it is derived from.
#[derive(Clone, Copy)]
pub(crate) enum SecretWords<'a> {
    /// The path of the password's file.
    PasswordFile(&'a str),
    /// The path of the keytab.
    Keytab(&'a str),
    /// The password is a line of standard input.
    Asked,
}

impl<'a> SecretWords<'a> {
    /// Returns the file that the client's key comes from, or what stands for it.
    pub(crate) fn source(self) -> &'a str {
        match self {
            SecretWords::PasswordFile(path) | SecretWords::Keytab(path) => path,
            SecretWords::Asked => STANDARD_INPUT,
        }
    }

    /// Returns the error of a login with this secret. A keytab's key may be an old one.
    pub(crate) fn explained(self, fault: ClientError) -> ClientError {
        match self {
            SecretWords::Keytab(_) => ClientError {
                subject: fault.subject,
                cause: fault.cause.by_keytab(),
            },
            _ => fault,
        }
    }
}

// The text after `error:` if options don't go together, or a value is invalid.

const NO_LIFE: &str =
    "--life takes seconds, 0 to 4294967295, or minutes, hours or days, as 30m, 8h or 7d";

const NO_START: &str =
    "--start takes seconds, 0 to 4294967295, or minutes, hours or days, as 30m, 8h or 7d";

const TWO_REALMS: &str = "--realm and a realm behind the client's name don't go together";

const TWO_NAMES: &str = "a plain word and --name don't go together: both are the client";

const NO_COUNT: &str = "--least-count takes a number, 0 to 4294967295";

/// The text if no word names the client, and there is no cache.
pub(crate) const NO_NAME: &str =
    "the client's name is missing: it is a plain word, or follows --name";

/// The text if no word names a service.
pub(crate) const NO_SERVICE: &str =
    "the name of a service is missing: it is a plain word, or follows --name";

const TWO_SECRETS: &str = "--password-file and --keytab don't go together";

const NO_FIRST: &str = "\
--renew and --validate take the ticket of the cache: no option of a first ticket goes with them";

/// Returns the path of a keytab, if one is named.
pub(crate) fn keytab_path<'a>(options: &ArgMatches<'a>) -> Result<Option<&'a str>, ClientError> {
    match options.get_str("keytab") {
        Some(name) => Ok(Some(file_path(name, NameOf::Keytab)?)),
        None => Ok(None),
    }
}

/// Checks that no option of a first ticket stands beside `--renew` or `--validate`.
pub(crate) fn check_renewal(options: &ArgMatches<'_>) -> Result<(), ClientError> {
    if asks_for_first(options) {
        return Err(ClientError::usage(NO_FIRST));
    }
    Ok(())
}

/// Returns the words for a first ticket.
pub(crate) fn first_words<'a>(options: &ArgMatches<'a>) -> Result<FirstWords<'a>, ClientError> {
    Ok(FirstWords {
        secret: secret_words(options)?,
        service: options.get_str("service"),
        least_count: number_in(options, "least-count").ok_or(ClientError::usage(NO_COUNT))?,
        request: ticket_request(options)?,
    })
}

/// Returns the words for the client of `kinit`, if they name one.
#[tactic(auto, using(crate::proofs::Giving::no_words, crate::proofs::Giving::some_words))]
pub(crate) fn client_words<'a>(
    command: &Command<'a>,
    options: &ArgMatches<'_>,
) -> Result<Option<ClientWords<'a>>, ClientError>
    ensures { IfOk result (λ client.
        AreClientWords (texts command.now.names.items) (text_of command.now.realm) client) }
{
    let Some(given) = one_name(&command.names)? else {
        return no_client(command.realm);
    };
    let option = option_of_name(options);
    Ok(Some(named_client(option, given, command.realm)?))
}

/// Returns no words for a client. Fails if there is a realm without a name.
fn no_client<'a>(realm: Option<&str>) -> Result<Option<ClientWords<'a>>, ClientError>
    ensures { IfOk result (λ client. client ≡ None) }
{
    if realm.is_some() {
        return Err(ClientError::usage(NO_NAME));
    }
    Ok(None)
}

/// Returns the option of the client's name; it is empty if the name is a plain word.
fn option_of_name(options: &ArgMatches<'_>) -> &'static str {
    if options.get_str("name").is_some() {
        NAME
    } else {
        ""
    }
}

/// Returns the only name, if there is one.
#[tactic(auto, using(crate::proofs::Giving::only_listed))]
fn one_name<'a>(names: &[&'a str]) -> Result<Option<&'a str>, ClientError>
    ensures { IfOk result (λ name. listed (text_of name) ≡ texts names.now) }
{
    if names.len() > 1 {
        return Err(ClientError::usage(TWO_NAMES));
    }
    Ok(names.first().copied())
}

/// Returns the words for a client with this name. Its realm follows an `@`, or `--realm`.
fn named_client<'a>(
    option: &'static str,
    given: &'a str,
    realm: Option<&'a str>,
) -> Result<ClientWords<'a>, ClientError>
    ensures given { IfOk result (λ client. client.given.now ≡ given.now) }
    ensures name { IfOk result (λ client. client.name.now ≡ name_in given.now) }
    ensures realm { IfOk result (λ client. text_of client.realm ≡ realm_in given.now (text_of realm.entry)) }
{
    let has_realm_option = realm.is_some();
    match given.split_once('@') {
        Some(_) if has_realm_option => Err(ClientError::usage(TWO_REALMS)),
        Some((name, realm)) => Ok(ClientWords {
            option,
            given,
            name,
            realm: Some(realm),
            has_realm_option,
        }),
        None => Ok(ClientWords {
            option,
            given,
            name: given,
            realm,
            has_realm_option,
        }),
    }
}

fn secret_words<'a>(options: &ArgMatches<'a>) -> Result<SecretWords<'a>, ClientError> {
    match (options.get_str("password-file"), keytab_path(options)?) {
        (Some(_), Some(_)) => Err(ClientError::usage(TWO_SECRETS)),
        (Some(path), None) => Ok(SecretWords::PasswordFile(path)),
        (None, Some(path)) => Ok(SecretWords::Keytab(path)),
        (None, None) => Ok(SecretWords::Asked),
    }
}

fn ticket_request(options: &ArgMatches<'_>) -> Result<TicketRequest, ClientError> {
    Ok(TicketRequest {
        lifetime: seconds_in(options, "life").ok_or(ClientError::usage(NO_LIFE))?,
        start: seconds_in(options, "start").ok_or(ClientError::usage(NO_START))?,
        renewable: options.get_flag("renewable"),
        renew_lifetime: None,
        forwardable: options.get_flag("forwardable"),
        proxiable: options.get_flag("proxiable"),
    })
}

/// Returns the request with what a `krb5.conf` asks for where no word says it.
pub(crate) fn with_configured(words: TicketRequest, configured: TicketRequest) -> TicketRequest {
    TicketRequest {
        lifetime: words.lifetime.or(configured.lifetime),
        start: words.start,
        renewable: words.renewable || configured.renewable,
        renew_lifetime: if words.renewable {
            None
        } else {
            configured.renew_lifetime
        },
        forwardable: words.forwardable || configured.forwardable,
        proxiable: words.proxiable || configured.proxiable,
    }
}

/// Returns the number after an option, which may be absent; `None` if the word is not a number.
fn number_in(options: &ArgMatches<'_>, name: &str) -> Option<Option<u32>> {
    match options.get_str(name) {
        Some(text) => Some(Some(number_u32(text)?)),
        None => Some(None),
    }
}

/// Returns the seconds after an option, which may be absent; `None` if the word is not a time.
fn seconds_in(options: &ArgMatches<'_>, name: &str) -> Option<Option<u32>> {
    match options.get_str(name) {
        Some(text) => Some(Some(lifetime(text)?)),
        None => Some(None),
    }
}

/// Reads the name in the word after an option. The subject of an error is the option and the whole word.
pub(crate) fn read_name(
    alloc: Global,
    option: &str,
    word: &str,
    text: &str,
) -> Result<Name, ClientError>
    ensures { IfOk result (λ name. IsNameText name.components text.now) }
{
    match Name::from_text(alloc, text) {
        Ok(name) => Ok(name),
        Err(fault) => Err(word_fault(alloc, option, word, StepError::from(fault))),
    }
}

/// Reads the realm in the word after an option.
pub(crate) fn read_realm(
    alloc: Global,
    option: &str,
    word: &str,
    text: &str,
) -> Result<KerberosString, ClientError>
    ensures { IfOk result (λ realm. IsComponentText realm text.now) }
{
    match component_from_text(alloc, text) {
        Ok(realm) => Ok(realm),
        Err(fault) => Err(word_fault(alloc, option, word, StepError::from(fault))),
    }
}

/// Returns the error for a word. Its subject is the option and the word, or the option alone if the word is empty. A
/// plain word has no option.
pub(crate) fn word_fault(alloc: Global, option: &str, word: &str, cause: StepError) -> ClientError {
    match word_text(alloc, option, word) {
        Ok(subject) => ClientError::of(subject, cause),
        Err(error) => ClientError::from(error),
    }
}

fn word_text(alloc: Global, option: &str, word: &str) -> Result<String, AllocError> {
    match (option.is_empty(), word.is_empty()) {
        (true, true) => String::from_str(alloc, NO_WORD),
        (true, false) => String::from_str(alloc, word),
        (false, true) => String::from_str(alloc, option),
        (false, false) => format!(in alloc; "{option} {word}"),
    }
}
