//! What the `[libdefaults]` of a `krb5.conf` say of first tickets, and of the cache.
ghost use Rattle.std.specs.Prelude.{◌≡◌, IfOk, IfSome, codes, option_map, slice_get, string_bytes};
ghost use Rattle.client_files.specs.CachePaths.{IsExpanded, IsSettingCache, token_text};
ghost use Rattle.krb5_conf.specs.Values.{library_values};

use crate::configs::Config;
use crate::faults::{ClientError, StepError};
use crate::file_names::{NameOf, file_path};
use crate::host::path_of_user;
use client_login::TicketRequest;
use std::alloc::{AllocError, Global};
use text_fields::number_u32;

// The text after a setting whose value is not accepted.

const NO_TIME: &str = "it takes a time, such as 36000, 10h, 1d 12h or 10:00:00";

const NO_CHOICE: &str = "it takes true or false";

const NO_TEXT: &str = "it is not UTF-8";

const NO_TOKEN: &str = "of what stands between %{ and } only uid, euid and TEMP are known";

impl Config {
    /// Returns the first ticket that it asks for.
    pub fn ticket_request(&self, alloc: Global) -> Result<TicketRequest, ClientError> {
        let renew_lifetime = self.seconds(alloc, "renew_lifetime")?;
        Ok(TicketRequest {
            lifetime: self.seconds(alloc, "ticket_lifetime")?,
            start: None,
            renewable: renew_lifetime.is_some(),
            renew_lifetime,
            forwardable: self.choice(alloc, "forwardable")?,
            proxiable: self.choice(alloc, "proxiable")?,
        })
    }

    /// Returns the path of the cache that `default_ccache_name` names for a user, or else of the user's own.
    pub fn cache_path(&self, alloc: Global, user: u32) -> Result<String, ClientError>
        // Promise, as Host::cache_path: **the default cache is ..
        ensures { IfOk result (λ path. IsSettingCache user
            (slice_get (library_values (codes "default_ccache_name") self.now) 0) (string_bytes path)) }
    {
        let tag = "default_ccache_name";
        let Some(name) = self.setting_text(alloc, tag)? else {
            return Ok(path_of_user(alloc, user)?);
        };
        match with_tokens(alloc, file_path(name, NameOf::CacheSetting)?, user)? {
            Some(path) => Ok(path),
            None => Err(self.setting_fault(alloc, tag, NO_TOKEN)),
        }
    }

    /// Returns the seconds of a setting. Zero counts as absent, as in MIT's library.
    fn seconds(&self, alloc: Global, tag: &str) -> Result<Option<u32>, ClientError> {
        let Some(text) = self.setting_text(alloc, tag)? else {
            return Ok(None);
        };
        match parse_seconds(text) {
            Some(0) => Ok(None),
            Some(seconds) => Ok(Some(seconds)),
            None => Err(self.setting_fault(alloc, tag, NO_TIME)),
        }
    }

    /// Returns whether a setting is true.
    fn choice(&self, alloc: Global, tag: &str) -> Result<bool, ClientError> {
        let Some(text) = self.setting_text(alloc, tag)? else {
            return Ok(false);
        };
        match parse_choice(text) {
            Some(choice) => Ok(choice),
            None => Err(self.setting_fault(alloc, tag, NO_CHOICE)),
        }
    }

    fn setting_text(&self, alloc: Global, tag: &str) -> Result<Option<&str>, ClientError>
        ensures { IfOk result (λ value.
            option_map (λ text. text.now) value ≡ slice_get (library_values tag.now self.now) 0) }
    {
        let Some(octets) = self.setting(alloc, tag)? else {
            return Ok(None);
        };
        match str::from_utf8(octets) {
            Ok(text) => Ok(Some(text)),
            Err(_) => Err(self.setting_fault(alloc, tag, NO_TEXT)),
        }
    }

    fn setting_fault(&self, alloc: Global, tag: &str, text: &'static str) -> ClientError {
        let path = self.path();
        match format!(in alloc; "{path}: {tag}") {
            Ok(subject) => ClientError::of(subject, StepError::BadSetting(text)),
            Err(error) => ClientError::from(error),
        }
    }
}

/// The words for yes and no, in lower case.
const CHOICES: &[(&str, bool)] = &[
    ("true", true),
    ("t", true),
    ("yes", true),
    ("y", true),
    ("1", true),
    ("on", true),
    ("false", false),
    ("f", false),
    ("no", false),
    ("n", false),
    ("0", false),
    ("off", false),
];

fn parse_choice(text: &str) -> Option<bool> {
    for (word, choice) in CHOICES {
        if text.eq_ignore_ascii_case(word) {
            return Some(*choice);
        }
    }
    None
}

/// Reads a time: seconds; hours, minutes and seconds with colons; or numbers with their units.
fn parse_seconds(text: &str) -> Option<u32> {
    if text.contains(':') {
        return clock_seconds(text);
    }
    match number_u32(text) {
        Some(seconds) => Some(seconds),
        None => unit_seconds(text),
    }
}

/// Reads a time such as `10:00` or `10:00:00`.
fn clock_seconds(text: &str) -> Option<u32> {
    let mut total: u32 = 0;
    let mut unit: u32 = 3_600;
    for part in text.split(':') {
        if unit == 0 {
            return None;
        }
        total = total.checked_add(number_u32(part)?.checked_mul(unit)?)?;
        unit /= 60;
    }
    Some(total)
}

/// The seconds in each unit of time.
const UNITS: &[(char, u32)] = &[('s', 1), ('m', 60), ('h', 3_600), ('d', 86_400)];

/// Reads a time such as `10h` or `1d 12h`.
fn unit_seconds(text: &str) -> Option<u32> {
    let mut total: u32 = 0;
    let mut number: Option<u32> = None;
    for c in text.chars() {
        match c.to_digit(10) {
            Some(digit) => number = Some(number.unwrap_or(0).checked_mul(10)?.checked_add(digit)?),
            None if c == ' ' && number.is_none() => {}
            None => {
                total = total.checked_add(number?.checked_mul(unit_length(c)?)?)?;
                number = None;
            }
        }
    }
    match number {
        None if !text.is_empty() => Some(total),
        _ => None,
    }
}

fn unit_length(c: char) -> Option<u32> {
    for (unit, seconds) in UNITS {
        if *unit == c {
            return Some(*seconds);
        }
    }
    None
}

/// Returns a path with the text for each token such as `%{uid}` in it; `None` if a token is not known.
#[tactic(auto, using(crate::proofs::Tokens::each_token))]
fn with_tokens(alloc: Global, path: &str, user: u32) -> Result<Option<String>, AllocError>
    ensures { IfOk result (λ expanded. IfSome expanded (λ text. IsExpanded user path.now (string_bytes text))) }
{
    let mut whole = String::new(alloc);
    let mut rest = path;
    while let Some((front, behind)) = rest.split_once("%{") {
        let Some((token, after)) = behind.split_once('}') else {
            return Ok(None);
        };
        let Some(text) = token_text(alloc, token, user)? else {
            return Ok(None);
        };
        whole.push_str(front)?;
        whole.push_str(text.as_str())?;
        rest = after;
    }
    whole.push_str(rest)?;
    Ok(Some(whole))
}

/// Returns what a token stands for; `None` if it is not known.
fn token_text(alloc: Global, token: &str, user: u32) -> Result<Option<String>, AllocError>
    ensures { IfOk result (λ text. option_map string_bytes text ≡ token_text user token.now) }
{
    if token == "uid" || token == "euid" {
        return Ok(Some(format!(in alloc; "{user}")?));
    }
    if token == "TEMP" {
        return Ok(Some(String::from_str(alloc, "/tmp")?));
    }
    Ok(None)
}
